//! A walk over the samples of tables, one by one.
use crate::places::{TablePlace, TablesAt};
use crate::sample::{SampleAt, Samples};
use crate::table_samples::{first_place, pass_non_sync, pass_place, sample_here};
use crate::tables::Tables;
use std::marker::Model;

/// The samples of tables from a place on. No step takes memory, and all steps together pass each
/// row once.
#[derive(Drop)]
pub struct TableCursor<'a> {
    payload: &'a [u8],
    at: TablesAt,
    place: TablePlace,
}

impl<'a> Model for TableCursor<'a> {
    ghost use Rattle.mp4_tables.specs.words.TablesSeen.{CursorSeen};

    ghost Value = { CursorSeen };

    ghost use Rattle.mp4_tables.specs.words.Accepted.{IsAccepted, IsPlace};

    ghost view = { λ c. record {
      tables = record { payload = c.payload.now; at = c.at };
      place = c.place;
    } };

    ghost invariant = { λ c. IsAccepted c.payload.now c.at × IsPlace c.payload.now c.at c.place };
}

impl<'a> TableCursor<'a> {
    ghost use Rattle.std.specs.Prelude.{◌≡◌, ◌-◌, length};
    ghost use Rattle.mp4_tables.specs.words.Accepted.{IsPlace};
    ghost use Rattle.mp4_tables.specs.words.TablesSeen.{samples_from, tables_seen};

    /// The walk from the first sample on.
    pub fn start(tables: &Tables<'a>) -> TableCursor<'a>
        ensures tables { result.tables ≡ tables.now }
        ensures first { result.place.number ≡ 0 }
        ensures count { length (samples_from result) ≡ length (tables_seen tables.now).sizes }
    {
        let payload = tables.payload();
        let at = tables.places();
        let place = first_place(payload, &at);
        TableCursor { payload, at, place }
    }

    /// The walk from a place on.
    pub fn at(tables: &Tables<'a>, place: TablePlace) -> TableCursor<'a>
        requires { IsPlace tables.now.payload tables.now.at place }
        ensures is { result ≡ record { tables = tables.now; place = place } }
        ensures count { length (samples_from result) ≡ length (tables_seen tables.now).sizes
            - place.number }
    {
        let payload = tables.payload();
        let at = tables.places();
        TableCursor { payload, at, place }
    }

    /// Where the walk stands.
    pub fn place(&self) -> TablePlace
        ensures is { result ≡ self.now.place }
        ensures place { IsPlace self.now.tables.payload self.now.tables.at result }
    {
        self.place
    }
}

impl<'a> Samples for TableCursor<'a> {
    ghost use Rattle.std.specs.Prelude.{◌≡◌, ◌≤◌};
    ghost use Rattle.std.proofs.Common.{refl, ◌∙◌};
    ghost use Rattle.std.proofs.Math.Nat.{le_refl, le_trans};
    ghost use Rattle.mp4_tables.specs.words.Accepted.{passed};
    ghost use Rattle.mp4_tables.specs.words.TablesSeen.{samples_from};

    ghost rest = { samples_from };

    ghost follows = { λ s t. (t.tables ≡ s.tables) × (passed s.place ≤ passed t.place) };

    #[inline(always)]
    fn peek(&self) -> Option<SampleAt> {
        if self.place.number < self.at.sizes.rows.count {
            Some(sample_here(self.payload, &self.at, &self.place))
        } else {
            None
        }
    }

    #[inline(always)]
    fn next(&mut self) -> Option<SampleAt> {
        if self.place.number < self.at.sizes.rows.count {
            let sample = sample_here(self.payload, &self.at, &self.place);
            pass_place(self.payload, &self.at, &mut self.place, sample.size);
            Some(sample)
        } else {
            None
        }
    }

    #[inline(always)]
    fn pass(&mut self, sample: &SampleAt) {
        pass_place(self.payload, &self.at, &mut self.place, sample.size);
    }

    fn pass_non_sync(&mut self, description: u32, most: u32) -> u32 {
        pass_non_sync(self.payload, &self.at, &mut self.place, description, most)
    }

    ghost follows_itself = { λ s. (refl, le_refl _) };

    ghost follows_on = { λ s t u p q. (q.0 ∙ p.0, le_trans p.1 q.1) };
}
