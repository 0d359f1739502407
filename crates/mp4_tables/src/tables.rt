//! The tables of a track, checked once.
use crate::checks::read_tables;
use crate::keys::Keys;
use crate::leaves::Limits;
use crate::places::TablesAt;
use crate::totals::{Totals, sum_of_sizes, sum_of_values};
use mp4_boxes::{BoxView, Fault, Steps};
use std::marker::Model;
use std::sync::ledger::Ledger;

/// The tables of a track that agree with each other, with the file and with the limits.
#[derive(Drop)]
pub struct Tables<'a> {
    payload: &'a [u8],
    at: TablesAt,
}

impl<'a> Model for Tables<'a> {
    ghost use Rattle.mp4_tables.specs.words.TablesSeen.{TablesSeen};

    ghost Value = { TablesSeen };

    ghost use Rattle.mp4_tables.specs.words.Accepted.{IsAccepted};

    ghost view = { λ t. record { payload = t.payload.now; at = t.at } };

    ghost invariant = { λ t. IsAccepted t.payload.now t.at };
}

impl<'a> Tables<'a> {
    ghost use Rattle.mp4_boxes.specs.format.FirstFault.{FirstNamed};
    ghost use Rattle.mp4_tables.specs.format.FirstFault.{table_tests};
    ghost use Rattle.std.specs.Prelude.{◌≡◌, ◌+◌, ◌-◌, ◌*◌, ◌^◌, ◌≤◌, min, [], length, IfOk};
    ghost use Rattle.mp4_boxes.specs.format.Bytes.{sum_of};
    ghost use Rattle.mp4_tables.specs.words.Timed.{samples_of};
    ghost use Rattle.mp4_tables.specs.declared.sample.SampleAt.{SampleAt};
    ghost use Rattle.mp4_boxes.specs.words.View.{box_seen};
    ghost use Rattle.mp4_tables.specs.format.Groups.{keys_after};
    ghost use Rattle.mp4_tables.specs.words.Keys.{keys_seen};
    ghost use Rattle.mp4_tables.specs.words.Leaves.{HasTables, TablesRead, tables_in, boxes_of};
    ghost use Rattle.mp4_tables.specs.words.TablesSeen.{tables_seen};
    ghost use Rattle.mp4_tables.specs.words.Accepted.{IsAccepted, rows_in, check_steps};

    /// The tables of an `stbl` with the children of the profile, in a file of so many bytes, for a
    /// track with so many descriptions, where so many samples are still allowed: if each has its
    /// shape and they agree with each other and are in range; else what is wrong with them first.
    /// `keys` becomes the keys that the tables name. The steps of tables that it accepts are one
    /// for each row of `stts`, `stsc`, `stss` and a signed `ctts`, two for each row of an unsigned
    /// `ctts` and of an `sbgp`, six for each chunk and two for each sample, no more and no fewer.
    pub fn check<L: Ledger, M: Ledger>(
        stbl: BoxView<'a>,
        file_len: u64,
        descriptions: u32,
        room: u32,
        keys: &mut Keys,
        steps: &mut Steps<L, M>,
    ) -> Result<Tables<'a>, Fault>
        requires { HasTables (box_seen stbl) }
        ensures payload { IfOk result (λ t. t.payload ≡ (box_seen stbl.entry).payload) }
        ensures tables { IfOk result
            (λ t. TablesRead (record {
              file_len = file_len;
              descriptions = descriptions;
              room = room;
            }) (box_seen stbl.entry) t.at) }
        ensures keys { IfOk result (λ _. keys_seen keys.new
            ≡ keys_after [] (tables_in (box_seen stbl.entry)).groups) }
        ensures exact { FirstNamed (table_tests room
            (record { file_length = file_len; descriptions = descriptions })
            (boxes_of (box_seen stbl.entry))) result }
        ensures passed { IfOk result (λ t. steps.new.passed ≤ steps.old.passed + 6 * rows_in t.at
            + 2 * t.at.sizes.rows.count) }
        ensures within { IfOk result (λ t. steps.new.passed ≤ steps.old.passed
            + 4 * length (box_seen stbl.entry).payload + 2 * t.at.sizes.rows.count) }
        ensures work { steps.new.passed ≤ steps.old.passed
            + 4 * length (box_seen stbl.entry).payload + 2 * room }
        ensures counted { IfOk result (λ t. steps.new.passed
            ≡ steps.old.passed + check_steps t.at) }
        ensures looks { steps.new.looks ≡ steps.old.looks }
    {
        let limits = Limits {
            file_len,
            descriptions,
            room,
        };
        let at = read_tables(stbl, limits, &mut steps.passed)?;
        *keys = at.groups.keys;
        Ok(Tables {
            payload: stbl.payload(),
            at,
        })
    }

    /// How many samples there are.
    #[tactic(auto, using(crate::proofs::PlaceLists::count_is))]
    pub fn count(&self) -> u32
        ensures { result ≡ length (tables_seen self.now).sizes }
    {
        self.at.sizes.rows.count
    }

    /// What the samples come to together. It passes each row of `stts` once, and each size, a step
    /// each.
    pub fn totals<L: Ledger, M: Ledger>(&self, steps: &mut Steps<L, M>) -> Totals
        ensures duration { result.duration
            ≡ min (sum_of (λ (s : SampleAt). s.duration) (samples_of (tables_seen self.now)))
            (2 ^ 64 - 1) }
        ensures bytes { result.bytes
            ≡ min (sum_of (λ (s : SampleAt). s.size) (samples_of (tables_seen self.now)))
            (2 ^ 64 - 1) }
        ensures work { steps.new.passed ≤ steps.old.passed + self.now.at.durations.count
            + self.now.at.sizes.rows.count }
        ensures counted { steps.new.passed ≡ steps.old.passed + self.now.at.durations.count
            + self.now.at.sizes.rows.count }
        ensures looks { steps.new.looks ≡ steps.old.looks }
    {
        Totals {
            duration: sum_of_values(self.payload, self.at.durations, &mut steps.passed),
            bytes: sum_of_sizes(self.payload, self.at.sizes, &mut steps.passed),
        }
    }

    /// Where the tables lie in the payload of their `stbl`.
    pub fn places(&self) -> TablesAt
        ensures at { result ≡ self.now.at }
        ensures accepted { IsAccepted self.now.payload result }
    {
        self.at
    }

    /// The tables of an `stbl` that was checked before, by the places that its tables had then.
    pub fn again(stbl: BoxView<'a>, at: TablesAt) -> Tables<'a>
        requires { IsAccepted (box_seen stbl).payload at }
        ensures { result ≡ record { payload = (box_seen stbl.entry).payload; at = at } }
    {
        Tables {
            payload: stbl.payload(),
            at,
        }
    }

    // The bytes that the places speak of.
    pub(crate) fn payload(&self) -> &'a [u8]
        ensures same { result.now ≡ self.now.payload }
        ensures accepted { IsAccepted result.now self.now.at }
    {
        self.payload
    }
}
