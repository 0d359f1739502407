//! `moov`: the head of a movie, read (ISO/IEC 14496-12, 8.2.1).
ghost use Rattle.std.specs.Prelude.{◌≡◌, ℕ, suc, [], map, IfOk};
ghost use Rattle.std.specs.List.{AllByRecursion};
ghost use Rattle.mp4_boxes.specs.format.Children.{is_among, kept_kinds};
ghost use Rattle.mp4_boxes.specs.format.Places.{ruled};
ghost use Rattle.mp4_boxes.specs.words.View.{box_seen};
ghost use Rattle.mp4_boxes.specs.declared.rule.Rule.TheVariants as rules;
ghost use Rattle.mp4_head.specs.words.Found.{movie_joined, LiesIn, SaysHead};
ghost use Rattle.mp4_head.specs.format.FirstFault.{fault_within};
ghost use Rattle.mp4_head.specs.words.FaultNamed.{NamesRefused};
ghost use Rattle.mp4_head.specs.words.Refuses.{place_of};
ghost use Rattle.mp4_head.specs.words.Seen.{kept_seen, movie_seen};

use crate::extends::read_extends;
use crate::heads::{MovieHead, TrackHead};
use crate::kept_boxes::{Kept, keep_unplaced};
use crate::leaves::is;
use crate::movie_header::{MovieHeader, read_movie_header};
use crate::track_boxes::read_track;
use mp4_boxes::{BoxView, FourCc, Kind, Refusal, Rule, check_children};
use mp4_frag::Trex;
use std::alloc::Global;
use std::collections::BTreeSet;

// Whether the box is kept in a `moov`.
fn is_kept(view: BoxView) -> bool
    ensures { result ≡ is_among (kept_kinds rules.Movie) (box_seen view.entry).kind }
{
    Rule::Movie.keeps(view.kind())
}

// What is said of a movie, put together.
fn head_of<'a>(
    header: MovieHeader,
    kept: Vec<Kept<'a>>,
    tracks: Vec<TrackHead<'a>>,
    trexes: Vec<Trex>,
) -> MovieHead<'a>
    ensures movie { movie_seen result ≡ movie_joined header (map kept_seen kept.entry.items) }
    ensures tracks { result.tracks.items ≡ tracks.entry.items }
    ensures trexes { result.trexes.items ≡ trexes.items }
{
    let matrix = header.matrix;
    MovieHead {
        creation: header.creation,
        modification: header.modification,
        timescale: header.timescale,
        rate: header.rate,
        volume: header.volume,
        matrix,
        kept,
        tracks,
        trexes,
    }
}

/// The head that a `moov` has. Of a container first the list of its boxes is checked, then the
/// inside of each box in file order. Payloads are borrowed, and of an `stbl` only the descriptions
/// are read.
pub fn read_head<'a>(alloc: Global, moov: BoxView<'a>) -> Result<MovieHead<'a>, Refusal>
    ensures head { IfOk result (SaysHead (box_seen moov.entry)) }
    ensures inside { IfOk result
        (λ m. AllByRecursion (λ t. LiesIn (box_seen moov.entry) (box_seen t.stbl)) m.tracks.items) }
    ensures exact { (n : ℕ) → NamesRefused
        (fault_within (suc (suc (suc (suc (suc (suc n)))))) []
        (place_of (ruled rules.Movie) (box_seen moov.entry))) result }
{
    let mut header = None;
    let mut kept = Vec::new(alloc);
    let mut tracks = Vec::new(alloc);
    let mut ids = BTreeSet::new(alloc);
    let mut trexes = Vec::new(alloc);
    for child in check_children(moov, Rule::Movie)? {
        if is(child, FourCc(*b"mvhd")) {
            header = Some(read_movie_header(child)?);
        } else if is_kept(child) {
            kept.push(keep_unplaced(child)?)?;
        } else if is(child, FourCc(*b"trak")) {
            tracks.push(read_track(alloc, child, &mut ids)?)?;
        } else if is(child, FourCc(*b"mvex")) {
            trexes = read_extends(alloc, child)?;
        }
    }
    let Some(header) = header else {
        return Err(Refusal::from(moov.fault(Kind::MissingBox)));
    };
    Ok(head_of(header, kept, tracks, trexes))
}
