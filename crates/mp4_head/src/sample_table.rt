//! `stbl`, as far as it is no table: `stsd` (ISO/IEC 14496-12, 8.5.2), and the payloads of `sgpd`
//! (8.9.3).
ghost use Rattle.std.specs.Prelude.{◌≡◌, ℕ, suc, List, map, IfOk, MatchResult, None, Some};
ghost use Rattle.mp4_boxes.specs.format.Layout.{sample_entry, stsd};
ghost use Rattle.mp4_boxes.specs.format.Places.{ruled, sample_entries};
ghost use Rattle.mp4_boxes.specs.words.View.{box_seen};
ghost use Rattle.mp4_boxes.specs.format.FirstFault.{leaf_fault};
ghost use Rattle.mp4_boxes.specs.declared.rule.Rule.TheVariants as rules;
ghost use Rattle.mp4_head.specs.words.Containers.{SaysDescriptions, SaysTable, kept_of};
ghost use Rattle.mp4_head.specs.format.FirstFault.{fault_within, or_else};
ghost use Rattle.mp4_head.specs.words.FaultNamed.{NamesRefused};
ghost use Rattle.mp4_head.specs.words.Refuses.{place_of};
ghost use Rattle.mp4_head.specs.words.Seen.{kept_seen};

use crate::kept_boxes::{Kept, keep};
use crate::leaves::{is, open};
use mp4_boxes::{BoxView, Fault, FourCc, Kind, Refusal, Rule, check_children, counted, u16_at};
use std::alloc::Global;

// What of an `stbl` is no table.
#[derive(Debug, Drop)]
pub(crate) struct SampleTable<'a> {
    pub(crate) descriptions: Vec<Kept<'a>>,
    pub(crate) group_descriptions: Vec<&'a [u8]>,
}

// An entry of `stsd`, which names the first data reference.
fn read_description<'a>(entry: BoxView<'a>) -> Result<Kept<'a>, Fault>
    ensures says { IfOk result (λ d. kept_seen d ≡ kept_of (box_seen entry.entry)) }
    ensures exact { MatchResult result (λ h. leaf_fault sample_entry (box_seen entry.entry) ≡ None)
        (λ f. leaf_fault sample_entry (box_seen entry.entry) ≡ Some f) }
{
    let payload = entry.payload();
    if payload.len() < 8 {
        return Err(entry.fault(Kind::ShortBox));
    }
    if u16_at(payload, 6) != 1 {
        return Err(entry.fault(Kind::BadValue));
    }
    Ok(keep(entry))
}

// The entries of an `stsd`.
fn read_descriptions<'a>(alloc: Global, view: BoxView<'a>) -> Result<Vec<Kept<'a>>, Refusal>
    ensures says { IfOk result
        (λ ds. SaysDescriptions (box_seen view.entry) (map kept_seen ds.items)) }
    ensures exact { (n : ℕ) (ids : List ℕ) → NamesRefused (or_else
        (leaf_fault stsd (box_seen view.entry)) (λ u.
        fault_within (suc n) ids (place_of sample_entries (box_seen view.entry)))) result }
{
    open(view, 0, 8, 0)?;
    let mut descriptions = Vec::new(alloc);
    for entry in counted(view)? {
        descriptions.push(read_description(entry)?)?;
    }
    Ok(descriptions)
}

pub(crate) fn read_sample_table<'a>(
    alloc: Global,
    stbl: BoxView<'a>,
) -> Result<SampleTable<'a>, Refusal>
    ensures says { IfOk result
        (λ t. SaysTable (box_seen stbl.entry) (map kept_seen t.descriptions.items)
        (map (λ p. p.now) t.group_descriptions.items)) }
    ensures exact { (n : ℕ) (ids : List ℕ) → NamesRefused (fault_within (suc (suc n)) ids
        (place_of (ruled rules.SampleTable) (box_seen stbl.entry))) result }
{
    let mut descriptions = Vec::new(alloc);
    let mut group_descriptions = Vec::new(alloc);
    for child in check_children(stbl, Rule::SampleTable)? {
        if is(child, FourCc(*b"stsd")) {
            descriptions = read_descriptions(alloc, child)?;
        } else if is(child, FourCc(*b"sgpd")) {
            group_descriptions.push(child.payload())?;
        }
    }
    Ok(SampleTable {
        descriptions,
        group_descriptions,
    })
}
