//! `minf`: the media header, `dinf` and `stbl` (ISO/IEC 14496-12, 8.4.4 and 8.7.1).
ghost use Rattle.std.specs.Prelude.{◌≡◌, ℕ, suc, List, [], true, map, IfOk, IfErr, OnOk, bytes_eq, codes};
ghost use Rattle.mp4_boxes.specs.format.Layout.{dref, data_entry_url, IsSound};
ghost use Rattle.mp4_boxes.specs.format.Places.{ruled, data_entries};
ghost use Rattle.mp4_boxes.specs.words.View.{box_seen};
ghost use Rattle.mp4_boxes.specs.declared.rule.Rule.TheVariants as rules;
ghost use Rattle.mp4_head.specs.words.Containers.{SaysReferences, SaysDataInformation, SaysInformation};
ghost use Rattle.mp4_boxes.specs.format.FirstFault.{first_failed, leaf_fault};
ghost use Rattle.mp4_head.specs.format.FirstFault.{fault_within, own_tests, or_else};
ghost use Rattle.mp4_head.specs.words.FaultNamed.{NamesFault, NamesRefused};
ghost use Rattle.mp4_head.specs.words.Leaves.{FailsAsReference};
ghost use Rattle.mp4_head.specs.words.Refuses.{place_of};
ghost use Rattle.mp4_head.specs.words.Seen.{kept_seen};
ghost use Rattle.mp4_boxes.specs.format.Children.{is_among, media_headers};

use crate::kept_boxes::{Kept, keep};
use crate::leaves::{is, open};
use crate::sample_table::{SampleTable, read_sample_table};
use mp4_boxes::{
    BoxView, Fault, FourCc, Kind, Refusal, Rule, check_children, counted, full, u32_at,
};
use std::alloc::Global;

// The one data reference: media data lies in this file (8.7.2).
fn check_reference(entry: BoxView) -> Result<(), Fault>
    ensures url { OnOk result (bytes_eq (codes "url ") (box_seen entry.entry).kind ≡ true) }
    ensures sound { OnOk result (IsSound data_entry_url (box_seen entry.entry).payload) }
    ensures fault { IfErr result (FailsAsReference (box_seen entry.entry)) }
    ensures exact { NamesFault
        (first_failed (own_tests data_entries [] [] (box_seen entry.entry))) result }
{
    if !is(entry, FourCc(*b"url ")) {
        return Err(entry.fault(Kind::OutsideData));
    }
    let (_, flags, _) = full(entry)?;
    if flags & 1 == 0 {
        return Err(entry.fault(Kind::OutsideData));
    }
    Ok(())
}

// The entries of a `dref`.
fn check_references(view: BoxView) -> Result<(), Fault>
    ensures says { OnOk result (SaysReferences (box_seen view.entry)) }
    ensures exact { (n : ℕ) (ids : List ℕ) → NamesFault (or_else
        (leaf_fault dref (box_seen view.entry)) (λ u.
        fault_within (suc n) ids (place_of data_entries (box_seen view.entry)))) result }
{
    open(view, 0, 8, 0)?;
    if u32_at(view.payload(), 4) != 1 {
        return Err(view.fault(Kind::OutsideData));
    }
    for entry in counted(view)? {
        check_reference(entry)?;
    }
    Ok(())
}

fn check_data_information(dinf: BoxView) -> Result<(), Fault>
    ensures says { OnOk result (SaysDataInformation (box_seen dinf.entry)) }
    ensures exact { (n : ℕ) (ids : List ℕ) → NamesFault (fault_within (suc (suc n)) ids
        (place_of (ruled rules.DataInformation) (box_seen dinf.entry))) result }
{
    for child in check_children(dinf, Rule::DataInformation)? {
        if is(child, FourCc(*b"dref")) {
            check_references(child)?;
        }
    }
    Ok(())
}

// What `minf` says.
#[derive(Debug, Drop)]
pub(crate) struct Information<'a> {
    pub(crate) header: Kept<'a>,
    pub(crate) stbl: BoxView<'a>,
    pub(crate) table: SampleTable<'a>,
}

// Whether the box is a media header (8.4.5).
fn is_media_header(view: BoxView) -> bool
    ensures { result ≡ is_among media_headers (box_seen view.entry).kind }
{
    Rule::MediaInformation.keeps(view.kind())
}

pub(crate) fn read_information<'a>(
    alloc: Global,
    minf: BoxView<'a>,
) -> Result<Information<'a>, Refusal>
    ensures says { IfOk result
        (λ i. SaysInformation (box_seen minf.entry) (kept_seen i.header) (box_seen i.stbl)
        (map kept_seen i.table.descriptions.items)
        (map (λ p. p.now) i.table.group_descriptions.items)) }
    ensures exact { (n : ℕ) (ids : List ℕ) → NamesRefused (fault_within (suc (suc (suc n))) ids
        (place_of (ruled rules.MediaInformation) (box_seen minf.entry))) result }
{
    let mut header = None;
    let mut tables = None;
    for child in check_children(minf, Rule::MediaInformation)? {
        if is(child, FourCc(*b"dinf")) {
            check_data_information(child)?;
        } else if is(child, FourCc(*b"stbl")) {
            tables = Some((child, read_sample_table(alloc, child)?));
        } else if is_media_header(child) {
            header = Some(keep(child));
        }
    }
    let Some(header) = header else {
        return Err(Refusal::from(minf.fault(Kind::MissingBox)));
    };
    let Some((stbl, table)) = tables else {
        return Err(Refusal::from(minf.fault(Kind::MissingBox)));
    };
    Ok(Information {
        header,
        stbl,
        table,
    })
}
