//! Boxes that are kept as they are.
ghost use Rattle.std.specs.Prelude.{◌≡◌, false, true, IfOk, IfErr, OnOk, OnErr};
ghost use Rattle.mp4_boxes.specs.format.BoxFaults.{fault_of};
ghost use Rattle.mp4_boxes.specs.words.View.{box_seen};
ghost use Rattle.mp4_boxes.specs.declared.fault.Kind.TheVariants as kinds;
ghost use Rattle.mp4_head.specs.words.Containers.{kept_of};
ghost use Rattle.mp4_head.specs.format.Head.{names_item_location};
ghost use Rattle.mp4_head.specs.words.Seen.{kept_seen};

use memchr::memmem;
use mp4_boxes::{BoxView, Fault, FourCc, Kind};

/// A box that is passed on as it is: its type and its payload. An entry of `stsd`, which says how
/// samples are coded, is one too (ISO/IEC 14496-12, 8.5.2).
#[derive(Clone, Copy, Debug, PartialEq, Eq)]
pub struct Kept<'a> {
    pub kind: FourCc,
    pub payload: &'a [u8],
}

// Whether the letters `iloc` stand somewhere in the bytes.
fn names_item_location(bytes: &[u8]) -> bool
    ensures { result ≡ names_item_location bytes.now }
{
    memmem::find(bytes, b"iloc").is_some()
}

// A box as it is kept.
pub(crate) fn keep<'a>(view: BoxView<'a>) -> Kept<'a>
    ensures { kept_seen result ≡ kept_of (box_seen view.entry) }
{
    Kept {
        kind: view.kind(),
        payload: view.payload(),
    }
}

// A box as it is kept, where it names no file offsets of items.
pub(crate) fn keep_unplaced<'a>(view: BoxView<'a>) -> Result<Kept<'a>, Fault>
    ensures kept { IfOk result (λ k. kept_seen k ≡ kept_of (box_seen view.entry)) }
    ensures unplaced { OnOk result (names_item_location (box_seen view.entry).payload ≡ false) }
    ensures names { OnErr result (names_item_location (box_seen view.entry).payload ≡ true) }
    ensures fault { IfErr result (λ f. f ≡ fault_of kinds.ItemLocation (box_seen view.entry)) }
{
    if names_item_location(view.payload()) {
        return Err(view.fault(Kind::ItemLocation));
    }
    Ok(keep(view))
}
