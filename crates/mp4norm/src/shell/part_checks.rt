//! Whether the boxes of each part of a list end with the part.
ghost use Rattle.std.specs.Prelude.{◌<◌, ◌≤◌, length, IfOk};
ghost use Rattle.mp4_present.specs.words.StoresRead.{OnlyReads};

use mp4_answers::box_names::holder;
use mp4_boxes::{Refusal, Rule, box_header};
use mp4_store::Store;

// Where the box at the place `at` ends, in a part that ends at `end`. A size of 0, which means to
// the end, is allowed only in the last part that has bytes.
fn end_of_box<S: Store>(store: &mut S, at: u64, end: u64, is_last: bool) -> Result<u64, Refusal>
    requires some { at < end }
    requires within { end ≤ length (S.file store.old) }
    ensures store { OnlyReads S.Store store.old store.new result }
    ensures less { IfOk result (λ next. at < next) }
    ensures inside { IfOk result (λ next. next ≤ end) }
{
    let _size = store.len();
    let left = end - at;
    let mut front = [0; 16];
    let len = left.min(16) as usize;
    let bytes = &mut front[..len];
    store.read_at(at, bytes)?;
    let header = box_header(bytes, at, left, is_last, holder(Rule::File))?;
    Ok(header.end)
}

// Goes over the headers of the boxes between two places.
fn check_part<S: Store>(store: &mut S, from: u64, end: u64, is_last: bool) -> Result<(), Refusal>
    ensures store { OnlyReads S.Store store.old store.new result }
{
    let end = end.min(store.len());
    let mut at = from;
    while at < end {
        at = end_of_box(store, at, end, is_last)?;
    }
    Ok(())
}

/// Goes over the headers of the file's own boxes, part by part; the parts end at these places. A
/// box that ends behind its part is at fault, and so is one of size 0 where bytes follow the part.
pub(crate) fn check_parts<S: Store>(store: &mut S, ends: &[u64]) -> Result<(), Refusal>
    ensures store { OnlyReads S.Store store.old store.new result }
{
    let whole = ends.last().copied().unwrap_or(0);
    let mut from = 0;
    for part in 0..ends.len() {
        let end = ends[part];
        check_part(store, from, end, end == whole)?;
        from = end;
    }
    Ok(())
}
