//! A header of a box in a container of boxes, read by place.
ghost use Rattle.std.specs.Prelude.{◌≡◌, ◌<◌, ◌≤◌, length, IfOk};
ghost use Rattle.mp4_present.specs.words.StoresRead.{OnlyReads, RefusedOf, WhereRead};
ghost use Rattle.mp4_answers.specs.format.Strips.{is_top};
ghost use Rattle.mp4_answers.specs.words.StripSpans.{IsHeaderAt, LiesBetween, RefusesHeaderAt};

use crate::box_names::holder;
use mp4_boxes::{Refusal, Rule, TopHeader, box_header};
use mp4_store::Store;

// Whether the boxes under a rule are those of the file itself.
fn is_top(rule: Rule) -> bool
    ensures { result ≡ is_top rule }
{
    rule == Rule::File
}

/// Reads the header at the place `at` of a container that ends at `end` and whose boxes lie under a
/// rule.
pub(crate) fn read_header<S: Store>(
    store: &mut S,
    rule: Rule,
    at: u64,
    end: u64,
) -> Result<TopHeader, Refusal>
    requires some { at < end }
    requires within { end ≤ length (S.file store.old) }
    ensures store { OnlyReads S.Store store.old store.new result }
    ensures header { WhereRead S.Store store.old result (IsHeaderAt rule at end) }
    ensures fits { IfOk result (LiesBetween at end) }
    ensures refusal { RefusedOf S.Store store.old store.new result (RefusesHeaderAt rule at end) }
{
    let _size = store.len();
    let left = end - at;
    let mut front = [0; 16];
    let len = left.min(16) as usize;
    let bytes = &mut front[..len];
    store.read_at(at, bytes)?;
    let header = box_header(bytes, at, left, is_top(rule), holder(rule))?;
    Ok(header)
}
