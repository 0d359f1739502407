//! Bytes of samples, compared.
ghost use Rattle.std.specs.Prelude.{◌≡◌, ◌+◌, ◌<◌, ◌≤◌, IfSome, length, IfOk};
ghost use Rattle.mp4_store.specs.words.Device.{range};
ghost use Rattle.mp4_content.specs.format.Differences.{first_unequal};
ghost use Rattle.mp4_content.specs.words.TwoStores.{OnlyReadsBoth};
ghost use Rattle.mp4_present.specs.words.StoresRead.{WhereBothHonest};
ghost use Rattle.mp4_content.specs.words.Windows.{BothShow};
ghost use Rattle.mp4_content.specs.words.Differing.{RefusedBoth, RefusesEither};

use crate::comparing::fields::first_unequal;
use crate::file_window::FileWindow;
use mp4_boxes::Refusal;
use mp4_store::Store;

// As many bytes of both files: where they begin in each, and how many they are.
#[derive(Clone, Copy)]
pub(crate) struct Ranges {
    pub(crate) left: u64,
    pub(crate) right: u64,
    pub(crate) len: u64,
}

// Where these bytes of two files first differ, and both of them.
pub(crate) fn first_difference<S: Store, T: Store>(
    ranges: Ranges,
    left_window: &mut FileWindow,
    left: &mut S,
    right_window: &mut FileWindow,
    right: &mut T,
) -> Result<Option<(u64, u8, u8)>, Refusal>
    requires left { ranges.left + ranges.len ≤ length (S.file left.old) }
    requires right { ranges.right + ranges.len ≤ length (T.file right.old) }
    requires shows { BothShow S.Store left.old left_window.old T.Store right.old right_window.old }
    ensures stores { OnlyReadsBoth S.Store left.old left.new T.Store right.old right.new result }
    ensures shows { BothShow S.Store left.old left_window.new T.Store right.old right_window.new }
    ensures found { IfOk result (λ found. WhereBothHonest S.Store left.old T.Store right.old
        (λ file other. found ≡ first_unequal 0 (range file ranges.left ranges.len)
        (range other ranges.right ranges.len))) }
    ensures within { IfOk result (λ found. IfSome found (λ f. f.0 < ranges.len)) }
    ensures refusal { RefusedBoth S.Store left.old left.new T.Store right.old right.new result
        RefusesEither }
{
    let _left_len = left.len();
    let _right_len = right.len();
    let Ranges {
        left: left_at,
        right: right_at,
        len,
    } = ranges;
    let mut done = 0;
    while done < len {
        let shown = left_window.show(left, left_at + done)?;
        let other = right_window.show(right, right_at + done)?;
        let both = shown.min(other);
        let count = if len - done < both as u64 {
            (len - done) as usize
        } else {
            both
        };
        let first = left_window.bytes(left_at + done, count);
        let second = right_window.bytes(right_at + done, count);
        if let Some((place, byte, other)) = first_unequal(first, second) {
            return Ok(Some((done + place as u64, byte, other)));
        }
        done += count as u64;
    }
    Ok(None)
}
