//! Numbers that stand in a box only where a flag says so.
ghost use Rattle.std.specs.Prelude.{◌≡◌, ◌+◌, ◌≤◌, length};
ghost use Rattle.mp4_boxes.specs.format.Layout.{has};
ghost use Rattle.mp4_frag.specs.words.ColumnsRead.{taken, number_if};

use mp4_boxes::{u32_at, u64_at};

// Whether the flag is set.
#[inline]
pub(crate) fn has(bits: u32, flag: u32) -> bool
    ensures { result ≡ has bits flag }
{
    bits & flag != 0
}

// The place behind a number of so many bytes, if it is there.
#[inline]
pub(crate) fn behind(place: usize, width: usize, is_there: bool) -> usize
    requires { place + width ≤ usize.MAX }
    ensures { result ≡ place + taken is_there width }
{
    if is_there { place + width } else { place }
}

// The four bytes at a place, if they are there.
#[inline]
pub(crate) fn number_at(bytes: &[u8], place: usize, is_there: bool) -> Option<u32>
    requires { place + taken is_there 4 ≤ length bytes.now }
    ensures { result ≡ number_if is_there bytes.now place 4 }
{
    if is_there {
        Some(u32_at(bytes, place))
    } else {
        None
    }
}

// The eight bytes at a place, if they are there.
#[inline]
pub(crate) fn wide_at(bytes: &[u8], place: usize, is_there: bool) -> Option<u64>
    requires { place + taken is_there 8 ≤ length bytes.now }
    ensures { result ≡ number_if is_there bytes.now place 8 }
{
    if is_there {
        Some(u64_at(bytes, place))
    } else {
        None
    }
}
