//! Leaves, opened: their version and their room.
ghost use Rattle.std.specs.Prelude.{◌≡◌, ◌+◌, ◌*◌, ◌≤◌, ◌⊎◌, length, bytes_eq, map, IfOk, IfErr, MatchResult, None, Some};
ghost use Rattle.byteorder.specs.Endian.{twos_complement};
ghost use Rattle.mp4_boxes.specs.format.Bytes.{field, signed_field};
ghost use Rattle.mp4_boxes.specs.format.Layout.{version, time_width};
ghost use Rattle.mp4_boxes.specs.words.View.{box_seen};
ghost use Rattle.mp4_head.specs.words.Leaves.{IsOpen, FailsToOpen, nine};
ghost use Rattle.mp4_head.specs.words.Opens.{open_tests};
ghost use Rattle.mp4_boxes.specs.format.FirstFault.{first_failed, naming};

use mp4_boxes::{BoxView, Fault, FourCc, Kind, full, i32_at, u16_at, u32_at, u64_at};

// Whether a box has this type.
pub(crate) fn is(view: BoxView, name: FourCc) -> bool
    ensures { result ≡ bytes_eq name.0 (box_seen view.entry).kind }
{
    name == view.kind()
}

// How many bytes a time or duration takes.
fn width_of_times(version: u8) -> usize
    ensures { result ≡ time_width version }
{
    if version == 0 { 4 } else { 8 }
}

// Opens a leaf whose versions are those up to `last`, and whose fields take `fixed` bytes and those
// of so many times: how many bytes a time takes.
pub(crate) fn open(view: BoxView, last: u8, fixed: usize, times: usize) -> Result<usize, Fault>
    requires fixed { fixed ≤ 100 }
    requires times { times ≤ 3 }
    ensures open { IfOk result (IsOpen last fixed times (box_seen view.entry).payload) }
    ensures fault { IfErr result (FailsToOpen last fixed times (box_seen view.entry)) }
    ensures exact { MatchResult result
        (λ w. first_failed (naming (box_seen view.entry)
        (open_tests last fixed times (box_seen view.entry).payload)) ≡ None)
        (λ f. first_failed (naming (box_seen view.entry)
        (open_tests last fixed times (box_seen view.entry).payload)) ≡ Some f) }
{
    let (version, _, _) = full(view)?;
    if version > last {
        return Err(view.fault(Kind::BadVersion));
    }
    let width = width_of_times(version);
    if view.payload().len() < fixed + times * width {
        return Err(view.fault(Kind::ShortBox));
    }
    Ok(width)
}

// A time or duration, of 4 or 8 bytes.
#[inline]
pub(crate) fn time_at(bytes: &[u8], place: usize, width: usize) -> u64
    requires room { place + width ≤ length bytes.now }
    requires width { (width ≡ 4) ⊎ (width ≡ 8) }
    ensures { result ≡ field bytes.now place width }
{
    if width == 4 {
        return u64::from(u32_at(bytes, place));
    }
    u64_at(bytes, place)
}

// Two bytes as two's complement.
#[inline]
pub(crate) fn i16_at(bytes: &[u8], place: usize) -> i16
    requires { place + 2 ≤ length bytes.now }
    ensures { result ≡ signed_field bytes.now place 2 }
{
    u16_at(bytes, place).cast_signed()
}

// Nine numbers of four bytes as two's complement.
pub(crate) fn matrix_at(bytes: &[u8], place: usize) -> [i32; 9]
    requires { place + 36 ≤ length bytes.now }
    ensures { result ≡ map (twos_complement 4) (nine bytes.now place) }
{
    [
        i32_at(bytes, place),
        i32_at(bytes, place + 4),
        i32_at(bytes, place + 8),
        i32_at(bytes, place + 12),
        i32_at(bytes, place + 16),
        i32_at(bytes, place + 20),
        i32_at(bytes, place + 24),
        i32_at(bytes, place + 28),
        i32_at(bytes, place + 32),
    ]
}
