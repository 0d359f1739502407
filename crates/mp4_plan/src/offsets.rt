//! Where the data of a piece begins.
ghost use Rattle.std.specs.Prelude.{◌≡◌, ◌+◌, ◌^◌, ◌<◌, ◌≤◌, pos};
ghost use Rattle.mp4_boxes.specs.format.Written.{header_length};

/// The place of the data after the first byte of a `moof` of this length, behind the header of an
/// `mdat` with so many bytes of payload (8.8.8).
pub fn data_offset(moof: u32, payload: u64) -> i32
    requires moof { moof ≤ 2 ^ 30 }
    ensures { result ≡ pos (moof + header_length payload) }
{
    let header = if payload < (1 << 32) - 8 { 8 } else { 16 };
    (moof + header) as i32
}
