//! `tfdt`: the decode time of a `traf` (ISO/IEC 14496-12, 8.8.12).
ghost use Rattle.std.specs.Prelude.{◌≡◌, IfOk};
ghost use Rattle.mp4_boxes.specs.format.FirstFault.{FirstNamed, leaf_tests};
ghost use Rattle.mp4_boxes.specs.format.Layout.{IsReadable, tfdt};
ghost use Rattle.mp4_frag.specs.format.Fragments.{decode_time_of};

use mp4_boxes::{Kind, front, u32_at, u64_at};

/// The decode time that a `tfdt` says.
pub(crate) fn read_time(payload: &[u8]) -> Result<u64, Kind>
    ensures time { IfOk result (λ t. t ≡ decode_time_of payload.now) }
    ensures readable { IfOk result (λ t. IsReadable tfdt payload.now) }
    ensures exact { FirstNamed (leaf_tests tfdt payload.now) result }
{
    let (version, _) = front(payload)?;
    if version > 1 {
        return Err(Kind::BadVersion);
    }
    let needed = if version == 0 { 8 } else { 12 };
    if payload.len() < needed {
        return Err(Kind::ShortBox);
    }
    if version == 0 {
        return Ok(u64::from(u32_at(payload, 4)));
    }
    Ok(u64_at(payload, 4))
}
