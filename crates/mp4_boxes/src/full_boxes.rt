//! Full boxes: a version and flags in front (ISO/IEC 14496-12, 4.2.3).
ghost use Rattle.std.specs.Prelude.{◌≡◌, ◌<◌, ◌≤◌, length, drop, IfOk, IfErr};
ghost use Rattle.mp4_boxes.specs.declared.fault.Kind.TheVariants as kinds;
ghost use Rattle.mp4_boxes.specs.format.BoxFaults.{fault_of};
ghost use Rattle.mp4_boxes.specs.format.Layout.{version, flags};
ghost use Rattle.mp4_boxes.specs.words.View.{box_seen};

use crate::fault::{Fault, Kind};
use crate::view::BoxView;
use byteorder::{BigEndian, ByteOrder};

/// The version and the flags in front of a payload.
pub fn front(payload: &[u8]) -> Result<(u8, u32), Kind>
    ensures version { IfOk result (λ r. r.0 ≡ version payload.now) }
    ensures flags { IfOk result (λ r. r.1 ≡ flags payload.now) }
    ensures long { IfOk result (λ r. 4 ≤ length payload.now) }
    ensures fault { IfErr result (λ kind. (length payload.now < 4) × (kind ≡ kinds.ShortBox)) }
{
    if payload.len() < 4 {
        return Err(Kind::ShortBox);
    }
    Ok((payload[0], BigEndian::read_u24(&payload[1..])))
}

/// The version, the flags and what follows them.
pub fn full<'a>(view: BoxView<'a>) -> Result<(u8, u32, &'a [u8]), Fault>
    ensures version { IfOk result (λ r. r.0 ≡ version (box_seen view.entry).payload) }
    ensures flags { IfOk result (λ r. r.1 ≡ flags (box_seen view.entry).payload) }
    ensures rest { IfOk result (λ r. r.2.now ≡ drop 4 (box_seen view.entry).payload) }
    ensures long { IfOk result (λ r. 4 ≤ length (box_seen view.entry).payload) }
    ensures fault { IfErr result (λ f. (length (box_seen view.entry).payload < 4)
        × (f ≡ fault_of kinds.ShortBox (box_seen view.entry))) }
{
    let payload = view.payload();
    match front(payload) {
        Ok((version, flags)) => Ok((version, flags, &payload[4..])),
        Err(kind) => Err(view.fault(kind)),
    }
}
