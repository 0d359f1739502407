//! Box headers, written: of 8 bytes, or of 16 where 32 bits do not hold the size (ISO/IEC 14496-12,
//! 4.2.2).
ghost use Rattle.std.specs.Prelude.{◌≡◌, ◌+◌, ◌^◌, ◌<◌};
ghost use Rattle.mp4_boxes.specs.format.Written.{header_bytes};

use crate::four_cc::FourCc;
use crate::spelling::Header;
use byteorder::{BigEndian, ByteOrder};

/// The header of a box of this type with so many bytes of payload.
pub fn header(kind: FourCc, payload: u64) -> Header
    requires { payload + 16 < 2 ^ 64 }
    ensures { result ≡ header_bytes kind.0 payload }
{
    let mut bytes = [0; 16];
    if let Ok(size) = u32::try_from(payload + 8) {
        BigEndian::write_u32(&mut bytes, size);
        bytes[4..8].copy_from_slice(&kind.0);
        return Header { bytes, len: 8 };
    }
    BigEndian::write_u32(&mut bytes, 1);
    bytes[4..8].copy_from_slice(&kind.0);
    BigEndian::write_u64(&mut bytes[8..16], payload + 16);
    Header { bytes, len: 16 }
}
