//! One box of a file in memory.
ghost use Rattle.std.specs.Prelude.{◌≡◌, ◌+◌, ◌^◌, ◌<◌, length};

use crate::fault::{Fault, Kind};
use crate::four_cc::FourCc;

/// A box: its type, where it stands in the file, and the bytes that follow its header.
#[derive(Clone, Copy, Debug)]
pub struct BoxView<'a> {
    kind: FourCc,
    offset: u64,
    header: u8,
    payload: &'a [u8],
    ghost fits: { offset + header + length payload.now < 2 ^ 64 },
}

impl<'a> BoxView<'a> {
    ghost use Rattle.mp4_boxes.specs.format.BoxFaults.{fault_of};
    ghost use Rattle.mp4_boxes.specs.words.View.{box_seen};

    /// A box of this type at this place of the file, with a header of so many bytes.
    pub fn new(kind: FourCc, offset: u64, header: u8, payload: &'a [u8]) -> BoxView<'a>
        requires { offset + header + length payload.now < 2 ^ 64 }
        ensures { box_seen result ≡ record {
          kind = kind.0;
          offset = offset;
          header = header;
          payload = payload.now;
        } }
    {
        BoxView {
            kind,
            offset,
            header,
            payload,
        }
    }

    pub fn kind(&self) -> FourCc
        ensures { result.0 ≡ (box_seen self.now).kind }
    {
        self.kind
    }

    /// The place in the file of the first byte of the header.
    pub fn offset(&self) -> u64
        ensures { result ≡ (box_seen self.now).offset }
    {
        self.offset
    }

    /// The bytes that follow the header.
    pub fn payload(&self) -> &'a [u8]
        ensures { result.now ≡ (box_seen self.now).payload }
    {
        self.payload
    }

    /// The place in the file of the first byte of the payload.
    pub fn payload_offset(&self) -> u64
        ensures { result ≡ (box_seen self.now).offset + (box_seen self.now).header }
    {
        self.offset + u64::from(self.header)
    }
    /// A fault of this kind that names the box.
    pub fn fault(&self, kind: Kind) -> Fault
        ensures { result ≡ fault_of kind (box_seen self.now) }
    {
        Fault::new(kind, self.kind, self.offset)
    }
}
