//! Four-character codes.

/// The type of a box: four bytes, mostly text (ISO/IEC 14496-12, 4.2.2).
#[derive(Clone, Copy, Debug, PartialEq, Eq)]
pub struct FourCc(pub [u8; 4]);

impl FourCc {
    /// What a fault names where the file itself is the container.
    pub const FILE: FourCc = FourCc(*b"file");
}
