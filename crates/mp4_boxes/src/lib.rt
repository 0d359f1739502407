//! Boxes: their headers, how they lie in a container, which of them may stand where, and the
//! faults of a file (ISO/IEC 14496-12, 4.2, 6.2.2 and the syntax of each box in clause 8).
//!
//! - [`top_header`] reads the header of a box of the file itself, 8 or 16 bytes, [`box_header`] one
//!   in any container; [`BoxView`] is a box with its payload in memory, borrowed.
//! - [`children`] lists the boxes in a payload where they lie end to end; [`check_children`] also
//!   asks whether each may stand there, and how often ([`Rule`] is the table of containers).
//! - [`full`] and [`front`] read version and flags, [`u32_at`] and its kin the numbers behind them.
//! - [`Fault`] is what a file is refused for: a kind, a box type, a place in the file. [`Refusal`]
//!   is each reason for which a command has no answer. Both are errors as std has them, and print
//!   as the program's lines do.
//! - [`Steps`] counts work in contracts, and takes no bytes in the program; each step gives a
//!   [`Ticket`] to read one row of a table.
//!
//! Nothing here takes memory, reads a device, or panics. To list or to check children is one pass
//! over their headers; payloads aren't looked at.
//!
//! ```rust
//! use mp4_boxes::{BoxView, Fault, FourCc, Kind, Rule, check_children, top_header};
//!
//! // A `moov` of 16 bytes with an empty `free` box in it, at place 100 of a file of 116 bytes.
//! let bytes = *b"\0\0\0\x10moov\0\0\0\x08free";
//! let header = top_header(&bytes, 100, 16)?;
//! assert_eq!(rt; header.kind, FourCc(*b"moov"));
//! assert_eq!(rt; header.end, 116);
//!
//! // The header of a child needs 8 bytes, and 4 are left.
//! let moov = BoxView::new(FourCc(*b"moov"), 100, 8, &bytes[8..12]);
//! let fault = Fault::new(Kind::ShortHeader, FourCc(*b"moov"), 108);
//! assert_eq!(rt; check_children(moov, Rule::Movie).err(), Some(fault));
//! let text = format!(in rt.alloc(); "{fault}")?;
//! assert_eq!(rt; text.as_str(), "ShortHeader in moov at 108");
//! ```
#![tactic(auto)]

mod fault;
mod four_cc;
mod full_boxes;
mod headers;
pub mod laws;
mod listing;
mod numbers;
mod refusal;
mod rule;
mod sequence;
mod spelling;
mod steps;
mod texts;
mod view;
mod writing;

pub use fault::{Fault, Kind};
pub use four_cc::FourCc;
pub use full_boxes::{front, full};
pub use headers::{TopHeader, box_header, top_header};
pub use listing::{check_children, children, counted};
pub use numbers::{i32_at, i64_at, u16_at, u32_at, u64_at};
pub use refusal::{Memory, Refusal};
pub use rule::Rule;
pub use sequence::Children;
pub use spelling::Header;
pub use steps::{Count, Steps, Ticket};
pub use view::BoxView;
pub use writing::header;
