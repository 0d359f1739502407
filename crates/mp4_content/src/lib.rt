//! What is left of a presentation where something of it doesn't count, and in what two of them
//! differ (ISO/IEC 14496-12, 8.1 to 8.9).
//!
//! - [`Without`] is a set of [`Word`]s, which say what of a presentation doesn't count
//!   ([`reduced_laws`], [`covering_laws`]).
//! - [`compare`] names the first [`Difference`] between two opened files, the two [`Movies`], and
//!   when its sample is decoded; [`compare_all`] hands each to a [`Differences`]
//!   ([`comparing_laws`], [`complete_laws`]).
//! - [`align`] says of each two tracks whose samples are not the same how many of them are the same
//!   in front and at the end, an [`Alignment`], and what stands [`Between`] ([`aligning_laws`]).
//!   [`compare_listed`] leaves out the samples that it tells of.
//! - [`Content`] is what is left of an opened movie: what is left of each track in numbers, its
//!   [`TrackLeft`], and what its samples are left by, its [`Reduction`]; how long all of it is, and
//!   its head. Without edits, ends or origins a track may have no normal form, which is a fault.
//! - [`Reduced`] hands out what is left of samples, one after the other; [`reduced_sample`] is that
//!   of one. [`head_left`] is what is left of a head, [`payloads_left`] that of its payloads, in
//!   memory of their own.
//! - [`Scales`] says by what times are divided where timescales are left out ([`remaining_laws`]).
//! - [`waits`] says how long each track of a movie waits, which is all that is left of how tracks
//!   begin where lead-ins are left out ([`lead_ins_laws`]).
//! - [`reduction_of`] says what samples of a track are left by; [`peek_sample`] looks at the next
//!   sample.
//!
//! A comparison holds two windows of at most 65,536 bytes, a walk over a track of each file, and
//! what is left of both heads. A content holds some 80 bytes a track.
//!
//! ```rust
//! use mp4_boxes::Steps;
//! use mp4_content::{Field, Movies, Without, Word, compare};
//! use mp4_present::open_movie;
//! use mp4_store::MemStore;
//!
//! // A movie without tracks, of 25 ticks a second: `moov` with an `mvhd` of version 0.
//! let mut bytes = [0; 116];
//! bytes[..16].copy_from_slice(b"\0\0\0\x74moov\0\0\0\x6Cmvhd");
//! bytes[31] = 25;
//! let mut other = bytes;
//! other[27] = 1; // made a second later
//! let (mut left, mut right) = (MemStore::new(&bytes), MemStore::new(&other));
//! let mut steps = Steps::<Brand, Brand>::new(Blank::new(1), Blank::new(1));
//! let movies = Movies {
//!     left: open_movie(rt.alloc(), &mut left, &mut steps)?,
//!     right: open_movie(rt.alloc(), &mut right, &mut steps)?,
//! };
//! let all = Without::NOTHING;
//! let times = Without::each(|word| word == Word::Times);
//! let first = compare(rt.alloc(), &movies, &mut left, &mut right, all, &mut steps)?;
//! assert_eq!(rt; first.map(|found| found.difference.field), Some(Field::Modification));
//! let first = compare(rt.alloc(), &movies, &mut left, &mut right, times, &mut steps)?;
//! assert_eq!(rt; first, None);
//! ```
#![tactic(auto)]

mod aligning;
pub mod aligning_laws;
mod bit_rates;
mod common_ends;
mod comparing;
pub mod comparing_laws;
pub mod complete_laws;
mod content;
pub mod covering_laws;
mod delays;
mod file_window;
mod lead_ins;
pub mod lead_ins_laws;
mod measures;
mod own_payloads;
mod peeking;
mod reduced;
mod reduced_head;
pub mod reduced_laws;
mod reduced_lengths;
pub mod remaining_laws;
mod scales;
pub mod timescales_laws;
mod tracks_left;
mod without;

pub use aligning::{Alignment, Between, align};
pub use comparing::differences::{
    DecodeTime, Difference, Differences, Entries, Field, Part, Subject, Value,
};
pub use comparing::movies::Movies;
pub use comparing::{Found, compare, compare_all, compare_listed};
pub use content::Content;
pub use lead_ins::waits;
pub use measures::reduction_of;
pub use own_payloads::{BoxLeft, MediaLeft, payloads_left};
pub use peeking::peek_sample;
pub use reduced::{Reduced, Reduction, reduced_sample};
pub use reduced_head::head_left;
pub use scales::Scales;
pub use tracks_left::TrackLeft;
pub use without::{Without, Word};
