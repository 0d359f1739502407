//! The answers of `mp4norm` as a library: the normal form of a file, its boxes, what it denotes as
//! one line, the samples of a track, their bytes, its text and sum, a copy without some boxes; and
//! whether two files say the same. Each is a function of stores and sinks. None knows the name of a
//! file, a word of a command line or a terminal.
//!
//! - [`normalise`], [`show`], [`samples`], [`extract`], [`print`], [`boxes`], [`strip`] put their
//!   text to a sink; [`check`] puts none. [`perform`] does any of these jobs ([`Job`]), and
//!   [`text_len`] says how long its text gets.
//! - [`sum_file`] gives the SHA-256 of a normal form; [`compare_files`] says where two files
//!   differ.
//! - [`fault_line`] and [`status`] are what is said of a refusal, [`put_verdict`] of each of many
//!   files. [`laws`], [`answer_laws`] and [`text_laws`] say how answers hang together.
//!
//! Commands call texts, and both call what stands beside them here; nothing calls back.
//!
//! ```rust
//! use mp4_answers::{check, fault_line, normalise, show, status};
//! use mp4_store::{MemSink, MemStore};
//!
//! // A movie without tracks, of 25 ticks a second: `moov` with an `mvhd` of version 0.
//! let mut bytes = [0; 116];
//! bytes[..16].copy_from_slice(b"\0\0\0\x74moov\0\0\0\x6Cmvhd");
//! bytes[31] = 25;
//! let mut store = MemStore::new(&bytes);
//! let mut line = MemSink::new(rt.alloc());
//! show(rt.alloc(), &mut store, &mut line)?;
//! assert_eq!(rt; line.bytes(), b"{\"mehd\":0,\"timescale\":25,\"tracks\":[]}\n".as_slice());
//! let mut form = MemSink::new(rt.alloc());
//! normalise(rt.alloc(), &mut store, &mut form)?;
//! assert_eq!(rt; form.bytes().len(), 180);
//! let answer = check(rt.alloc(), &mut MemStore::new(&bytes[..115]));
//! assert!(rt; answer.is_err());
//! if let Err(refusal) = answer {
//!     let due = b"refused: Overrun in moov at 0";
//!     assert_eq!(rt; fault_line(&refusal).as_bytes(), due.as_slice());
//!     assert_eq!(rt; status(&refusal), 1);
//! }
//! ```
#![tactic(auto)]

pub mod answer_laws;
pub mod box_names;
pub mod commands;
pub mod digests;
pub mod jobs;
pub mod laws;
pub mod layouts;
pub mod selection;
pub mod text;
pub mod text_laws;
pub mod without_words;

pub use box_names::Name;
pub use commands::answer_len::text_len;
pub use commands::box_path::{Way, WayBox, way_to};
pub use commands::boxes::{boxes, boxes_as, boxes_with_fields};
pub use commands::check::{check, check_counted};
pub use commands::compare::{Asked, Failure, LineForm, Lines, Listing, Side, compare_files};
pub use commands::extract::{extract, extract_counted};
pub use commands::normalise::{normalise, normalise_counted};
pub use commands::normalise_reduced::normalise_reduced;
pub use commands::perform::perform;
pub use commands::print::print;
pub use commands::samples::{samples, samples_as, samples_counted};
pub use commands::show::{show, show_counted};
pub use commands::strip::{count_named, strip};
pub use commands::sum::{sum_bytes, sum_file};
pub use jobs::{BoxForm, Form, Job, Syntax, VerdictStyle};
pub use selection::Selection;
pub use text::difference_lines::say_difference;
pub use text::fault_text::{fault_line, status};
pub use text::line::Line;
pub use text::movie_json::show_text;
pub use text::sample_lines::put_lines;
pub use text::verdicts::{put_verdict, verdict_status};
