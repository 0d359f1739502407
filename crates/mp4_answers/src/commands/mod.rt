//! What each command does over a store, and what commands share.

pub mod answer_len;
pub mod box_fields;
pub mod box_headers;
pub mod box_path;
pub mod boxes;
pub mod check;
pub mod compare;
pub mod extract;
pub mod forms;
pub mod freed_boxes;
pub mod guesses;
pub mod hash_sink;
pub mod normalise;
pub mod normalise_reduced;
pub mod opening;
pub mod perform;
pub mod print;
pub mod sample_messages;
pub mod samples;
pub mod show;
pub mod strip;
pub mod strip_lines;
pub mod stripped_store;
pub mod sum;
pub mod tracks;
