//! Texts of answers: lines, objects of JSON, digits.

pub mod aligned_lines;
pub mod box_json;
pub mod cutting;
pub mod difference_json;
pub mod difference_lines;
pub mod digits;
pub mod fault_text;
pub mod field_lines;
pub mod head_lines;
pub mod json_text;
pub mod line;
pub mod line_block;
pub mod line_cache;
pub mod movie_json;
pub mod named_lines;
pub mod new_names;
pub mod payload_lines;
pub mod plain_names;
pub mod sample_lines;
pub mod sample_texts;
pub mod sum_lines;
pub mod tally;
pub mod text_parts;
pub mod timed_lines;
pub mod type_names;
pub mod verdicts;
