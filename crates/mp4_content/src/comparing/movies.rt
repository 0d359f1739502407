//! Two opened files that are compared.
use mp4_present::Movie;

/// What was kept of two files when they were opened.
#[derive(Drop)]
pub struct Movies {
    /// Of the first file.
    pub left: Movie,
    /// Of the second one.
    pub right: Movie,
}
