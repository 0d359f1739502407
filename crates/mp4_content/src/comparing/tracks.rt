//! Two tracks that are compared.
use crate::comparing::movies::Movies;
use crate::without::Without;
use mp4_head::TrackHead;

// By what the times of two tracks are divided.
#[derive(Clone, Copy)]
pub(crate) struct Divisors {
    pub(crate) left: u64,
    pub(crate) right: u64,
}

// The tracks at one place in both movies, what is left out of both, and by what their times are
// divided.
#[derive(Clone, Copy)]
pub(crate) struct Tracks<'a> {
    pub(crate) movies: &'a Movies,
    pub(crate) place: usize,
    pub(crate) leaving: Without,
    pub(crate) divisors: Divisors,
}

// What is left of their heads.
#[derive(Clone, Copy)]
pub(crate) struct Heads<'a, 'b, 'c> {
    pub(crate) left: &'a TrackHead<'b>,
    pub(crate) right: &'a TrackHead<'c>,
}
