//! Pairs of samples that are the same, passed where both are in hand and the windows show their
//! bytes.
ghost use Rattle.std.specs.Prelude.{◌≡◌, ◌<◌, ◌≤◌, [], drop, IsTrue};
ghost use Rattle.mp4_content.specs.words.ComingLess.{cto_left, lasts_left};
ghost use Rattle.mp4_present.specs.words.InHand.{left_in_hand, Follows};
ghost use Rattle.mp4_present.specs.words.Movies.{IsWalkOf};
ghost use Rattle.mp4_content.specs.words.SamePairs.{indexes_differ, BeginSame, IsSamePair, PassesSame, SaySame, SayTimes};
ghost use Rattle.mp4_content.specs.declared.comparing.differences.Subject.{Subject};

use crate::comparing::movies::Movies;
use crate::comparing::pairing::Pairing;
use crate::comparing::samples::{Sides, index_at};
use crate::file_window::FileWindow;
use crate::without::Word;
use mp4_boxes::Steps;
use mp4_present::InHand;
use mp4_tables::{SampleAt, Samples};
use std::sync::ledger::Ledger;

// Whether samples with these indexes have the same one at each key.
#[inline(never)]
fn have_same_indexes(by: &Pairing, left: [u16; 4], right: [u16; 4]) -> bool
    ensures { IsTrue result → (of : Subject)
        → indexes_differ of by.now.keys.items by.now.left left by.now.right right ≡ [] }
{
    for k in 0..by.keys.len() {
        let key = by.keys[k];
        if index_at(&by.left, left, key) != index_at(&by.right, right, key) {
            return false;
        }
    }
    true
}

// Whether the same is left of the durations of samples with these numbers, and of their composition
// offsets. Never inlined, and of plain numbers: most samples have the same ones, and don't have to
// lie in memory for it.
#[inline(never)]
fn have_same_times_left(
    by: &Pairing,
    number: u32,
    duration: u32,
    cto: i32,
    other: u32,
    other_duration: u32,
    other_cto: i32,
) -> bool
    ensures duration { IsTrue result → lasts_left by.now.left_reduction number duration
        ≡ lasts_left by.now.right_reduction other other_duration }
    ensures offset { IsTrue result → cto_left by.now.left_reduction cto
        ≡ cto_left by.now.right_reduction other_cto }
{
    let lasts = by.left_reduction.duration(number, duration);
    if lasts != by.right_reduction.duration(other, other_duration) {
        return false;
    }
    by.left_reduction.offset(cto) == by.right_reduction.offset(other_cto)
}

// Whether two samples have the same duration and the same composition offset, or these don't count,
// or the same is left of them.
#[inline(always)]
fn have_same_times(by: &Pairing, left: &SampleAt, right: &SampleAt) -> bool
    ensures { IsTrue result → SayTimes by.now left.now right.now }
{
    if by.is_plain && left.duration == right.duration && left.cto == right.cto {
        return true;
    }
    let leaving = by.left_reduction.leaving;
    if leaving.has(Word::Timing) && by.right_reduction.leaving.has(Word::Timing) {
        return true;
    }
    have_same_times_left(
        by,
        left.number,
        left.duration,
        left.cto,
        right.number,
        right.duration,
        right.cto,
    )
}

// Whether two samples say the same, apart from their bytes.
#[inline(always)]
fn say_the_same(by: &Pairing, left: &SampleAt, right: &SampleAt) -> bool
    ensures { IsTrue result → SaySame by.now left.now right.now }
{
    if !have_same_times(by, left, right) {
        return false;
    }
    if by.left_reduction.flags(left.flags) != by.right_reduction.flags(right.flags) {
        return false;
    }
    if left.description != right.description {
        return false;
    }
    if left.size != right.size {
        return false;
    }
    if by.keys.len() == 0 {
        return true;
    }
    have_same_indexes(by, left.groups, right.groups)
}

// Whether two samples say the same, and the windows show their bytes, which are the same.
#[inline(always)]
fn are_same(
    by: &Pairing,
    left: &SampleAt,
    left_window: &FileWindow,
    right: &SampleAt,
    right_window: &FileWindow,
) -> bool
    ensures { IsTrue result
        → IsSamePair by.now left_window.now right_window.now left.now right.now }
{
    if !say_the_same(by, left, right) {
        return false;
    }
    left_window.shows_same(left.at, right_window, right.at, left.size as usize)
}

// Passes pairs of samples that say the same and have the same bytes, as far as the windows show
// them, so many at most, and says how many these are. Each two kinds of samples have their own
// loop.
#[inline(never)]
fn pass_pairs<C: Samples, D: Samples>(
    by: &Pairing,
    left: &mut C,
    left_window: &FileWindow,
    right: &mut D,
    right_window: &FileWindow,
    most: u32,
) -> u32
    ensures most { result ≤ most }
    ensures same { BeginSame by.now left_window.now right_window.now result (C.rest left.old)
        (D.rest right.old) }
    ensures left { C.rest left.new ≡ drop result (C.rest left.old) }
    ensures right { D.rest right.new ≡ drop result (D.rest right.old) }
    ensures later { C.follows left.old left.new }
    ensures right_later { D.follows right.old right.new }
{
    let mut passed = 0;
    while passed < most {
        let Some(x) = left.peek() else {
            break;
        };
        let Some(y) = right.peek() else {
            break;
        };
        if !are_same(by, &x, left_window, &y, right_window) {
            break;
        }
        left.pass(&x);
        right.pass(&y);
        passed += 1;
    }
    passed
}

// The same of what two walks have in hand.
fn pass_in_hand(
    by: &Pairing,
    left: &mut InHand,
    left_window: &FileWindow,
    right: &mut InHand,
    right_window: &FileWindow,
    most: u32,
) -> u32
    ensures most { result ≤ most }
    ensures same { BeginSame by.now left_window.now right_window.now result (left_in_hand left.old)
        (left_in_hand right.old) }
    ensures left { left_in_hand left.new ≡ drop result (left_in_hand left.old) }
    ensures right { left_in_hand right.new ≡ drop result (left_in_hand right.old) }
    ensures later { Follows left.old left.new }
    ensures right_later { Follows right.old right.new }
{
    match left {
        InHand::Tables(x) => match right {
            InHand::Tables(y) => pass_pairs(by, x, left_window, y, right_window, most),
            InHand::Fragment(y) => pass_pairs(by, x, left_window, y, right_window, most),
        },
        InHand::Fragment(x) => match right {
            InHand::Tables(y) => pass_pairs(by, x, left_window, y, right_window, most),
            InHand::Fragment(y) => pass_pairs(by, x, left_window, y, right_window, most),
        },
    }
}

// How many pairs are compared one by one before it is tried again to pass some: more and more of
// them, while none can be passed.
#[derive(Drop)]
pub(crate) struct Pause {
    left: u32,
    len: u32,
}

impl Pause {
    pub(crate) fn new() -> Pause {
        Pause { left: 0, len: 0 }
    }

    // Whether it is to be tried now.
    fn is_over(&mut self) -> bool {
        if self.left > 0 {
            self.left -= 1;
            return false;
        }
        true
    }

    // None were passed.
    fn begin(&mut self) {
        self.left = self.len;
        self.len = self.len.saturating_mul(2).saturating_add(1).min(63);
    }

    // Some were passed.
    fn end(&mut self) {
        self.left = 0;
        self.len = 0;
    }
}

// How many pairs were passed, and whether a side has none left in hand behind these.
#[derive(Clone, Copy)]
pub(crate) struct Passed {
    pub(crate) count: u32,
    pub(crate) is_used_up: bool,
}

// Passes the next pairs of samples in hand that are the same, so many at most. Never inlined: what
// it holds would be made ready where it isn't to be tried, too.
#[inline(never)]
fn pass_now<L: Ledger, M: Ledger>(
    by: &Pairing,
    movies: &Movies,
    sides: &mut Sides,
    most: u32,
    steps: &mut Steps<L, M>,
) -> Passed
    requires left { IsWalkOf movies.now.left sides.old.left.walk }
    requires right { IsWalkOf movies.now.right sides.old.right.walk }
    ensures most { result.count ≤ most }
    ensures passed { PassesSame by.now movies.now.left sides.old.left sides.new.left
        movies.now.right sides.old.right sides.new.right result.count steps.old.passed
        steps.new.passed }
    ensures grows { steps.old.passed ≤ steps.new.passed }
    ensures looks { steps.new.looks ≡ steps.old.looks }
{
    let (count, is_used_up, place, other) = {
        let mut x = sides.left.walk.in_hand(&movies.left);
        let mut y = sides.right.walk.in_hand(&movies.right);
        let first = &sides.left.window;
        let second = &sides.right.window;
        let count = pass_in_hand(by, &mut x, first, &mut y, second, most);
        let is_used_up = x.peek().is_none() || y.peek().is_none();
        (count, is_used_up, x.place(), y.place())
    };
    sides.left.walk.keep(place, steps);
    sides.right.walk.keep(other, steps);
    Passed { count, is_used_up }
}

// The same where the pause is over. A side is used up only where some were passed.
pub(crate) fn pass_same<L: Ledger, M: Ledger>(
    by: &Pairing,
    movies: &Movies,
    sides: &mut Sides,
    most: u32,
    pause: &mut Pause,
    steps: &mut Steps<L, M>,
) -> Passed
    requires left { IsWalkOf movies.now.left sides.old.left.walk }
    requires right { IsWalkOf movies.now.right sides.old.right.walk }
    ensures most { result.count ≤ most }
    ensures some { IsTrue result.is_used_up → 0 < result.count }
    ensures passed { PassesSame by.now movies.now.left sides.old.left sides.new.left
        movies.now.right sides.old.right sides.new.right result.count steps.old.passed
        steps.new.passed }
    ensures grows { steps.old.passed ≤ steps.new.passed }
    ensures looks { steps.new.looks ≡ steps.old.looks }
{
    let none = Passed {
        count: 0,
        is_used_up: false,
    };
    if !pause.is_over() {
        return none;
    }
    let passed = pass_now(by, movies, sides, most, steps);
    if passed.count == 0 {
        pause.begin();
        return none;
    }
    pause.end();
    passed
}
