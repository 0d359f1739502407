//! Counters of work that take no bytes at run time: what a contract on work speaks of.
ghost use Rattle.std.specs.Prelude.{◌≡◌, ◌+◌, ◌<◌};

use std::marker::Model;
use std::sync::ledger::{Blank, Book, Ledger, Share};

/// Leave to read one row of a table. It takes no bytes, and is spent by the reading. One comes with
/// each step that is counted; a cursor makes its own (`of_place`), so that a loop reads one row for
/// a step is said by its clause, or seen by reading it.
#[derive(Drop)]
pub struct Ticket {
    counted: (),
}

impl Ticket {
    /// For a cursor: its place counts the rows that it passes.
    #[inline(always)]
    pub fn of_place() -> Ticket {
        Ticket { counted: () }
    }
}

/// A count that takes no bytes at run time; only `tick` and `add` change it.
#[derive(Drop)]
pub struct Count<L: Ledger> {
    book: Book<L>,
    share: Share<L>,
}

impl<L: Ledger> Model for Count<L> {
    ghost use Rattle.std.specs.Prelude.{ℕ, ◌<◌};

    ghost Value = { ℕ };

    ghost view = { λ s. s.book.total };

    ghost invariant = { λ s. 0 < s.share.parts };
}

impl<L: Ledger> Count<L> {
    /// Nothing was counted yet.
    pub fn new(blank: Blank) -> Count<L>
        requires name { blank.name ≡ L.name }
        requires parts { blank.parts ≡ L.parts }
        requires some { 0 < L.parts }
        ensures none { result ≡ 0 }
    {
        let (book, share) = blank.open();
        Count { book, share }
    }

    /// One more, and leave to read one row for it.
    pub fn tick(&mut self) -> Ticket
        ensures one_more { self.new ≡ self.old + 1 }
    {
        self.book.add(&mut self.share, 1);
        Ticket { counted: () }
    }

    /// So many more at once.
    pub fn add(&mut self, steps: u64)
        ensures more { self.new ≡ self.old + steps }
    {
        self.book.add(&mut self.share, steps);
    }
}

/// What a call did, by two counts. It takes no bytes at run time.
#[derive(Drop)]
pub struct Steps<L: Ledger, M: Ledger> {
    /// The steps: each passes a row of a table, a `traf`, a run or a sample.
    pub passed: Count<L>,
    /// The looks: each finds a track by its ID, or is a turn of a writer.
    pub looks: Count<M>,
}

impl<L: Ledger, M: Ledger> Steps<L, M> {
    /// No step was taken yet, and no look.
    pub fn new(steps: Blank, looks: Blank) -> Steps<L, M>
        requires names { (steps.name ≡ L.name) × (looks.name ≡ M.name) }
        requires parts { (steps.parts ≡ L.parts) × (looks.parts ≡ M.parts) }
        requires some { (0 < L.parts) × (0 < M.parts) }
        ensures none { (result.passed ≡ 0) × (result.looks ≡ 0) }
    {
        Steps {
            passed: Count::new(steps),
            looks: Count::new(looks),
        }
    }

    /// One more step, and leave to read one row for it.
    pub fn tick(&mut self) -> Ticket
        ensures one_more { self.new.passed ≡ self.old.passed + 1 }
        ensures looks { self.new.looks ≡ self.old.looks }
    {
        self.passed.tick()
    }

    /// So many more steps at once.
    pub fn add(&mut self, steps: u64)
        ensures more { self.new.passed ≡ self.old.passed + steps }
        ensures looks { self.new.looks ≡ self.old.looks }
    {
        self.passed.add(steps);
    }

    /// One more look.
    pub fn look(&mut self)
        ensures one_more { self.new.looks ≡ self.old.looks + 1 }
        ensures passed { self.new.passed ≡ self.old.passed }
    {
        let _leave = self.looks.tick();
    }
}
