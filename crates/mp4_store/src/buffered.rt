//! A store that reads ahead, so that headers that lie near one another cost one read.
ghost use Rattle.std.specs.Prelude.{◌≡◌, ◌+◌, ◌≤◌, length, take, drop, IsTrue, OnOk, OnErr, IfOk};
ghost use Rattle.mp4_store.specs.words.Device.{Counts, range, HasRisen, MayRise};

use crate::store::{Store, StoreFailed};
use std::alloc::{AllocError, Global};
use std::marker::Model;
use std::mem::swap;

/// The most bytes that are read ahead.
const MOST: usize = 65_536;

/// So many are read ahead at first. A read of the store costs about as much as so many bytes more.
const FEW: usize = 4096;

/// The most bytes of a header.
const HEADER: usize = 16;

/// A header is near bytes that were read ahead if it lies in front of them or behind them by no
/// more than this, or by no more than were read ahead.
const NEAR: usize = 16_384;

/// Other reads go on from such bytes where they begin behind them by no more than this.
const GAP: usize = 4096;

/// And they go back from them where they end in front of them by no more than this.
const GAP_BACK: usize = 1024;

/// A read is short where it is at most this part of what would be read ahead. Where reads go back,
/// this part of what is read ahead lies in front.
const SHARE: usize = 4;

// How a read follows those from a window.
#[derive(Clone, Copy)]
enum ReadWay {
    On,
    Back,
    Elsewhere,
}

// Bytes of a store that were read ahead: the first `len`, from the place `start` on. Without bytes,
// what was read last ends at `start`. `used` counts the bytes of reads that were answered from
// them, or went on to there, and 4096 for each such read. The room is taken once, apart from the
// stack.
#[derive(Drop)]
struct Window {
    bytes: Vec<u8>,
    start: u64,
    len: usize,
    used: usize,
}

// So many bytes of room.
fn room(alloc: Global, len: usize) -> Result<Vec<u8>, AllocError>
    ensures { IfOk result (λ bytes. length bytes.items ≡ len) }
{
    vec![in alloc; 0u8; len]
}

// Reads to the front of the room.
fn read_front<S: Store>(
    store: &mut S,
    at: u64,
    room: &mut [u8],
    len: usize,
) -> Result<(), StoreFailed>
    requires place { at + len ≤ length (S.file store.old) }
    requires room { len ≤ length room.old }
    ensures honesty { S.is_honest store.new ≡ S.is_honest store.old }
    ensures file { S.file store.new ≡ S.file store.old }
    ensures bytes { OnOk result (IsTrue (S.is_honest store.old)
        → take len room.new ≡ range (S.file store.old) at len) }
    ensures cause { Counts (S.read_failures store.old) (S.read_failures store.new) result }
{
    store.read_at(at, &mut room[..len])
}

// Reads to the front of room that was taken.
fn read_into<S: Store>(
    store: &mut S,
    at: u64,
    room: &mut Vec<u8>,
    len: usize,
) -> Result<(), StoreFailed>
    requires place { at + len ≤ length (S.file store.old) }
    requires room { len ≤ length room.old.items }
    ensures honesty { S.is_honest store.new ≡ S.is_honest store.old }
    ensures file { S.file store.new ≡ S.file store.old }
    ensures length { length room.new.items ≡ length room.old.items }
    ensures bytes { OnOk result (IsTrue (S.is_honest store.old)
        → take len room.new.items ≡ range (S.file store.old) at len) }
    ensures cause { Counts (S.read_failures store.old) (S.read_failures store.new) result }
{
    read_front(store, at, room.as_mut_slice(), len)
}

// Copies a part of some bytes.
fn copy_part(bytes: &[u8], from: usize, out: &mut [u8])
    requires { from + length out.old ≤ length bytes.now }
    ensures { out.new ≡ take (length out.old) (drop from bytes.now) }
{
    out.copy_from_slice(&bytes[from..from + out.len()]);
}

impl Window {
    ghost use Rattle.std.specs.Prelude.{◌≡◌, ◌+◌, ◌^◌, ◌<◌, ◌≤◌, ◌-◌, min, length, List, ℕ, Bool, IsTrue, OnOk, IfOk};
    ghost use Rattle.mp4_store.specs.words.Device.{Counts, range, MayRise};
    ghost use Rattle.mp4_store.specs.words.Windows.{IsWindowOf, Holds};

    // Nothing is read yet. The room is taken here.
    fn new(alloc: Global) -> Result<Window, AllocError>
        ensures { IfOk result (λ w. (honest : Bool) (file : List ℕ) → IsWindowOf honest file w) }
    {
        Ok(Window {
            bytes: room(alloc, MOST)?,
            start: 0,
            len: 0,
            used: 0,
        })
    }

    // Where its bytes end.
    fn end(&self) -> u64
        ensures { result ≡ min (self.now.start + self.now.len) (2 ^ 64 - 1) }
    {
        self.start.saturating_add(self.len as u64)
    }

    // Whether it has so many bytes from a place on.
    fn has(&self, at: u64, count: usize) -> bool
        ensures some { IsTrue result → Holds self.now at count }
        ensures all { self.now.start + self.now.len < 2 ^ 64 → Holds self.now at count
            → IsTrue result }
    {
        let end = self.end();
        self.start <= at && at <= end && count as u64 <= end - at
    }

    // How a read of so many bytes from a place on follows those that were answered from it.
    fn way(&self, at: u64, count: usize) -> ReadWay {
        let near = self.len.max(NEAR);
        let (on, back) = if count <= HEADER {
            (near, near)
        } else {
            (GAP, GAP_BACK)
        };
        if at >= self.start && at <= self.end().saturating_add(on as u64) {
            ReadWay::On
        } else if at < self.start && self.start - at <= count.saturating_add(back) as u64 {
            ReadWay::Back
        } else {
            ReadWay::Elsewhere
        }
    }

    // How many bytes are read ahead for a read of so many: twice as many as were used, where it
    // follows; few for a header elsewhere; else none.
    fn ahead(&self, way: ReadWay, count: usize) -> usize
        ensures { result ≤ 65536 }
    {
        match way {
            ReadWay::On | ReadWay::Back => self.used.saturating_mul(2).clamp(FEW, MOST),
            ReadWay::Elsewhere if count <= HEADER => FEW,
            ReadWay::Elsewhere => 0,
        }
    }

    // Reads so many bytes ahead from a place on. After `Err` it has no bytes.
    fn fill<S: Store>(&mut self, store: &mut S, from: u64, ahead: usize) -> Result<(), StoreFailed>
        requires place { from ≤ length (S.file store.old) }
        requires ahead { ahead ≤ 65536 }
        requires room { length self.old.bytes.items ≡ 65536 }
        ensures honesty { S.is_honest store.new ≡ S.is_honest store.old }
        ensures file { S.file store.new ≡ S.file store.old }
        ensures window { IsWindowOf (S.is_honest store.old) (S.file store.old) self.new }
        ensures start { self.new.start ≡ from }
        ensures len { OnOk result (self.new.len ≡ min ahead (length (S.file store.old) - from)) }
        ensures cause { Counts (S.read_failures store.old) (S.read_failures store.new) result }
    {
        let len = (store.len() - from).min(ahead as u64) as usize;
        self.start = from;
        self.len = 0;
        self.used = 0;
        read_into(store, from, &mut self.bytes, len)?;
        self.len = len;
        Ok(())
    }

    // Notes where a read ends that nothing was read ahead for.
    fn note(&mut self, way: ReadWay, at: u64, count: usize)
        ensures bytes { self.new.bytes ≡ self.old.bytes }
        ensures start { self.new.start ≤ at + count }
        ensures len { self.new.len ≡ 0 }
    {
        self.used = match way {
            ReadWay::On | ReadWay::Back => self.used_with(count),
            ReadWay::Elsewhere => 0,
        };
        self.start = at.saturating_add(count as u64);
        self.len = 0;
    }

    // Reads ahead for so many bytes from a place on, where that is more than they are by so much
    // that it pays; else notes where they end, if that is no more than a window could pay for.
    fn prepare<S: Store>(&mut self, store: &mut S, way: ReadWay, at: u64, count: usize)
        requires place { at + count ≤ length (S.file store.old) }
        requires window { IsWindowOf (S.is_honest store.old) (S.file store.old) self.old }
        ensures honesty { S.is_honest store.new ≡ S.is_honest store.old }
        ensures file { S.file store.new ≡ S.file store.old }
        ensures window { IsWindowOf (S.is_honest store.old) (S.file store.old) self.new }
        ensures cause { MayRise (S.read_failures store.old) (S.read_failures store.new) }
    {
        let ahead = self.ahead(way, count);
        if count <= ahead / SHARE {
            let front = match way {
                ReadWay::Back => ahead / SHARE,
                ReadWay::On | ReadWay::Elsewhere => 0,
            };
            let _ = self.fill(store, at.saturating_sub(front as u64), ahead);
        } else if count <= MOST / SHARE {
            self.note(way, at, count);
        }
    }

    // What is used with one more read of so many bytes.
    fn used_with(&self, count: usize) -> usize {
        self.used.saturating_add(count).saturating_add(FEW)
    }

    // Gives bytes that it has.
    fn give(&mut self, at: u64, out: &mut [u8])
        requires within { self.old.len ≤ length self.old.bytes.items }
        requires holds { Holds self.old at (length out.old) }
        ensures window { (self.new.bytes ≡ self.old.bytes) × (self.new.start ≡ self.old.start)
            × (self.new.len ≡ self.old.len) }
        ensures bytes { (honest : Bool) (file : List ℕ) → IsWindowOf honest file self.old
            → IsTrue honest → out.new ≡ range file at (length out.old) }
    {
        copy_part(self.bytes.as_slice(), (at - self.start) as usize, out);
        self.used = self.used_with(out.len());
    }
}

/// A store over another one, with the same bytes. It has two windows, so that headers and data may
/// be read by turns. A short read that follows those from one, or a header near its bytes, reads
/// ahead: twice as many bytes as were used of it, where each read counts for 4096 more; at least
/// 4096 and at most 65,536. A header elsewhere reads 4096. A read is short if that is at least four
/// times as much. Where reads go back, a fourth of this lies in front of them. Each read whose
/// bytes are in a window is answered from it; all others go to the store below. So what is read
/// below is at most three times what is asked for and 12,288 bytes for each read. Where reading
/// ahead fails, just the bytes that are asked for are read.
#[derive(Drop)]
pub struct BufferedStore<S: Store> {
    store: S,
    // Bytes were given from this window last.
    window: Window,
    other: Window,
    failed: u64,
}

impl<S: Store> Model for BufferedStore<S> {
    ghost use Rattle.std.specs.Prelude.{ℕ};
    ghost use Rattle.mp4_store.specs.words.Windows.{IsWindowOf};

    ghost Value = { S × ℕ };

    ghost view = { λ b. (b.store, b.failed) };

    ghost invariant = { λ b. IsWindowOf (S.is_honest b.store) (S.file b.store) b.window
        × IsWindowOf (S.is_honest b.store) (S.file b.store) b.other };
}

impl<S: Store> BufferedStore<S> {
    ghost use Rattle.std.specs.Prelude.{◌≡◌, ◌+◌, ◌≤◌, length, IsTrue, IfOk};
    ghost use Rattle.mp4_store.specs.words.Device.{range, MayRise};

    /// Nothing is read yet. The room for what is read ahead is taken here.
    pub fn new(alloc: Global, store: S) -> Result<BufferedStore<S>, AllocError>
    where
        S: Drop,
        ensures store { IfOk result (λ buffered. buffered.0 ≡ store) }
        ensures count { IfOk result (λ buffered. buffered.1 ≡ 0) }
    {
        let window = Window::new(alloc)?;
        let other = Window::new(alloc)?;
        Ok(BufferedStore {
            store,
            window,
            other,
            failed: 0,
        })
    }

    /// The store below.
    pub fn below(&self) -> &S
        ensures { result.now ≡ self.now.0 }
    {
        &self.store
    }

    // Gives bytes that a window has; `false` where none has them.
    fn give(&mut self, at: u64, out: &mut [u8]) -> bool
        ensures same { self.new ≡ self.old }
        ensures bytes { IsTrue result → IsTrue (S.is_honest self.old.0)
            → out.new ≡ range (S.file self.old.0) at (length out.old) }
    {
        if !self.window.has(at, out.len()) {
            if !self.other.has(at, out.len()) {
                return false;
            }
            swap(&mut self.window, &mut self.other);
        }
        self.window.give(at, out);
        true
    }

    // The window that gave bytes last reads ahead where a read goes on from it, else the other one;
    // so going back leaves the bytes to which reads may come again.
    fn prepare(&mut self, at: u64, count: usize)
        requires { at + count ≤ length (S.file self.old.0) }
        ensures honesty { S.is_honest self.new.0 ≡ S.is_honest self.old.0 }
        ensures file { S.file self.new.0 ≡ S.file self.old.0 }
        ensures count { self.new.1 ≡ self.old.1 }
        ensures cause { MayRise (S.read_failures self.old.0) (S.read_failures self.new.0) }
    {
        match self.window.way(at, count) {
            ReadWay::On => self.window.prepare(&mut self.store, ReadWay::On, at, count),
            ReadWay::Back => {
                self.other.used = self.window.used;
                self.window.used = 0;
                self.other
                    .prepare(&mut self.store, ReadWay::Back, at, count);
            }
            ReadWay::Elsewhere => {
                let way = self.other.way(at, count);
                self.other.prepare(&mut self.store, way, at, count);
            }
        }
    }
}

impl<S: Store> Store for BufferedStore<S> {
    ghost is_honest = { λ s. S.is_honest s.0 };

    ghost file = { λ s. S.file s.0 };

    ghost read_failures = { λ s. s.1 };

    fn len(&self) -> u64 {
        self.store.len()
    }

    // It fails only where a read of the store below did, which that store counted.
    fn read_at(&mut self, at: u64, out: &mut [u8]) -> Result<(), StoreFailed>
        requires { at + length out.old ≤ length (S.file self.old.0) }
        ensures honesty { S.is_honest self.new.0 ≡ S.is_honest self.old.0 }
        ensures file { S.file self.new.0 ≡ S.file self.old.0 }
        ensures read { OnOk result (IsTrue (S.is_honest self.old.0)
            → out.new ≡ range (S.file self.old.0) at (length out.old)) }
        ensures cause { Counts self.old.1 self.new.1 result }
        ensures below { OnErr result
            (HasRisen (S.read_failures self.old.0) (S.read_failures self.new.0)) }
    {
        if self.give(at, out) {
            return Ok(());
        }
        self.prepare(at, out.len());
        if self.give(at, out) {
            return Ok(());
        }
        let answer = self.store.read_at(at, out);
        if answer.is_err() {
            self.failed = self.failed.saturating_add(1);
        }
        answer
    }
}
