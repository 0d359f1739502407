//! A store that reads some bytes with each header, and little of the media data between them.
ghost use Rattle.std.specs.Prelude.{◌≡◌, ◌+◌, ◌≤◌, length, take, drop, IsTrue, OnOk, OnErr, IfOk};
ghost use Rattle.mp4_store.specs.words.Device.{Counts, HasRisen, MayRise, range};

use mp4_store::{Store, StoreFailed};
use std::alloc::{AllocError, Global};
use std::marker::Model;

/// The most bytes that are read at once.
const MOST: usize = 65_536;

/// So many are read with a header.
const FEW: usize = 512;

/// The most bytes of a header, and as many as say which `uuid` a box is.
const SHORT: usize = 16;

// Bytes of a store: the first `len`, from the place `start` on.
#[derive(Drop)]
struct Near {
    bytes: Vec<u8>,
    start: u64,
    len: usize,
}

// So many bytes of room.
fn room(alloc: Global, len: usize) -> Result<Vec<u8>, AllocError>
    ensures { IfOk result (λ bytes. length bytes.items ≡ len) }
{
    vec![in alloc; 0u8; len]
}

// Reads to the front of the room.
fn read_front<S: Store>(
    store: &mut S,
    at: u64,
    room: &mut [u8],
    len: usize,
) -> Result<(), StoreFailed>
    requires place { at + len ≤ length (S.file store.old) }
    requires room { len ≤ length room.old }
    ensures honesty { S.is_honest store.new ≡ S.is_honest store.old }
    ensures file { S.file store.new ≡ S.file store.old }
    ensures bytes { OnOk result (IsTrue (S.is_honest store.old)
        → take len room.new ≡ range (S.file store.old) at len) }
    ensures cause { Counts (S.read_failures store.old) (S.read_failures store.new) result }
{
    store.read_at(at, &mut room[..len])
}

// Reads to the front of room that was taken.
fn read_into<S: Store>(
    store: &mut S,
    at: u64,
    room: &mut Vec<u8>,
    len: usize,
) -> Result<(), StoreFailed>
    requires place { at + len ≤ length (S.file store.old) }
    requires room { len ≤ length room.old.items }
    ensures honesty { S.is_honest store.new ≡ S.is_honest store.old }
    ensures file { S.file store.new ≡ S.file store.old }
    ensures length { length room.new.items ≡ length room.old.items }
    ensures bytes { OnOk result (IsTrue (S.is_honest store.old)
        → take len room.new.items ≡ range (S.file store.old) at len) }
    ensures cause { Counts (S.read_failures store.old) (S.read_failures store.new) result }
{
    read_front(store, at, room.as_mut_slice(), len)
}

// Copies a part of some bytes.
fn copy_part(bytes: &[u8], from: usize, out: &mut [u8])
    requires { from + length out.old ≤ length bytes.now }
    ensures { out.new ≡ take (length out.old) (drop from bytes.now) }
{
    out.copy_from_slice(&bytes[from..from + out.len()]);
}

impl Near {
    ghost use Rattle.std.specs.Prelude.{◌≡◌, ◌+◌, ◌^◌, ◌≤◌, ◌-◌, min, length, List, ℕ, Bool, IsTrue, IfOk};
    ghost use Rattle.mp4_store.specs.words.Device.{MayRise, range};
    ghost use Rattle.mp4norm.specs.words.NearBytes.{IsNearOf, Holds};

    // Nothing is read yet. The room is taken here.
    fn new(alloc: Global) -> Result<Near, AllocError>
        ensures { IfOk result (λ n. (honest : Bool) (file : List ℕ) → IsNearOf honest file n) }
    {
        Ok(Near {
            bytes: room(alloc, MOST)?,
            start: 0,
            len: 0,
        })
    }

    // Where its bytes end.
    fn end(&self) -> u64
        ensures { result ≡ min (self.now.start + self.now.len) (2 ^ 64 - 1) }
    {
        self.start.saturating_add(self.len as u64)
    }

    // Whether it has so many bytes from a place on.
    fn has(&self, at: u64, count: usize) -> bool
        ensures some { IsTrue result → Holds self.now at count }
    {
        let end = self.end();
        self.start <= at && at <= end && count as u64 <= end - at
    }

    // How many bytes are read from a place on: twice as many as it has, where that is among them,
    // at their end or a little in front of them; else few.
    fn ahead(&self, from: u64) -> usize
        ensures { result ≤ 65536 }
    {
        if self.start <= from.saturating_add(FEW as u64) && from <= self.end() {
            self.len.saturating_mul(2).clamp(FEW, MOST)
        } else {
            FEW
        }
    }

    // Reads from a place on. Where that fails it has no bytes.
    fn fill<S: Store>(&mut self, store: &mut S, from: u64)
        requires place { from ≤ length (S.file store.old) }
        requires near { IsNearOf (S.is_honest store.old) (S.file store.old) self.old }
        ensures honesty { S.is_honest store.new ≡ S.is_honest store.old }
        ensures file { S.file store.new ≡ S.file store.old }
        ensures near { IsNearOf (S.is_honest store.old) (S.file store.old) self.new }
        ensures cause { MayRise (S.read_failures store.old) (S.read_failures store.new) }
    {
        let ahead = self.ahead(from);
        let len = (store.len() - from).min(ahead as u64) as usize;
        self.start = from;
        self.len = 0;
        if read_into(store, from, &mut self.bytes, len).is_ok() {
            self.len = len;
        }
    }

    // Gives bytes that it has.
    fn give(&self, at: u64, out: &mut [u8])
        requires within { self.now.len ≤ length self.now.bytes.items }
        requires holds { Holds self.now at (length out.old) }
        ensures { (honest : Bool) (file : List ℕ) → IsNearOf honest file self.now
            → IsTrue honest → out.new ≡ range file at (length out.old) }
    {
        copy_part(self.bytes.as_slice(), (at - self.start) as usize, out);
    }
}

/// A store over another one, with the same bytes, for walks over headers. With each header 512
/// bytes are read, or twice as many as the last time where it lies near those, at most 65,536; what
/// lies among them is given from there. All else is read as it is asked for. So
/// headers near one another cost one read, and of media data between headers little is read. Where
/// reading ahead fails, just the bytes that are asked for are read.
#[derive(Drop)]
pub(crate) struct NearStore<S: Store> {
    store: S,
    near: Near,
    failed: u64,
}

impl<S: Store> Model for NearStore<S> {
    ghost use Rattle.std.specs.Prelude.{ℕ};
    ghost use Rattle.mp4norm.specs.words.NearBytes.{IsNearOf};

    ghost Value = { S × ℕ };

    ghost view = { λ n. (n.store, n.failed) };

    ghost invariant = { λ n. IsNearOf (S.is_honest n.store) (S.file n.store) n.near };
}

impl<S: Store> NearStore<S> {
    ghost use Rattle.std.specs.Prelude.{◌≡◌, ◌+◌, ◌≤◌, length, IsTrue, IfOk};
    ghost use Rattle.mp4_store.specs.words.Device.{MayRise, range};

    /// Nothing is read yet. The room for what is read ahead is taken here.
    pub(crate) fn new(alloc: Global, store: S) -> Result<NearStore<S>, AllocError>
    where
        S: Drop,
        ensures store { IfOk result (λ near. near.0 ≡ store) }
        ensures count { IfOk result (λ near. near.1 ≡ 0) }
    {
        Ok(NearStore {
            store,
            near: Near::new(alloc)?,
            failed: 0,
        })
    }

    /// The store below.
    pub(crate) fn below(&self) -> &S
        ensures { result.now ≡ self.now.0 }
    {
        &self.store
    }

    // Gives bytes that were read with a header; `false` where they weren't.
    fn give(&mut self, at: u64, out: &mut [u8]) -> bool
        ensures same { self.new ≡ self.old }
        ensures bytes { IsTrue result → IsTrue (S.is_honest self.old.0)
            → out.new ≡ range (S.file self.old.0) at (length out.old) }
    {
        if !self.near.has(at, out.len()) {
            return false;
        }
        self.near.give(at, out);
        true
    }

    // Reads from a place on, if a header is asked for.
    fn prepare(&mut self, at: u64, count: usize)
        requires { at + count ≤ length (S.file self.old.0) }
        ensures honesty { S.is_honest self.new.0 ≡ S.is_honest self.old.0 }
        ensures file { S.file self.new.0 ≡ S.file self.old.0 }
        ensures count { self.new.1 ≡ self.old.1 }
        ensures cause { MayRise (S.read_failures self.old.0) (S.read_failures self.new.0) }
    {
        if count <= SHORT {
            self.near.fill(&mut self.store, at);
        }
    }
}

impl<S: Store> Store for NearStore<S> {
    ghost is_honest = { λ s. S.is_honest s.0 };

    ghost file = { λ s. S.file s.0 };

    ghost read_failures = { λ s. s.1 };

    fn len(&self) -> u64 {
        self.store.len()
    }

    // It fails only where a read of the store below did, which that store counted.
    fn read_at(&mut self, at: u64, out: &mut [u8]) -> Result<(), StoreFailed>
        requires { at + length out.old ≤ length (S.file self.old.0) }
        ensures honesty { S.is_honest self.new.0 ≡ S.is_honest self.old.0 }
        ensures file { S.file self.new.0 ≡ S.file self.old.0 }
        ensures read { OnOk result (IsTrue (S.is_honest self.old.0)
            → out.new ≡ range (S.file self.old.0) at (length out.old)) }
        ensures cause { Counts self.old.1 self.new.1 result }
        ensures below { OnErr result
            (HasRisen (S.read_failures self.old.0) (S.read_failures self.new.0)) }
    {
        if self.give(at, out) {
            return Ok(());
        }
        self.prepare(at, out.len());
        if self.give(at, out) {
            return Ok(());
        }
        let answer = self.store.read_at(at, out);
        if answer.is_err() {
            self.failed = self.failed.saturating_add(1);
        }
        answer
    }
}
