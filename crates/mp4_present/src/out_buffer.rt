//! Bytes on their way to a sink, through one buffer.
ghost use Rattle.std.specs.Prelude.{◌≡◌, ◌+◌, ◌<◌, ◌≤◌, ◌++◌, length, take, vec_len, OnOk};
ghost use Rattle.mp4_store.specs.words.Device.{range};
ghost use Rattle.mp4_present.specs.words.StoresRead.{OnlyReads, Refused, WhereHonest};
ghost use Rattle.mp4_present.specs.words.Reading.{RefusesFront};

use crate::walking::stretches::Stretch;
use mp4_boxes::Refusal;
use mp4_store::{Sink, Store};
use std::alloc::{AllocError, Global};

/// A buffer in which bytes wait for a sink; it is put when it is full, and no sooner.
#[derive(Drop)]
pub struct OutBuffer {
    buffer: Vec<u8>,
    used: usize,
    ghost some: { 0 < vec_len buffer },
    ghost within: { used ≤ vec_len buffer },
}

// Copies bytes to a place of a buffer, of which the length stays.
fn copy_in(buffer: &mut [u8], at: usize, bytes: &[u8])
    requires { at + length bytes.now ≤ length buffer.old }
    ensures { take (at + length bytes.now) buffer.new ≡ take at buffer.old ++ bytes.now }
{
    buffer[at..at + bytes.len()].copy_from_slice(bytes);
}

// Reads to a place of a buffer, of which the length stays.
fn read_in<S: Store>(
    store: &mut S,
    from: u64,
    buffer: &mut [u8],
    at: usize,
    len: usize,
) -> Result<(), Refusal>
    requires place { from + len ≤ length (S.file store.old) }
    requires room { at + len ≤ length buffer.old }
    ensures store { OnlyReads S.Store store.old store.new result }
    ensures bytes { OnOk result (WhereHonest S.Store store.old (λ file.
        take (at + len) buffer.new ≡ take at buffer.old ++ range file from len)) }
    ensures front { take at buffer.new ≡ take at buffer.old }
    ensures refusal { Refused S.Store store.old store.new result RefusesFront }
{
    store.read_at(from, &mut buffer[at..at + len])?;
    Ok(())
}

impl OutBuffer {
    ghost use Rattle.std.specs.Prelude.{◌≡◌, ◌+◌, ◌<◌, ◌≤◌, [], ◌++◌, length, vec_len, IfOk, OnOk, OnErr};
    ghost use Rattle.mp4_store.specs.words.Device.{TakesPrefix, range};
    ghost use Rattle.mp4_present.specs.words.Carried.{waiting, WaitsMore, RefusesRange, RefusesStretch};
    ghost use Rattle.mp4_present.specs.words.HandCarried.{RefusedByBoth};
    ghost use Rattle.mp4_present.specs.words.OutBuffers.{Carries, HasRoomFor, OnlyCopies, OnlyPuts, PutsFrontOf, RefusedByPut, TakesAlong, TakesBytes};
    ghost use Rattle.mp4_present.specs.words.StoresRead.{OnlyReads, Refused, WhereHonest};
    ghost use Rattle.mp4_present.specs.words.Reading.{RefusesFront};

    /// A buffer of so many bytes, at least one.
    pub fn new(alloc: Global, len: usize) -> Result<OutBuffer, AllocError>
        requires { 0 < len }
        ensures room { IfOk result (λ c. vec_len c.buffer ≡ len) }
        ensures empty { IfOk result (λ c. waiting c ≡ []) }
    {
        let buffer = vec![in alloc; 0u8; len]?;
        Ok(OutBuffer { buffer, used: 0 })
    }

    /// Puts what waits.
    pub fn flush<K: Sink>(&mut self, sink: &mut K) -> Result<(), Refusal>
        ensures room { self.new.buffer ≡ self.old.buffer }
        ensures empty { OnOk result (self.new.used ≡ 0) }
        ensures bytes { OnOk result
            (K.takes sink.old sink.new (waiting self.old)) }
        ensures prefix { OnErr result
            (TakesPrefix (K.takes sink.old sink.new) (waiting self.old)) }
        ensures puts { OnOk result (K.put_failures sink.new ≡ K.put_failures sink.old) }
        ensures refusal { RefusedByPut K.Sink sink.old sink.new result }
    {
        if self.used > 0 {
            sink.put(&self.buffer[..self.used])?;
            self.used = 0;
        }
        Ok(())
    }

    // How many bytes have room, of so many; at least one, if there are any. A full buffer is put.
    fn make_room<K: Sink>(&mut self, wanted: u64, sink: &mut K) -> Result<usize, Refusal>
        ensures room { IfOk result (HasRoomFor self.new wanted) }
        ensures put { Carries K.Sink sink.old sink.new self.old self.new result [] }
        ensures puts { OnlyPuts K.Sink sink.old sink.new self.old self.new result }
    {
        if self.used == self.buffer.len() {
            self.flush(sink)?;
        }
        let room = self.buffer.len() - self.used;
        if wanted < room as u64 {
            Ok(wanted as usize)
        } else {
            Ok(room)
        }
    }

    // Adds bytes for which there is room.
    fn add(&mut self, bytes: &[u8])
        requires { self.old.used + length bytes.now ≤ vec_len self.old.buffer }
        ensures room { vec_len self.new.buffer ≡ vec_len self.old.buffer }
        ensures bytes { waiting self.new ≡ waiting self.old ++ bytes.now }
    {
        copy_in(self.buffer.as_mut_slice(), self.used, bytes);
        self.used += bytes.len();
    }

    // Adds bytes of a store for which there is room. They are read straight into the buffer.
    fn add_range<S: Store>(&mut self, store: &mut S, from: u64, len: usize) -> Result<(), Refusal>
        requires place { from + len ≤ length (S.file store.old) }
        requires fits { self.old.used + len ≤ vec_len self.old.buffer }
        ensures room { vec_len self.new.buffer ≡ vec_len self.old.buffer }
        ensures store { OnlyReads S.Store store.old store.new result }
        ensures bytes { OnOk result (WhereHonest S.Store store.old (λ file.
            waiting self.new ≡ waiting self.old ++ range file from len)) }
        ensures many { OnOk result (WaitsMore (waiting self.old) (waiting self.new) len) }
        ensures refusal { Refused S.Store store.old store.new result RefusesFront }
    {
        read_in(store, from, self.buffer.as_mut_slice(), self.used, len)?;
        self.used += len;
        Ok(())
    }

    /// Takes these bytes along.
    pub fn carry<K: Sink>(&mut self, bytes: &[u8], sink: &mut K) -> Result<(), Refusal>
        ensures room { vec_len self.new.buffer ≡ vec_len self.old.buffer }
        ensures bytes { OnOk result
            (TakesBytes K.Sink sink.old sink.new self.old self.new bytes.now) }
        ensures prefix { OnErr result (PutsFrontOf K.Sink sink.old sink.new self.old bytes.now) }
        ensures puts { OnOk result (K.put_failures sink.new ≡ K.put_failures sink.old) }
        ensures refusal { RefusedByPut K.Sink sink.old sink.new result }
    {
        let mut done = 0;
        while done < bytes.len() {
            let count = self.make_room((bytes.len() - done) as u64, sink)?;
            self.add(&bytes[done..done + count]);
            done += count;
        }
        Ok(())
    }

    /// Takes so many bytes of a store along, from the place `at` on.
    pub fn carry_range<S: Store, K: Sink>(
        &mut self,
        store: &mut S,
        at: u64,
        len: u64,
        sink: &mut K,
    ) -> Result<(), Refusal>
        requires { at + len ≤ length (S.file store.old) }
        ensures store { OnlyCopies S.Store store.old store.new K.Sink sink.old sink.new result }
        ensures along { TakesAlong K.Sink sink.old sink.new self.old self.new result len }
        ensures bytes { OnOk result (WhereHonest S.Store store.old (λ file.
            TakesBytes K.Sink sink.old sink.new self.old self.new (range file at len))) }
        ensures prefix { OnErr result (WhereHonest S.Store store.old (λ file.
            PutsFrontOf K.Sink sink.old sink.new self.old (range file at len))) }
        ensures refusal { RefusedByBoth S.Store store.old store.new K.Sink sink.old sink.new result
            RefusesRange }
    {
        let _size = store.len();
        let mut done = 0;
        while done < len {
            let count = self.make_room(len - done, sink)?;
            self.add_range(store, at + done, count)?;
            done += count as u64;
        }
        Ok(())
    }

    /// Takes the bytes of some samples along. Where the store has not as many bytes, it has
    /// changed.
    pub fn carry_stretch<S: Store, K: Sink>(
        &mut self,
        stretch: Stretch,
        store: &mut S,
        sink: &mut K,
    ) -> Result<(), Refusal>
        ensures store { OnlyCopies S.Store store.old store.new K.Sink sink.old sink.new result }
        ensures along { TakesAlong K.Sink sink.old sink.new self.old self.new result stretch.len }
        ensures bytes { OnOk result (WhereHonest S.Store store.old (λ file. TakesBytes K.Sink
            sink.old sink.new self.old self.new (range file stretch.at stretch.len))) }
        ensures prefix { OnErr result (WhereHonest S.Store store.old (λ file.
            PutsFrontOf K.Sink sink.old sink.new self.old (range file stretch.at stretch.len))) }
        ensures refusal { RefusedByBoth S.Store store.old store.new K.Sink sink.old sink.new result
            (RefusesStretch (S.file store.old) stretch) }
    {
        let len = store.len();
        if stretch.at > len || stretch.len > len - stretch.at {
            return Err(Refusal::StoreChanged);
        }
        self.carry_range(store, stretch.at, stretch.len, sink)
    }
}
