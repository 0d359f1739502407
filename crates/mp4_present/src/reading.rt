//! Reads of a file behind a store: one top-level header, or a stretch of bytes.
ghost use Rattle.std.specs.Prelude.{◌≡◌, ◌+◌, ◌-◌, ◌^◌, ◌<◌, ◌≤◌, length, take, IfOk, IfErr, OnOk, IsTrue};
ghost use Rattle.mp4_boxes.specs.words.View.{box_seen};
ghost use Rattle.mp4_boxes.specs.format.Bytes.{AreBytes};
ghost use Rattle.mp4_store.specs.words.Device.{MayRise, range};
ghost use Rattle.mp4_present.specs.words.Movies.{HasRoom, IsWhole};
ghost use Rattle.mp4_present.specs.words.StoresRead.{OnlyReads, WhereHonest, WhereRead, Refused, RefusedOf};
ghost use Rattle.mp4_present.specs.words.Reading.{IsTopHeader, RefusesHeader, RefusesRead, RefusesFront, RefusesTopBox, RefusesRange};

use mp4_boxes::{BoxView, Refusal, TopHeader, top_header};
use mp4_store::Store;
use std::alloc::Global;

/// The most bytes of a header.
pub(crate) const HEADER: u64 = 16;

// So many bytes are read with the header of a box at least, where the file has them.
const FRONT: u64 = 4096;

/// A box of the file itself.
#[derive(Clone, Copy, Debug, PartialEq, Eq)]
pub struct TopBox {
    /// The place of its first byte.
    pub offset: u64,
    pub header: TopHeader,
}

// The place behind a header at this place.
fn behind(at: u64, header: TopHeader) -> u64
    requires { at + header.header ≤ header.end }
    ensures { result ≡ at + header.header }
{
    at + u64::from(header.header)
}

// The box with a header at this place, and with these bytes as its payload.
fn view_at<'a>(at: u64, header: TopHeader, payload: &'a [u8]) -> BoxView<'a>
    requires { at + header.header + length payload.now ≡ header.end }
    ensures { box_seen result ≡ record {
      kind = header.kind.0;
      offset = at;
      header = header.header;
      payload = payload.entry.now;
    } }
{
    BoxView::new(header.kind, at, header.header, payload)
}

impl TopBox {
    ghost use Rattle.std.specs.Prelude.{◌≡◌, ◌+◌, ◌-◌, ◌≤◌, length, take, drop};
    ghost use Rattle.mp4_boxes.specs.words.View.{box_seen};
    ghost use Rattle.mp4_present.specs.words.Movies.{Fills, HasRoom};

    /// The place of the first byte of its payload.
    pub(crate) fn payload_offset(&self) -> u64
        requires { self.now.offset + self.now.header.header ≤ self.now.header.end }
        ensures { result ≡ self.now.offset + self.now.header.header }
    {
        behind(self.offset, self.header)
    }

    /// The box with these bytes as its payload.
    pub(crate) fn view<'a>(&self, payload: &'a [u8]) -> BoxView<'a>
        requires { Fills (length payload.now) self.now }
        ensures { box_seen result ≡ record {
          kind = self.now.header.kind.0;
          offset = self.now.offset;
          header = self.now.header.header;
          payload = payload.entry.now;
        } }
    {
        view_at(self.offset, self.header, payload)
    }

    /// How long it is.
    pub(crate) fn len(&self) -> u64
        requires { self.now.offset ≤ self.now.header.end }
        ensures { result ≡ self.now.header.end - self.now.offset }
    {
        self.header.end - self.offset
    }

    /// The box that these bytes begin with, from its header on.
    pub(crate) fn view_in<'a>(&self, bytes: &'a [u8]) -> BoxView<'a>
        requires { HasRoom (length bytes.now) self.now }
        ensures { box_seen result ≡ record {
          kind = self.now.header.kind.0;
          offset = self.now.offset;
          header = self.now.header.header;
          payload = take (self.now.header.end - self.now.offset - self.now.header.header)
              (drop self.now.header.header bytes.entry.now);
        } }
    {
        let header = usize::from(self.header.header);
        let end = self.len() as usize;
        view_at(self.offset, self.header, &bytes[header..end])
    }
}

/// The top-level header at the place `at` of the file, by one read of 16 bytes, or of all that are
/// left.
pub fn read_top_header<S: Store>(store: &mut S, at: u64) -> Result<TopHeader, Refusal>
    requires { at < length (S.file store.old) }
    ensures honesty { S.is_honest store.new ≡ S.is_honest store.old }
    ensures file { S.file store.new ≡ S.file store.old }
    ensures header { IfOk result (λ h. IsTrue (S.is_honest store.old)
        → IsTopHeader (S.file store.old) at h) }
    ensures within { IfOk result (λ h. (at + h.header ≤ h.end) × (8 ≤ h.header)
        × (h.end ≤ length (S.file store.old))) }
    ensures reads { OnOk result (S.read_failures store.new ≡ S.read_failures store.old) }
    ensures rise { MayRise (S.read_failures store.old) (S.read_failures store.new) }
    ensures refusal { IfErr result
        (RefusesHeader (S.is_honest store.old) (S.file store.old) at (S.read_failures store.old)
        (S.read_failures store.new)) }
{
    let left = store.len() - at;
    let mut front = [0; 16];
    let len = left.min(16) as usize;
    let bytes = &mut front[..len];
    store.read_at(at, bytes)?;
    let header = top_header(bytes, at, left)?;
    Ok(header)
}

/// So many bytes of the file from the place `at` on.
pub fn read_bytes<S: Store>(
    alloc: Global,
    store: &mut S,
    at: u64,
    len: u64,
) -> Result<Vec<u8>, Refusal>
    requires { at + len ≤ length (S.file store.old) }
    ensures honesty { S.is_honest store.new ≡ S.is_honest store.old }
    ensures file { S.file store.new ≡ S.file store.old }
    ensures bytes { IfOk result (λ bytes. IsTrue (S.is_honest store.old)
        → bytes.items ≡ range (S.file store.old) at len) }
    ensures count { IfOk result (λ bytes. length bytes.items ≡ len) }
    ensures reads { OnOk result (S.read_failures store.new ≡ S.read_failures store.old) }
    ensures refusal { IfErr result
        (RefusesRead (S.read_failures store.old) (S.read_failures store.new)) }
{
    let mut bytes = vec![in alloc; 0u8; len as usize]?;
    store.read_at(at, bytes.as_mut_slice())?;
    Ok(bytes)
}

/// Reads so many bytes of the file from the place `at` on to the front of the room, of which the
/// length stays.
pub fn read_front<S: Store>(
    store: &mut S,
    at: u64,
    room: &mut [u8],
    len: usize,
) -> Result<(), Refusal>
    requires place { at + len ≤ length (S.file store.old) }
    requires room { len ≤ length room.old }
    ensures store { OnlyReads S.Store store.old store.new result }
    ensures bytes { OnOk result (WhereHonest S.Store store.old (λ file.
        take len room.new ≡ range file at len)) }
    ensures refusal { Refused S.Store store.old store.new result RefusesFront }
{
    store.read_at(at, &mut room[..len])?;
    Ok(())
}

// Reads the bytes behind the first ones of so many from the place `at` on, where these first ones
// are at the front of the room.
fn read_rest<S: Store>(
    store: &mut S,
    at: u64,
    room: &mut [u8],
    read: usize,
    len: usize,
) -> Result<(), Refusal>
    requires place { at + len ≤ length (S.file store.old) }
    requires fits { at + len < 2 ^ 64 }
    requires room { (read ≤ length room.old) × (len ≤ length room.old) }
    requires first { WhereHonest S.Store store.old (λ file.
        take read room.old ≡ range file at read) }
    ensures store { OnlyReads S.Store store.old store.new result }
    ensures room { length room.new ≡ length room.old }
    ensures bytes { OnOk result (WhereHonest S.Store store.old (λ file.
        take len room.new ≡ range file at len)) }
    ensures refusal { Refused S.Store store.old store.new result RefusesFront }
{
    if read < len {
        store.read_at(at + read as u64, &mut room[read..len])?;
    }
    Ok(())
}

/// Reads the box of the file itself that begins at the place `at` to the front of the room, its
/// header first: by one read where it is no longer than is likely, or than 4096 bytes, else by two.
/// Where it has no header, or there is no room for it, the store has changed.
pub(crate) fn read_top_box<S: Store>(
    store: &mut S,
    at: u64,
    likely: u64,
    room: &mut [u8],
) -> Result<TopBox, Refusal>
    requires place { at < length (S.file store.old) }
    requires room { 16 ≤ length room.old }
    ensures store { OnlyReads S.Store store.old store.new result }
    ensures place { IfOk result (λ top. top.offset ≡ at) }
    ensures whole { IfOk result (λ top. IsWhole (length (S.file store.old)) top
        × HasRoom (length room.new) top) }
    ensures header { WhereRead S.Store store.old result (λ file top.
        IsTopHeader file top.offset top.header) }
    ensures room { AreBytes room.new }
    ensures bytes { WhereRead S.Store store.old result (λ file top.
        take (top.header.end - top.offset) room.new
        ≡ range file top.offset (top.header.end - top.offset)) }
    ensures refusal { RefusedOf S.Store store.old store.new result
        (RefusesTopBox (length room.old) at) }
{
    let left = store.len() - at;
    let read = likely.max(FRONT).min(left).min(room.len() as u64) as usize;
    read_front(store, at, room, read)?;
    let Ok(header) = top_header(&room[..read.min(16)], at, left) else {
        return Err(Refusal::StoreChanged);
    };
    let len = header.end - at;
    if len > room.len() as u64 {
        return Err(Refusal::StoreChanged);
    }
    read_rest(store, at, room, read, len as usize)?;
    Ok(TopBox { offset: at, header })
}

/// Reads so many bytes from the place `at` on to the front of the room, and no others. Where there
/// is no room for them, or the file ends before them, the store has changed.
pub(crate) fn read_range<S: Store>(
    store: &mut S,
    at: u64,
    len: usize,
    room: &mut [u8],
) -> Result<(), Refusal>
    ensures store { OnlyReads S.Store store.old store.new result }
    ensures fits { OnOk result (len ≤ length room.new) }
    ensures bytes { OnOk result (WhereHonest S.Store store.old (λ file.
        take len room.new ≡ range file at len)) }
    ensures refusal { Refused S.Store store.old store.new result
        (RefusesRange (length (S.file store.old)) (length room.old) at len) }
{
    let file_len = store.len();
    if len > room.len() || at > file_len || len as u64 > file_len - at {
        return Err(Refusal::StoreChanged);
    }
    read_front(store, at, room, len)
}
