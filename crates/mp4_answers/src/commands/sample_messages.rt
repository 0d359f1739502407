//! Samples that are read side by side, as messages of which the digests are found at once.
ghost use Rattle.std.specs.Prelude.{◌≡◌, ◌+◌, ◌*◌, ◌<◌, ◌≤◌, ◌++◌, [], length, take, OnOk};
ghost use Rattle.mp4_store.specs.words.Device.{range};
ghost use Rattle.mp4_present.specs.words.StoresRead.{IsUnchanged, OnlyReads, Refused, WhereHonest};
ghost use Rattle.mp4_answers.specs.words.Messages.{IsReady, block_count, message_of};
ghost use Rattle.mp4_answers.specs.words.PrintedTracks.{LieBelow};
ghost use Rattle.mp4_answers.specs.words.SampleMessages.{AreReadyTo, HaveBytesOf};
ghost use Rattle.mp4_answers.specs.words.ToldSamples.{RefusesDigest};

use crate::digests::messages::{BLOCK, Message, block_count, pad};
use mp4_boxes::Refusal;
use mp4_store::Store;
use mp4_tables::{SampleAt, Samples};

/// How many samples are taken at once, at most.
pub(crate) const MOST: usize = 64;

/// No sample yet.
pub(crate) const NO_SAMPLE: SampleAt = SampleAt {
    dts: 0,
    duration: 0,
    cto: 0,
    flags: 0,
    description: 0,
    at: 0,
    size: 0,
    groups: [0; 4],
    number: 0,
};

// Reads so many bytes to a place among others, where there are any.
fn read_in<S: Store>(
    store: &mut S,
    from: u64,
    bytes: &mut [u8],
    at: usize,
    len: usize,
) -> Result<(), Refusal>
    requires place { from + len ≤ length (S.file store.old) }
    requires room { at + len ≤ length bytes.old }
    ensures store { OnlyReads S.Store store.old store.new result }
    ensures bytes { OnOk result (WhereHonest S.Store store.old (λ file.
        take (at + len) bytes.new ≡ take at bytes.old ++ range file from len)) }
    ensures front { take at bytes.new ≡ take at bytes.old }
    ensures refusal { Refused S.Store store.old store.new result RefusesDigest }
    ensures unchanged { IsUnchanged result }
{
    if len > 0 {
        store.read_at(from, &mut bytes[at..at + len])?;
    }
    Ok(())
}

// Reads the bytes of a sample, and puts the padding behind them. Where the store has not as many
// bytes, it has changed.
fn read_message<S: Store>(
    store: &mut S,
    at: u64,
    bytes: &mut [u8],
    message: Message,
) -> Result<(), Refusal>
    requires { message.start + block_count message.len * 64 ≤ length bytes.old }
    ensures store { OnlyReads S.Store store.old store.new result }
    ensures ready { OnOk result (IsReady bytes.new message) }
    ensures bytes { OnOk result (WhereHonest S.Store store.old (λ file.
        message_of bytes.new message ≡ range file at message.len)) }
    ensures front { take message.start bytes.new ≡ take message.start bytes.old }
    ensures unchanged { at + message.len ≤ length (S.file store.old) → IsUnchanged result }
    ensures refusal { Refused S.Store store.old store.new result RefusesDigest }
{
    let Message { start, len } = message;
    let size = store.len();
    if at > size || len as u64 > size - at {
        return Err(Refusal::StoreChanged);
    }
    read_in(store, at, bytes, start, len)?;
    pad(bytes, message);
    Ok(())
}

/// Reads the bytes of the first samples, as many as have room, and says how many these are. At
/// `Err` a read behind them failed.
pub(crate) fn read_front<S: Store>(
    samples: &[SampleAt],
    store: &mut S,
    bytes: &mut [u8],
    messages: &mut [Message],
) -> (usize, Result<(), Refusal>)
    ensures samples { result.0 ≤ length samples.now }
    ensures messages { result.0 ≤ length messages.new }
    ensures store { OnlyReads S.Store store.old store.new result.1 }
    ensures ready { AreReadyTo bytes.new messages.new result.0 }
    ensures bytes { WhereHonest S.Store store.old (λ file.
        HaveBytesOf file bytes.new messages.new samples.now result.0) }
    ensures unchanged { LieBelow (length (S.file store.old)) samples.now → IsUnchanged result.1 }
    ensures refusal { Refused S.Store store.old store.new result.1 RefusesDigest }
{
    let mut start = 0;
    let mut count = 0;
    while count < samples.len() && count < messages.len() {
        let sample = samples[count];
        let message = Message {
            start,
            len: sample.size as usize,
        };
        let blocks = block_count(message.len);
        if blocks > (bytes.len() - start) / BLOCK {
            return (count, Ok(()));
        }
        if let Err(refusal) = read_message(store, sample.at, bytes, message) {
            return (count, Err(refusal));
        }
        messages[count] = message;
        count += 1;
        start += blocks * BLOCK;
    }
    (count, Ok(()))
}

/// Takes the next samples, as many as come and have room, and says how many these are.
pub(crate) fn take_samples<H: Samples>(hand: &mut H, samples: &mut [SampleAt; MOST]) -> usize
    ensures few { result ≤ 64 }
    ensures taken { H.rest hand.old ≡ take result samples.new ++ H.rest hand.new }
    ensures none { result ≡ 0 → H.rest hand.new ≡ [] }
    ensures later { H.follows hand.old hand.new }
{
    let mut count = 0;
    while count < MOST {
        let Some(sample) = hand.next() else {
            return count;
        };
        samples[count] = sample;
        count += 1;
    }
    count
}
