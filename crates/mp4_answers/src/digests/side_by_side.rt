//! The SHA-256 of many messages (FIPS 180-4), four of them at once: each has a lane of vectors, and
//! where one ends the next takes its lane.
ghost use Rattle.std.specs.Prelude.{◌≡◌, ℕ, ◌+◌, ◌-◌, ◌*◌, ◌/◌, ◌^◌, ◌<◌, ◌≤◌, IsTrue, IsFalse, length, slice_index};
ghost use Rattle.sha2.specs.Sha256.{digest_bytes, initial_hash_256};
ghost use Rattle.mp4_answers.specs.words.Lanes.{lane};
ghost use Rattle.mp4_answers.specs.words.Messages.{AreHeld, AreReady, Begins, BeginsState, HasDigest, IsFound, MovesOn, StayHeld, block_count, sum_of_four};

use crate::digests::lanes::compress_four;
use crate::digests::messages::{BLOCK, Message, block_count};
use crate::digests::{DIGEST, digest};
use std::simd::u32x4;

/// How many lanes there are.
const LANES: usize = 4;

// The initial hash value (5.3.3).
const INITIAL_HASH: [u32; 8] = [
    0x6a09_e667,
    0xbb67_ae85,
    0x3c6e_f372,
    0xa54f_f53a,
    0x510e_527f,
    0x9b05_688c,
    0x1f83_d9ab,
    0x5be0_cd19,
];

// Where the next blocks of four messages begin, how many blocks each has left, and which messages
// they are. A lane without a block left is free.
#[derive(Drop)]
struct Lanes {
    places: [usize; 4],
    lefts: [usize; 4],
    owners: [usize; 4],
}

// A vector with another number in one lane.
fn with_lane(x: u32x4, l: usize, value: u32) -> u32x4
    requires { l < 4 }
    ensures value { slice_index result l ≡ value }
    ensures others { (j : ℕ) → j < 4 → (j ≡ l → ⊥) → slice_index result j ≡ slice_index x j }
{
    let mut words = x.to_array();
    words[l] = value;
    u32x4::from_array(words)
}

// The state of all lanes, with a message begun in one.
fn with_begun(state: &[u32x4; 8], l: usize) -> [u32x4; 8]
    requires { l < 4 }
    ensures begun { lane l result ≡ initial_hash_256 }
    ensures others { (j : ℕ) → j < 4 → (j ≡ l → ⊥) → lane j result ≡ lane j state.now }
{
    let mut begun = *state;
    'words: for i in 0..8 {
        let word = with_lane(state[i], l, INITIAL_HASH[i]);
        begun[i] = word;
    }
    begun
}

// A number of a vector.
fn lane_of(x: u32x4, l: usize) -> u32
    requires { l < 4 }
    ensures { result ≡ slice_index x l }
{
    let words = x.to_array();
    words[l]
}

// The digest that stands in a lane.
fn digest_in(state: &[u32x4; 8], l: usize) -> [u8; DIGEST]
    requires { l < 4 }
    ensures { result ≡ digest_bytes (lane l state.now) 8 }
{
    let mut out = [0u8; DIGEST];
    'words: for i in 0..8 {
        let word = lane_of(state[i], l);
        out[4 * i..4 * i + 4].copy_from_slice(&word.to_be_bytes());
    }
    out
}

// Where the next block begins, behind one of so many left.
fn place_after(place: usize, left: usize) -> usize
    requires { place + 64 < 2 ^ 64 }
    ensures more { 1 < left → result ≡ place + 64 }
    ensures last { left ≤ 1 → result ≡ place }
{
    if left > 1 { place + BLOCK } else { place }
}

// A lane that is free, or the number of lanes where none is.
fn free_lane(lefts: [usize; 4]) -> usize
    ensures lane { result ≤ 4 }
    ensures idle { result < 4 → slice_index lefts result ≡ 0 }
    ensures none { 4 ≤ result → (l : ℕ) → l < 4 → 0 < slice_index lefts l }
{
    let [a, b, c, d] = lefts;
    if a == 0 {
        0
    } else if b == 0 {
        1
    } else if c == 0 {
        2
    } else if d == 0 {
        3
    } else {
        LANES
    }
}

impl Lanes {
    ghost use Rattle.std.specs.Prelude.{◌≡◌, ℕ, ◌<◌, slice_index};

    // All are free.
    fn new() -> Lanes
        ensures { (l : ℕ) → l < 4 → (slice_index result.lefts l ≡ 0)
            × (slice_index result.places l ≡ 0) }
    {
        Lanes {
            places: [0; 4],
            lefts: [0; 4],
            owners: [0; 4],
        }
    }
}

// Tells the digest in a lane, where its last block is hashed.
fn tell(state: &[u32x4; 8], lanes: &Lanes, l: usize, digests: &mut [[u8; DIGEST]])
    requires lane { l < 4 }
    requires owner { slice_index lanes.now.lefts l ≡ 1
        → slice_index lanes.now.owners l < length digests.old }
    ensures count { length digests.new ≡ length digests.old }
    ensures told { HasDigest (slice_index lanes.now.lefts l) (slice_index lanes.now.owners l)
        (lane l state.now) digests.old digests.new }
{
    if lanes.lefts[l] == 1 {
        let digest = digest_in(state, l);
        digests[lanes.owners[l]] = digest;
    }
}

// Moves each lane on behind its block.
fn move_on(lanes: &mut Lanes)
    requires { (l : ℕ) → l < 4 → slice_index lanes.old.places l + 64 < 2 ^ 64 }
    ensures { MovesOn lanes.old lanes.new }
{
    let [a, b, c, d] = lanes.lefts;
    let [at_a, at_b, at_c, at_d] = lanes.places;
    lanes.places = [
        place_after(at_a, a),
        place_after(at_b, b),
        place_after(at_c, c),
        place_after(at_d, d),
    ];
    lanes.lefts = [
        a.saturating_sub(1),
        b.saturating_sub(1),
        c.saturating_sub(1),
        d.saturating_sub(1),
    ];
}

// Goes a block on in each lane.
fn step(state: &mut [u32x4; 8], lanes: &mut Lanes, bytes: &[u8], digests: &mut [[u8; DIGEST]])
    requires fits { (l : ℕ) → l < 4 → slice_index lanes.old.places l + 64 ≤ length bytes.now }
    requires owner { (l : ℕ) → l < 4 → slice_index lanes.old.lefts l ≡ 1
        → slice_index lanes.old.owners l < length digests.old }
    ensures lefts { (l : ℕ) → l < 4
        → slice_index lanes.new.lefts l ≡ slice_index lanes.old.lefts l - 1 }
    ensures count { length digests.new ≡ length digests.old }
    ensures held { StayHeld bytes.now state.old state.new lanes.old lanes.new
        digests.old digests.new }
{
    let places = lanes.places;
    compress_four(state, bytes, places);
    tell(state, lanes, 0, digests);
    tell(state, lanes, 1, digests);
    tell(state, lanes, 2, digests);
    tell(state, lanes, 3, digests);
    move_on(lanes);
}

// Begins a message in a free lane.
fn begin(state: &mut [u32x4; 8], lanes: &mut Lanes, l: usize, owner: usize, message: Message)
    requires lane { l < 4 }
    requires len { message.len + 72 < 2 ^ 64 }
    ensures state { BeginsState l state.old state.new }
    ensures lanes { Begins l owner message lanes.old lanes.new }
{
    let begun = with_begun(state, l);
    *state = begun;
    lanes.places[l] = message.start;
    lanes.lefts[l] = block_count(message.len);
    lanes.owners[l] = owner;
}

// Goes on until a lane is free, and says which.
fn make_free(
    state: &mut [u32x4; 8],
    lanes: &mut Lanes,
    bytes: &[u8],
    messages: &[Message],
    known: usize,
    digests: &mut [[u8; DIGEST]],
) -> usize
    requires ready { AreReady bytes.now messages.now }
    requires known { known ≤ length messages.now }
    requires room { length messages.now ≤ length digests.old }
    requires held { AreHeld bytes.now messages.now known state.old lanes.old digests.old }
    ensures lane { result < 4 }
    ensures idle { slice_index lanes.new.lefts result ≡ 0 }
    ensures count { length digests.new ≡ length digests.old }
    ensures held { AreHeld bytes.now messages.now known state.new lanes.new digests.new }
{
    let mut l = free_lane(lanes.lefts);
    while l == LANES {
        step(state, lanes, bytes, digests);
        l = free_lane(lanes.lefts);
    }
    l
}

// Whether a lane isn't free.
fn is_busy(lefts: [usize; 4]) -> bool
    ensures busy { IsTrue result → 0 < sum_of_four lefts }
    ensures idle { IsFalse result → (l : ℕ) → l < 4 → slice_index lefts l ≡ 0 }
{
    let [a, b, c, d] = lefts;
    a > 0 || b > 0 || c > 0 || d > 0
}

// Goes on until all lanes are free.
fn finish(
    state: &mut [u32x4; 8],
    lanes: &mut Lanes,
    bytes: &[u8],
    messages: &[Message],
    digests: &mut [[u8; DIGEST]],
)
    requires ready { AreReady bytes.now messages.now }
    requires room { length messages.now ≤ length digests.old }
    requires held { AreHeld bytes.now messages.now (length messages.now) state.old lanes.old
        digests.old }
    ensures count { length digests.new ≡ length digests.old }
    ensures found { (k : ℕ) → k < length messages.now
        → IsFound bytes.now messages.now digests.new k }
{
    while is_busy(lanes.lefts) {
        step(state, lanes, bytes, digests);
    }
}

// Finds the digest of each message, four at a time.
fn find_in_lanes(bytes: &[u8], messages: &[Message], digests: &mut [[u8; DIGEST]])
    requires block { 64 ≤ length bytes.now }
    requires ready { AreReady bytes.now messages.now }
    requires room { length messages.now ≤ length digests.old }
    ensures count { length digests.new ≡ length digests.old }
    ensures found { (k : ℕ) → k < length messages.now
        → IsFound bytes.now messages.now digests.new k }
{
    let mut state = [u32x4::splat(0); 8];
    let mut lanes = Lanes::new();
    'messages: for k in 0..messages.len() {
        let l = make_free(&mut state, &mut lanes, bytes, messages, k, digests);
        begin(&mut state, &mut lanes, l, k, messages[k]);
    }
    finish(&mut state, &mut lanes, bytes, messages, digests);
}

// Finds the digest of each message, one after the other.
fn find_in_turn(bytes: &[u8], messages: &[Message], digests: &mut [[u8; DIGEST]])
    requires ready { AreReady bytes.now messages.now }
    requires room { length messages.now ≤ length digests.old }
    ensures count { length digests.new ≡ length digests.old }
    ensures found { (k : ℕ) → k < length messages.now
        → IsFound bytes.now messages.now digests.new k }
{
    'messages: for k in 0..messages.len() {
        let Message { start, len } = messages[k];
        let found = digest(&bytes[start..start + len]);
        digests[k] = found;
    }
}

// Whether lanes pay: a block takes half again as many instructions in lanes of which one is used,
// so no message may be longer than all others.
fn lanes_pay(messages: &[Message]) -> bool {
    let mut total: usize = 0;
    let mut longest: usize = 0;
    for message in messages {
        let blocks = message.len / BLOCK + 1;
        total = total.saturating_add(blocks);
        longest = longest.max(blocks);
    }
    longest <= total / 2
}

/// Finds the digest of each message.
pub(crate) fn find_digests(bytes: &[u8], messages: &[Message], digests: &mut [[u8; DIGEST]])
    requires ready { AreReady bytes.now messages.now }
    requires room { length messages.now ≤ length digests.old }
    ensures count { length digests.new ≡ length digests.old }
    ensures found { (k : ℕ) → k < length messages.now
        → IsFound bytes.now messages.now digests.new k }
{
    if bytes.len() >= BLOCK && lanes_pay(messages) {
        find_in_lanes(bytes, messages, digests);
    } else {
        find_in_turn(bytes, messages, digests);
    }
}
