//! How many microseconds a track begins later than another.
ghost use Rattle.std.specs.Prelude.{◌≡◌, ◌+◌, ◌*◌, ◌%◌, ◌^◌, ◌<◌, ◌≤◌, nat_lt};
ghost use Rattle.mp4_content.specs.format.LeadIns.{later};
ghost use Rattle.mp4_content.specs.words.Delays.{CanBegin, is_before, moment_of};

/// When a track begins in a movie of some timescale: so many ticks of the movie and so many of the
/// track later than 0, and so many of the track earlier.
#[derive(Clone, Copy)]
pub(crate) struct Beginning {
    pub(crate) waits: u128,
    pub(crate) later: u128,
    pub(crate) earlier: u128,
    pub(crate) timescale: u32,
}

/// How many whole microseconds the first begins later than the second, as far as 64 bits go.
///
/// Whole seconds and parts of one are counted apart, since a product of all wouldn't fit. The parts
/// are less than 3 seconds on each side, so 3 more on the second side keep a difference above 0.
pub(crate) fn later_by(first: Beginning, second: Beginning, timescale: u32) -> u64
    requires movie { 0 < timescale }
    requires first { CanBegin first }
    requires second { CanBegin second }
    ensures { result ≡ later (moment_of timescale first) (moment_of timescale second) }
{
    let after = side(first, second, timescale);
    let before = side(second, first, timescale);
    let all = product(timescale, first.timescale, second.timescale);
    let parts = after.parts + 3 * all - before.parts;
    let part = parts * 1_000_000 / all;
    let less = before.whole + 3;
    let more = after.whole.saturating_sub(less).min(1 << 64);
    let fewer = less.saturating_sub(after.whole).min(6);
    let whole = (more * 1_000_000 + part).saturating_sub(fewer * 1_000_000);
    whole.min(u128::from(u64::MAX)) as u64
}

/// Whether the first begins before the second.
pub(crate) fn begins_before(first: Beginning, second: Beginning, timescale: u32) -> bool
    requires movie { 0 < timescale }
    requires first { CanBegin first }
    requires second { CanBegin second }
    ensures { result ≡ is_before (moment_of timescale first) (moment_of timescale second) }
{
    let before = side(first, second, timescale);
    let after = side(second, first, timescale);
    let all = product(timescale, second.timescale, first.timescale);
    is_less(before, after, all)
}

// Whether the first is less, where so many parts are a second.
fn is_less(first: Time, second: Time, all: u128) -> bool
    requires some { 0 < all }
    requires first { first.whole < 3 * 2 ^ 126 }
    requires second { second.whole < 3 * 2 ^ 126 }
    requires parts { (first.parts ≤ 3 * all) × (second.parts ≤ 3 * all) }
    ensures { result
        ≡ nat_lt (first.whole * all + first.parts) (second.whole * all + second.parts) }
{
    let one = first.whole + first.parts / all;
    let two = second.whole + second.parts / all;
    if one != two {
        return one < two;
    }
    first.parts % all < second.parts % all
}

// So many ticks of a timescale.
#[derive(Clone, Copy)]
struct Span {
    ticks: u128,
    timescale: u32,
}

// Whole seconds, and parts of one over all timescales.
#[derive(Clone, Copy)]
struct Time {
    whole: u128,
    parts: u128,
}

// How late one begins, and how early the other. It is later by what this is more than the same of
// both turned.
fn side(one: Beginning, other: Beginning, timescale: u32) -> Time
    requires movie { 0 < timescale }
    requires one { CanBegin one }
    requires other { CanBegin other }
    ensures is { result.whole * (timescale * (one.timescale * other.timescale)) + result.parts
        ≡ one.waits * (one.timescale * other.timescale)
        + one.later * (timescale * other.timescale)
        + other.earlier * (timescale * one.timescale) }
    ensures whole { result.whole < 3 * 2 ^ 126 }
    ensures parts { result.parts ≤ 3 * (timescale * (one.timescale * other.timescale)) }
{
    together(
        Span {
            ticks: one.waits,
            timescale,
        },
        Span {
            ticks: one.later,
            timescale: one.timescale,
        },
        Span {
            ticks: other.earlier,
            timescale: other.timescale,
        },
    )
}

// Three spans together: the whole seconds of each, and what is left of each.
fn together(a: Span, b: Span, c: Span) -> Time
    requires short { (a.ticks < 2 ^ 126) × (b.ticks < 2 ^ 126) × (c.ticks < 2 ^ 126) }
    requires some { (0 < a.timescale) × (0 < b.timescale) × (0 < c.timescale) }
    ensures is { result.whole * (a.timescale * (b.timescale * c.timescale)) + result.parts
        ≡ a.ticks * (b.timescale * c.timescale) + b.ticks * (a.timescale * c.timescale)
        + c.ticks * (a.timescale * b.timescale) }
    ensures whole { result.whole < 3 * 2 ^ 126 }
    ensures parts { result.parts ≤ 3 * (a.timescale * (b.timescale * c.timescale)) }
{
    let (one, two, three) = (a.timescale, b.timescale, c.timescale);
    let whole = a.ticks / u128::from(one) + b.ticks / u128::from(two) + c.ticks / u128::from(three);
    let parts = product(left(a), two, three)
        + product(left(b), one, three)
        + product(left(c), one, two);
    Time { whole, parts }
}

// What is left of a span behind its last whole second.
fn left(span: Span) -> u32
    requires { 0 < span.timescale }
    ensures { result ≡ span.ticks % span.timescale }
{
    (span.ticks % u128::from(span.timescale)) as u32
}

// A product of three numbers.
fn product(a: u32, b: u32, c: u32) -> u128
    ensures is { result ≡ a * (b * c) }
    ensures short { result < 2 ^ 96 }
{
    let both = u64::from(b) * u64::from(c);
    u128::from(a) * u128::from(both)
}
