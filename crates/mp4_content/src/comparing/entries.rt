//! Lists of two heads, compared entry by entry. What differs is added to a list.
ghost use Rattle.std.specs.Prelude.{◌≡◌, ◌++◌, List, OnOk};
ghost use Rattle.mp4_head.specs.words.Seen.{kept_seen, edit_seen};
ghost use Rattle.mp4_content.specs.declared.comparing.differences.Difference.{Difference};
ghost use Rattle.mp4_content.specs.format.Differences.{payload_differences, box_differences};
ghost use Rattle.mp4_content.specs.words.HeadsDiffer.{entries_differ};
ghost use Rattle.mp4_content.specs.words.Differing.{values_differ, edit_values};
ghost use Rattle.mp4_content.specs.declared.comparing.entries.Spot.{Spot};

use crate::comparing::differences::{Difference, Entries, Field, Part, Subject, Value};
use crate::comparing::fields::{
    compare_numbers, compare_value, compare_values, first_unequal, number, signed,
};
use mp4_boxes::Memory;
use mp4_head::{Edit, Kept};

/// Which entry it is: of whom, of which list, and its number, from 1.
#[derive(Clone, Copy, Debug, PartialEq, Eq)]
pub(crate) struct Spot {
    pub subject: Subject,
    pub list: Entries,
    pub number: u64,
}

impl Spot {
    ghost use Rattle.std.specs.Prelude.{◌≡◌};
    ghost use Rattle.mp4_content.specs.declared.comparing.differences.Field.TheVariants as fields;

    // The entry of this number.
    pub(crate) fn new(subject: Subject, list: Entries, number: u64) -> Spot
        ensures { result ≡ record { subject = subject; list = list; number = number } }
    {
        Spot {
            subject,
            list,
            number,
        }
    }

    // A part of it.
    fn field(self, part: Part) -> Field
        ensures { result ≡ fields.Entry self.list self.number part }
    {
        Field::Entry(self.list, self.number, part)
    }
}

/// An entry of a list that each head has.
pub(crate) trait Entry {
    /// What differs between two entries of one number.
    ghost differences: { Spot → Self → Self → List Difference };

    /// Adds what differs from the entry of this number in another list.
    fn compare(&self, other: &Self, at: Spot, found: &mut Vec<Difference>) -> Result<(), Memory>
        ensures { OnOk result (found.new.items ≡ found.old.items
            ++ differences at self.now other.now) };
}

// Adds the first byte of a payload that differs, or its length.
pub(crate) fn compare_payloads(
    at: Spot,
    left: &[u8],
    right: &[u8],
    found: &mut Vec<Difference>,
) -> Result<(), Memory>
    ensures { OnOk result (found.new.items ≡ found.old.items
        ++ payload_differences at.subject at.list at.number left.now right.now) }
{
    let len = left.len() as u64;
    let other = right.len() as u64;
    compare_numbers(at.subject, at.field(Part::Length), len, other, found)?;
    if len == other {
        if let Some((place, byte, other)) = first_unequal(left, right) {
            let field = at.field(Part::Byte(place as u64 + 1, len));
            let (byte, other) = (Value::Byte(byte), Value::Byte(other));
            compare_value(at.subject, field, byte, other, found)?;
        }
    }
    Ok(())
}

impl<'a> Entry for &'a [u8] {
    ghost differences = { λ at a b. payload_differences at.subject at.list at.number a.now b.now };

    fn compare(&self, other: &Self, at: Spot, found: &mut Vec<Difference>) -> Result<(), Memory> {
        compare_payloads(at, *self, *other, found)
    }
}

impl<'a> Entry for Kept<'a> {
    ghost differences = { λ at a b. box_differences at.subject at.list at.number (kept_seen a)
        (kept_seen b) };

    fn compare(&self, other: &Self, at: Spot, found: &mut Vec<Difference>) -> Result<(), Memory> {
        let kind = Value::Kind(self.kind);
        let other_kind = Value::Kind(other.kind);
        compare_value(at.subject, at.field(Part::Kind), kind, other_kind, found)?;
        compare_payloads(at, self.payload, other.payload, found)
    }
}

// What an edit says, where it stands there.
fn edit_values(at: Spot, edit: &Edit) -> [(Field, Value); 4]
    ensures { result ≡ edit_values at (edit_seen edit.now) }
{
    [
        number(at.field(Part::SegmentDuration), edit.segment_duration),
        signed(at.field(Part::MediaTime), edit.media_time),
        signed(at.field(Part::RateInteger), i64::from(edit.rate_integer)),
        signed(at.field(Part::RateFraction), i64::from(edit.rate_fraction)),
    ]
}

impl Entry for Edit {
    ghost differences = { λ at a b. values_differ at.subject (edit_values at (edit_seen a))
        (edit_values at (edit_seen b)) };

    fn compare(&self, other: &Self, at: Spot, found: &mut Vec<Difference>) -> Result<(), Memory> {
        let left = edit_values(at, self);
        compare_values(at.subject, &left, &edit_values(at, other), found)
    }
}

/// Adds the number of entries, where it differs, and what differs between those of one number.
pub(crate) fn compare_lists<E: Entry>(
    subject: Subject,
    list: Entries,
    left: &[E],
    right: &[E],
    found: &mut Vec<Difference>,
) -> Result<(), Memory>
    ensures { OnOk result (found.new.items ≡ found.old.items
        ++ entries_differ E.differences subject list left.now right.now) }
{
    let count = left.len() as u64;
    let others = right.len() as u64;
    compare_numbers(subject, Field::Count(list), count, others, found)?;
    for k in 0..left.len().min(right.len()) {
        let at = Spot::new(subject, list, k as u64 + 1);
        left[k].compare(&right[k], at, found)?;
    }
    Ok(())
}
