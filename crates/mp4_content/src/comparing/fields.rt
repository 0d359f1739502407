//! Single values, compared. What differs is added to a list.
ghost use Rattle.std.specs.Prelude.{◌≡◌, ◌<◌, ◌++◌, length, IfSome, OnOk};
ghost use Rattle.mp4_content.specs.format.Differences.{differ, same_value, numbers_differ, first_unequal, matrix_differences};
ghost use Rattle.mp4_content.specs.declared.comparing.differences.Value.TheVariants as values;
ghost use Rattle.mp4_content.specs.words.Differing.{values_differ};

use crate::comparing::differences::{Difference, Field, Subject, Value};
use mp4_boxes::Memory;

// Whether two values are the same.
fn are_same(left: Value, right: Value) -> bool
    ensures { result ≡ same_value left right }
{
    match (left, right) {
        (Value::Number(number), Value::Number(other)) => number == other,
        (Value::Signed(number), Value::Signed(other)) => number == other,
        (Value::Kind(kind), Value::Kind(other)) => kind == other,
        (Value::Byte(byte), Value::Byte(other)) => byte == other,
        _ => false,
    }
}

// Adds a value, where it differs.
#[tactic(auto, unfolding(crate::specs::format::Differences::differ))]
pub(crate) fn compare_value(
    subject: Subject,
    field: Field,
    left: Value,
    right: Value,
    found: &mut Vec<Difference>,
) -> Result<(), Memory>
    ensures { OnOk result (found.new.items ≡ found.old.items ++ differ subject field left right) }
{
    if are_same(left, right) {
        return Ok(());
    }
    let difference = Difference {
        subject,
        field,
        left,
        right,
    };
    found.push(difference).map_err(|_| Memory)
}

// A number of a field.
pub(crate) fn number(field: Field, number: u64) -> (Field, Value)
    ensures { result ≡ (field, values.Number number) }
{
    (field, Value::Number(number))
}

// A number of a field that may be negative.
pub(crate) fn signed(field: Field, number: i64) -> (Field, Value)
    ensures { result ≡ (field, values.Signed number) }
{
    (field, Value::Signed(number))
}

// Adds each value that differs, of two lists of the same fields.
pub(crate) fn compare_values(
    subject: Subject,
    left: &[(Field, Value)],
    right: &[(Field, Value)],
    found: &mut Vec<Difference>,
) -> Result<(), Memory>
    ensures { OnOk result (found.new.items ≡ found.old.items
        ++ values_differ subject left.now right.now) }
{
    for k in 0..left.len().min(right.len()) {
        let (field, value) = left[k];
        let (_, other) = right[k];
        compare_value(subject, field, value, other, found)?;
    }
    Ok(())
}

// Adds a number, where it differs.
pub(crate) fn compare_numbers(
    subject: Subject,
    field: Field,
    left: u64,
    right: u64,
    found: &mut Vec<Difference>,
) -> Result<(), Memory>
    ensures { OnOk result (found.new.items ≡ found.old.items
        ++ numbers_differ subject field left right) }
{
    let (_, value) = number(field, left);
    let (_, other) = number(field, right);
    compare_value(subject, field, value, other, found)
}

// Where bytes of one number first differ, and both of them.
pub(crate) fn first_unequal(left: &[u8], right: &[u8]) -> Option<(usize, u8, u8)>
    requires { length right.now ≡ length left.now }
    ensures found { result ≡ first_unequal 0 left.now right.now }
    ensures within { IfSome result (λ f. f.0 < length left.now) }
{
    if left == right {
        return None;
    }
    for place in 0..left.len() {
        let byte = left[place];
        let other = right[place];
        if byte != other {
            return Some((place, byte, other));
        }
    }
    None
}

// Adds each number of a matrix that differs.
pub(crate) fn compare_matrices(
    subject: Subject,
    left: [i32; 9],
    right: [i32; 9],
    found: &mut Vec<Difference>,
) -> Result<(), Memory>
    ensures { OnOk result (found.new.items ≡ found.old.items
        ++ matrix_differences subject left right) }
{
    for k in 0..9usize {
        let (field, value) = signed(Field::Matrix(k as u64 + 1), i64::from(left[k]));
        let other = Value::Signed(i64::from(right[k]));
        compare_value(subject, field, value, other, found)?;
    }
    Ok(())
}
