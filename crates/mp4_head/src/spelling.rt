//! Bytes that are appended: numbers, most significant byte first, and boxes.
ghost use Rattle.std.specs.Prelude.{◌≡◌, ◌+◌, ◌≤◌, ℕ, List, ◌++◌, length, OnOk};
ghost use Rattle.byteorder.specs.Endian.{big_bytes};
ghost use Rattle.mp4_boxes.specs.format.Bytes.{unsigned};
ghost use Rattle.mp4_boxes.specs.format.Written.{box_bytes};
ghost use Rattle.mp4_head.specs.words.Parts.{matrix_bytes, unsized};

use mp4_boxes::{FourCc, Memory};

pub(crate) fn put(out: &mut Vec<u8>, bytes: &[u8]) -> Result<(), Memory>
    ensures { OnOk result (out.new.items ≡ out.old.items ++ bytes.now) }
{
    match out.extend_from_slice(bytes) {
        Ok(()) => Ok(()),
        Err(_) => Err(Memory),
    }
}

pub(crate) fn put_u16(out: &mut Vec<u8>, number: u16) -> Result<(), Memory>
    ensures { OnOk result (out.new.items ≡ out.old.items ++ big_bytes 2 number) }
{
    put(out, &number.to_be_bytes())
}

pub(crate) fn put_u32(out: &mut Vec<u8>, number: u32) -> Result<(), Memory>
    ensures { OnOk result (out.new.items ≡ out.old.items ++ big_bytes 4 number) }
{
    put(out, &number.to_be_bytes())
}

pub(crate) fn put_u64(out: &mut Vec<u8>, number: u64) -> Result<(), Memory>
    ensures { OnOk result (out.new.items ≡ out.old.items ++ big_bytes 8 number) }
{
    put(out, &number.to_be_bytes())
}

pub(crate) fn put_i16(out: &mut Vec<u8>, number: i16) -> Result<(), Memory>
    ensures { OnOk result (out.new.items ≡ out.old.items ++ big_bytes 2 (unsigned 2 number)) }
{
    put_u16(out, number.cast_unsigned())
}

pub(crate) fn put_i32(out: &mut Vec<u8>, number: i32) -> Result<(), Memory>
    ensures { OnOk result (out.new.items ≡ out.old.items ++ big_bytes 4 (unsigned 4 number)) }
{
    put_u32(out, number.cast_unsigned())
}

pub(crate) fn put_i64(out: &mut Vec<u8>, number: i64) -> Result<(), Memory>
    ensures { OnOk result (out.new.items ≡ out.old.items ++ big_bytes 8 (unsigned 8 number)) }
{
    put_u64(out, number.cast_unsigned())
}

// The low 32 bits of a length or a count; a `moov` within its limit has no larger ones.
pub(crate) fn put_length(out: &mut Vec<u8>, length: usize) -> Result<(), Memory>
    ensures { OnOk result (out.new.items ≡ out.old.items ++ big_bytes 4 length) }
{
    let bytes = (length as u64).to_be_bytes();
    put(out, &bytes[4..])
}

pub(crate) fn put_matrix(out: &mut Vec<u8>, matrix: &[i32; 9]) -> Result<(), Memory>
    ensures { OnOk result (out.new.items ≡ out.old.items ++ matrix_bytes matrix.now) }
{
    for number in matrix {
        put_i32(out, *number)?;
    }
    Ok(())
}

// A box with this payload.
pub(crate) fn put_box(out: &mut Vec<u8>, kind: FourCc, payload: &[u8]) -> Result<(), Memory>
    ensures { OnOk result (out.new.items ≡ out.old.items ++ box_bytes kind.0 payload.now) }
{
    put_length(out, payload.len() + 8)?;
    put(out, &kind.0)?;
    put(out, payload)
}

// Begins a box whose size is not known yet.
pub(crate) fn open_box(out: &mut Vec<u8>, kind: FourCc) -> Result<(), Memory>
    ensures { OnOk result (out.new.items ≡ out.old.items ++ unsized kind.0) }
{
    put(out, &[0, 0, 0, 0])?;
    put(out, &kind.0)
}

// Ends the box that was begun at this place.
pub(crate) fn close_box(out: &mut Vec<u8>, at: usize)
    requires { at + 8 ≤ length out.old.items }
    ensures { (before kind payload : List ℕ) → length before ≡ at → length kind ≡ 4
        → out.old.items ≡ before ++ (unsized kind ++ payload)
        → out.new.items ≡ before ++ box_bytes kind payload }
{
    let bytes = ((out.len() - at) as u64).to_be_bytes();
    out[at] = bytes[4];
    out[at + 1] = bytes[5];
    out[at + 2] = bytes[6];
    out[at + 3] = bytes[7];
}
