//! Standard input, read whole.
ghost use Rattle.std.specs.Prelude.{◌≡◌, ◌≤◌, IfOk, IfSome, length};

use mp4_boxes::Refusal;
use std::alloc::Global;
use std::io::{ErrorKind, Read};

/// How many bytes are read at once.
const PIECE: usize = 65_000;

/// So many bytes of room.
pub(crate) fn room(alloc: Global, len: usize) -> Result<Vec<u8>, Refusal>
    ensures { IfOk result (λ bytes. length bytes.items ≡ len) }
{
    Ok(vec![in alloc; 0u8; len]?)
}

/// All that a reader gives. More than `most` bytes, or an error, is a failed read; a read that was
/// interrupted is made again.
pub fn read_input<R: Read>(alloc: Global, reader: &mut R, most: usize) -> Result<Vec<u8>, Refusal>
    ensures limit { IfOk result (λ input. length input.items ≤ most) }
    ensures whole { IfOk result
        (λ input. IfSome (R.remaining reader.old) (λ bytes. input.items ≡ bytes)) }
{
    let mut input = Vec::new(alloc);
    let mut piece = room(alloc, PIECE)?;
    for _turn in 0..=most {
        let count = match reader.read(piece.as_mut_slice()) {
            Ok(count) => count,
            Err(error) if error.kind() == ErrorKind::Interrupted => continue,
            Err(_) => return Err(Refusal::StoreFailed),
        };
        if count == 0 {
            return Ok(input);
        }
        if count > most - input.len() {
            return Err(Refusal::StoreFailed);
        }
        input.extend_from_slice(&piece[..count])?;
    }
    Err(Refusal::StoreFailed)
}
