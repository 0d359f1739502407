//! The sum of a file: the SHA-256 of its normal form, or of its bytes.
ghost use Rattle.std.specs.Prelude.{OnOk};
ghost use Rattle.mp4_answers.specs.format.Run.{KeepsFile, look_of};
ghost use Rattle.mp4_answers.specs.format.Steps.{WorksWithin, TurnsWithin, TakesEach};
ghost use Rattle.mp4_answers.specs.format.Sums.{Summed, SumsBytes};
ghost use Rattle.mp4_present.specs.words.StoresRead.{WhereHonest};

use crate::commands::hash_sink::HashSink;
use crate::commands::normalise_reduced::normalise_reduced;
use crate::digests::DIGEST;
use crate::selection::Selection;
use mp4_boxes::{Refusal, Steps};
use mp4_present::OutBuffer;
use mp4_store::Store;
use std::alloc::Global;
use std::sync::ledger::Ledger;

/// How many bytes are hashed at once.
const ROOM: usize = 65_536;

/// The SHA-256 of the normal form of what is left of what is selected of the file. It is that of
/// what `normalise_reduced` puts, and is refused where that is.
pub fn sum_file<S: Store, L: Ledger, M: Ledger>(
    alloc: Global,
    store: &mut S,
    selection: Selection,
    steps: &mut Steps<L, M>,
) -> Result<[u8; DIGEST], Refusal>
    ensures store { KeepsFile S.Store store.old store.new }
    ensures answer { Summed selection (look_of S.Store store.old store.new) result }
    ensures work { WhereHonest S.Store store.old (λ file.
        WorksWithin selection.leaving file steps.old.passed steps.new.passed) }
    ensures least { OnOk result (WhereHonest S.Store store.old (λ file.
        TakesEach file steps.old.passed steps.new.passed)) }
    ensures looks { WhereHonest S.Store store.old
        (λ file. TurnsWithin file steps.old.looks steps.new.looks) }
{
    let mut sink = HashSink::new();
    normalise_reduced(alloc, store, &mut sink, selection, steps)?;
    Ok(sink.digest())
}

/// The SHA-256 of the bytes of a file, of which so many are held at once. What they say is not
/// looked at.
pub fn sum_bytes<S: Store>(alloc: Global, store: &mut S) -> Result<[u8; DIGEST], Refusal>
    ensures store { KeepsFile S.Store store.old store.new }
    ensures answer { SumsBytes (look_of S.Store store.old store.new) result }
{
    let mut carrier = OutBuffer::new(alloc, ROOM)?;
    let mut hashed = HashSink::new();
    let len = store.len();
    carrier.carry_range(store, 0, len, &mut hashed)?;
    carrier.flush(&mut hashed)?;
    Ok(hashed.digest())
}
