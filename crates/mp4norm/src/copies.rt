//! What is read as the copy of it in which the boxes that the profile refuses are free space.
ghost use Rattle.std.specs.Prelude.{◌≡◌, ◌∷◌, [], None, false, true, IfErr, IfOk, IfSome, Ok};
ghost use Rattle.mp4_answers.specs.format.Run.{KeepsFile};
ghost use Rattle.mp4_answers.specs.format.Losses.{loss_refusal, IsFirstLost};
ghost use Rattle.mp4_answers.specs.format.Strips.{IsStripped};
ghost use Rattle.mp4_answers.specs.declared.box_names.Name.TheVariants.{Foreign};
ghost use Rattle.mp4_present.specs.words.StoresRead.{WhereHonest};
ghost use Rattle.mp4norm.specs.format.Runs.{RefusesCopy};

use crate::running::{KeptStore, settled};
use crate::shell::action::Freeing;
use mp4_answers::commands::stripped_store::{WithoutForeign, read_without_foreign};
use mp4_boxes::Refusal;
use mp4_store::{LaidStore, Store};
use std::alloc::Global;

/// What is found of boxes that the profile refuses, where they are asked for.
pub(crate) type Freed = Result<Option<WithoutForeign>, Refusal>;

/// What is read, as the copy that `strip --foreign` makes of it where that is asked for, unless
/// something is lost which may not be; and what is found of such boxes.
pub(crate) fn read_as_asked<S: KeptStore>(
    alloc: Global,
    freeing: Freeing,
    store: S,
) -> (LaidStore<S>, Freed)
    ensures below { KeepsFile S.Store store result.0.0 }
    ensures asked { freeing.foreign ≡ true → IfOk result.1 (λ w. w ≡ None → ⊥) }
    ensures as_it_is { freeing.foreign ≡ false → (result.1 ≡ Ok None)
        × (⟦<LaidStore<S> as Store>⟧.file result.0 ≡ S.file store) }
    ensures lost { IfOk result.1 (λ w. IfSome w (λ w. WhereHonest S.Store store
        (λ file. IsFirstLost (Foreign ∷ []) file w.found.first_loss))) }
    ensures refused { IfOk result.1 (λ w. IfSome w (λ w.
        w.refusal ≡ loss_refusal freeing.lossy w.found.first_loss)) }
    ensures copy { IfOk result.1 (λ w. IfSome w (λ w. w.refusal ≡ None
        → WhereHonest S.Store store (λ file.
        IsStripped (Foreign ∷ []) file (⟦<LaidStore<S> as Store>⟧.file result.0)))) }
    ensures unread { IfOk result.1 (λ w. IfSome w (λ w. IfSome w.refusal
        (λ _. ⟦<LaidStore<S> as Store>⟧.file result.0 ≡ S.file store))) }
    ensures refusal { IfErr result.1
        (RefusesCopy S.Store (S.may_change result.0.0) store result.0.0) }
{
    if !freeing.foreign {
        return (LaidStore::plain(alloc, store), Ok(None));
    }
    let (store, found) = read_without_foreign(alloc, freeing.lossy, store);
    let freed = match settled(&store, found) {
        Ok(found) => Ok(Some(found)),
        Err(refusal) => Err(refusal),
    };
    (store, freed)
}
