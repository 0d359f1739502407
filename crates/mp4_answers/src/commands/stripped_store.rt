//! A store that is read as the copy of its file in which some boxes are free space.
ghost use Rattle.std.specs.Prelude.{◌≡◌, ◌≤◌, length, [], ◌∷◌, codes, None, IfOk, IfSome, MatchResult, OnOk};
ghost use Rattle.mp4_store.specs.words.LaidWords.{laid, ArePlaces};
ghost use Rattle.mp4_answers.specs.declared.box_names.Name.TheVariants.{Foreign};
ghost use Rattle.mp4_answers.specs.format.Losses.{loss_refusal, IsFirstLost};
ghost use Rattle.mp4_answers.specs.format.Strips.{IsStripped, RefusesLook};
ghost use Rattle.mp4_answers.specs.words.FreedPlaces.{AddsFreed};
ghost use Rattle.mp4_answers.specs.words.StripSpans.{RefusesFindAt};
ghost use Rattle.mp4_present.specs.words.StoresRead.{OnlyReads, RefusedOf, WhereHonest, WhereRead};

use crate::box_names::{Name, is_named};
use crate::commands::boxes::{BoxSpan, rule_inside, whole_file};
use crate::commands::freed_boxes::{FreedBoxes, find_freed};
use crate::commands::strip::{find, read_headers};
use crate::commands::strip_lines::loss_refusal;
use mp4_boxes::Refusal;
use mp4_store::{LaidStore, Store};
use std::alloc::Global;

// Walks over the boxes of a container and of the containers in it, but for those that are named,
// and adds the places of their types. The headers of all boxes of a container are read before those
// of boxes in them, as where boxes are listed.
fn place_boxes<S: Store>(
    names: &[Name],
    span: BoxSpan,
    store: &mut S,
    places: &mut Vec<u64>,
) -> Result<(), Refusal>
    requires span { span.from ≤ span.end }
    requires within { span.end ≤ length (S.file store.old) }
    ensures store { OnlyReads S.Store store.old store.new result }
    ensures places { OnOk result (AddsFreed names.now span.rule span.from span.end
        (S.is_honest store.old) (S.file store.old) places.old.items places.new.items) }
    ensures refusal { RefusedOf S.Store store.old store.new result
        (RefusesFindAt names.now span.rule span.from span.end) }
{
    read_headers(names, span, store)?;
    let mut at = span.from;
    while at < span.end {
        let found = find(store, span.rule, at, span.end)?;
        let header = found.header;
        if is_named(names, span.rule, found.full_type()) {
            places.push(at + 4)?;
        } else if let Some(inner) = rule_inside(span.rule, header.kind) {
            let inside = BoxSpan {
                rule: inner,
                from: at + u64::from(header.header),
                end: header.end,
            };
            place_boxes(names, inside, store, places)?;
        }
        at = header.end;
    }
    Ok(())
}

// The places of the types of the boxes that `strip` makes free space, 8 bytes of memory for each.
// With `free` at these places the file is the copy that `strip` puts.
fn freed_places<S: Store>(alloc: Global, store: &mut S, names: &[Name]) -> Result<Vec<u64>, Refusal>
    ensures store { OnlyReads S.Store store.old store.new result }
    ensures places { IfOk result (λ places. ArePlaces (length (S.file store.old)) places.items) }
    ensures copy { WhereRead S.Store store.old result
        (λ file places. IsStripped names.now file (laid (codes "free") places.items file)) }
    ensures lost { WhereRead S.Store store.old result
        (λ file places. places.items ≡ [] → IsFirstLost names.now file None) }
    ensures refusal { RefusedOf S.Store store.old store.new result (RefusesLook names.now) }
{
    let mut places = Vec::new(alloc);
    let span = whole_file(store.len());
    place_boxes(names, span, store, &mut places)?;
    Ok(places)
}

// The places of boxes that the profile refuses, and what is told of them.
#[derive(Drop)]
struct Looked {
    places: Vec<u64>,
    found: FreedBoxes,
}

// Looks for the boxes of a file that the profile refuses.
fn look_for_foreign<S: Store>(alloc: Global, store: &mut S) -> Result<Looked, Refusal>
    ensures store { OnlyReads S.Store store.old store.new result }
    ensures places { IfOk result (λ looked.
        ArePlaces (length (S.file store.old)) looked.places.items) }
    ensures copy { WhereRead S.Store store.old result (λ file looked.
        IsStripped (Foreign ∷ []) file (laid (codes "free") looked.places.items file)) }
    ensures lost { WhereRead S.Store store.old result
        (λ file looked. IsFirstLost (Foreign ∷ []) file looked.found.first_loss) }
    ensures refusal { RefusedOf S.Store store.old store.new result
        (RefusesLook (Foreign ∷ [])) }
{
    let names = [Name::Foreign];
    let places = freed_places(alloc, store, &names)?;
    let found = if places.is_empty() {
        FreedBoxes::none(alloc)
    } else {
        find_freed(alloc, store, &names)?
    };
    Ok(Looked { places, found })
}

/// What is found of the boxes of a file that the profile refuses, and why the file isn't read
/// without them: something is lost with one.
#[derive(Drop)]
pub struct WithoutForeign {
    pub found: FreedBoxes,
    pub refusal: Option<Refusal>,
}

/// A store that is read as the copy of its file that `strip --foreign` puts, in which the boxes
/// that the profile refuses are free space; where something is lost with one, only if that is
/// allowed. So what is answered of it is answered of the copy. For each such box 8 bytes of memory
/// are taken. A walk is made over the headers, and a second one where there are such boxes.
///
/// # Errors
/// A header that is looked at can't be read, a read failed, or there is no memory. Then, and where
/// something is lost, the store is read as it is.
pub fn read_without_foreign<S: Store>(
    alloc: Global,
    is_lossy: bool,
    store: S,
) -> (LaidStore<S>, Result<WithoutForeign, Refusal>)
    ensures below { OnlyReads S.Store store result.0.0 result.1 }
    ensures lost { WhereRead S.Store store result.1
        (λ file w. IsFirstLost (Foreign ∷ []) file w.found.first_loss) }
    ensures refused { IfOk result.1 (λ w.
        w.refusal ≡ loss_refusal is_lossy w.found.first_loss) }
    ensures copy { IfOk result.1 (λ w. w.refusal ≡ None → WhereHonest S.Store store
        (λ file. IsStripped (Foreign ∷ []) file (⟦<LaidStore<S> as Store>⟧.file result.0))) }
    ensures unread { MatchResult result.1
        (λ w. IfSome w.refusal (λ _. ⟦<LaidStore<S> as Store>⟧.file result.0 ≡ S.file store))
        (λ _. ⟦<LaidStore<S> as Store>⟧.file result.0 ≡ S.file store) }
    ensures refusal { RefusedOf S.Store store result.0.0 result.1 (RefusesLook (Foreign ∷ [])) }
{
    let mut store = store;
    let Looked { places, found } = match look_for_foreign(alloc, &mut store) {
        Ok(looked) => looked,
        Err(refusal) => return (LaidStore::plain(alloc, store), Err(refusal)),
    };
    let refusal = loss_refusal(&found, is_lossy);
    let store = match refusal {
        None => LaidStore::new(store, *b"free", places),
        Some(_) => LaidStore::plain(alloc, store),
    };
    (store, Ok(WithoutForeign { found, refusal }))
}
