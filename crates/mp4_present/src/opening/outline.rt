//! Where the parts of a file lie, by its top-level headers alone.
ghost use Rattle.std.specs.Prelude.{◌≡◌, ℕ, ◌+◌, ◌≤◌, ◌++◌, ◌∷◌, [], length, bytes_eq, IfOk, IfSome, IsTrue};
ghost use Rattle.mp4_boxes.specs.declared.rule.Rule.TheVariants.{File};
ghost use Rattle.mp4_boxes.specs.format.FirstFault.{FirstNamed, naming, top_tests};
ghost use Rattle.mp4_present.specs.words.TopJudged.{NamesTop};
ghost use Rattle.mp4_present.specs.words.Movies.{IsWhole};
ghost use Rattle.mp4_present.specs.words.Reading.{top_box};
ghost use Rattle.mp4_present.specs.words.ToOpen.{WhereSeen};
ghost use Rattle.mp4_present.specs.words.Outline.{AreIn, AreSeen};
ghost use Rattle.mp4_present.specs.words.Refusing.{RefusesSearch};
ghost use Rattle.mp4_present.specs.words.Opening.{HasOutline};
ghost use Rattle.mp4_present.specs.words.StoresRead.{OnlyReads, RefusedOf};

use crate::own_trafs::push_spared;
use crate::reading::{TopBox, read_top_header};
use mp4_boxes::{Fault, FourCc, Kind, Refusal, Rule, TopHeader};
use mp4_store::Store;
use std::alloc::Global;

pub(crate) const MOOF: FourCc = FourCc(*b"moof");

/// What some first headers of a file say.
#[derive(Clone, Copy, Debug, PartialEq, Eq)]
pub(crate) struct Seen {
    pub moov: Option<TopBox>,
    /// The length of the longest `moof`, 0 where there is none.
    pub longest: u64,
}

/// Where the `moov` and the `moof`s of a file lie.
#[derive(Drop)]
pub(crate) struct Outline {
    pub moov: TopBox,
    /// Where the `moof`s begin, in file order: 8 bytes for each, with room for an eighth more.
    pub moofs: Vec<u64>,
    /// The length of the longest `moof`, 0 where there is none.
    pub longest: u64,
}

/// Whether a type is this one.
pub(crate) fn is(kind: FourCc, name: FourCc) -> bool
    ensures { result ≡ bytes_eq name.0 kind.0 }
{
    name == kind
}

// What the headers say with one more, at the place `at`.
fn note(seen: Seen, at: u64, header: TopHeader) -> Result<Seen, Fault>
    requires { at + header.header ≤ header.end }
    ensures within { IfOk result (λ s. (len : ℕ) → header.end ≤ len → IfSome seen.moov (IsWhole len)
        → IfSome s.moov (IsWhole len)) }
    ensures noted { WhereSeen at header seen (λ file boxes.
        IfOk result (AreSeen file (boxes ++ top_box file at header ∷ []))) }
    ensures exact { WhereSeen at header seen (λ file boxes. FirstNamed
        (naming (top_box file at header) (top_tests boxes header.kind.0)) result) }
{
    if !Rule::File.allows(header.kind) {
        return Err(Fault::new(Kind::BoxNotInProfile, header.kind, at));
    }
    let top = TopBox { offset: at, header };
    if is(header.kind, FourCc(*b"moov")) {
        return match seen.moov {
            Some(_) => Err(Fault::new(Kind::DuplicateBox, header.kind, at)),
            None => Ok(Seen {
                moov: Some(top),
                ..seen
            }),
        };
    }
    if !is(header.kind, MOOF) {
        return Ok(seen);
    }
    if seen.moov.is_none() {
        return Err(Fault::new(Kind::FragmentBeforeMovie, header.kind, at));
    }
    Ok(Seen {
        moov: seen.moov,
        longest: seen.longest.max(header.end - at),
    })
}

/// Reads the headers of a file's own boxes, each by one read of at most 16 bytes.
pub(crate) fn read_outline<S: Store>(alloc: Global, store: &mut S) -> Result<Outline, Refusal>
    ensures store { OnlyReads S.Store store.old store.new result }
    ensures outline { IfOk result (HasOutline (S.is_honest store.old) (S.file store.old)) }
    ensures within { IfOk result (λ o. IsWhole (length (S.file store.old)) o.moov
        × AreIn (length (S.file store.old)) o.moofs.items) }
    ensures refusal { RefusedOf S.Store store.old store.new result
        (λ honest file. RefusesSearch honest) }
    ensures exact { IsTrue (S.is_honest store.old) → NamesTop (S.file store.old) result }
{
    let len = store.len();
    let mut seen = Seen {
        moov: None,
        longest: 0,
    };
    let mut moofs = Vec::new(alloc);
    let mut at = 0;
    while at < len {
        let header = read_top_header(store, at)?;
        seen = note(seen, at, header)?;
        if is(header.kind, MOOF) {
            push_spared(&mut moofs, at)?;
        }
        at = header.end;
    }
    let Some(moov) = seen.moov else {
        let fault = Fault::new(Kind::MissingBox, FourCc::FILE, 0);
        return Err(Refusal::Fault(fault));
    };
    Ok(Outline {
        moov,
        moofs,
        longest: seen.longest,
    })
}
