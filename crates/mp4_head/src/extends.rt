//! `mvex` and `trex`: what fragments take where they say nothing (ISO/IEC 14496-12, 8.8.1 and
//! 8.8.3).
ghost use Rattle.std.specs.Prelude.{◌≡◌, ℕ, suc, List, IfOk, MatchResult, None, Some};
ghost use Rattle.mp4_boxes.specs.format.Layout.{trex};
ghost use Rattle.mp4_boxes.specs.format.Places.{ruled};
ghost use Rattle.mp4_boxes.specs.words.View.{box_seen};
ghost use Rattle.mp4_boxes.specs.format.FirstFault.{leaf_fault};
ghost use Rattle.mp4_boxes.specs.declared.rule.Rule.TheVariants as rules;
ghost use Rattle.mp4_frag.specs.format.Fragments.{trex_of};
ghost use Rattle.mp4_head.specs.words.Containers.{SaysExtends};
ghost use Rattle.mp4_head.specs.format.FirstFault.{fault_within};
ghost use Rattle.mp4_head.specs.words.FaultNamed.{NamesRefused};
ghost use Rattle.mp4_head.specs.words.Refuses.{place_of};

use crate::leaves::{is, open};
use mp4_boxes::{BoxView, Fault, FourCc, Kind, Refusal, Rule, check_children, u32_at};
use mp4_frag::Trex;
use std::alloc::Global;
use std::collections::BTreeSet;

fn read_trex(view: BoxView) -> Result<Trex, Fault>
    ensures says { IfOk result (λ t. t ≡ trex_of (box_seen view.entry).payload) }
    ensures exact { MatchResult result (λ h. leaf_fault trex (box_seen view.entry) ≡ None)
        (λ f. leaf_fault trex (box_seen view.entry) ≡ Some f) }
{
    open(view, 0, 24, 0)?;
    let payload = view.payload();
    Ok(Trex {
        id: u32_at(payload, 4),
        description: u32_at(payload, 8),
        duration: u32_at(payload, 12),
        size: u32_at(payload, 16),
        flags: u32_at(payload, 20),
    })
}

// The `trex` of a `mvex`, of which no two have one ID. A `mehd` is not read.
pub(crate) fn read_extends(alloc: Global, mvex: BoxView) -> Result<Vec<Trex>, Refusal>
    ensures says { IfOk result (λ ts. SaysExtends (box_seen mvex.entry) ts.items) }
    ensures exact { (n : ℕ) (ids : List ℕ) → NamesRefused (fault_within (suc n) ids
        (place_of (ruled rules.MovieExtends) (box_seen mvex.entry))) result }
{
    let mut trexes = Vec::new(alloc);
    let mut ids = BTreeSet::new(alloc);
    for child in check_children(mvex, Rule::MovieExtends)? {
        if is(child, FourCc(*b"trex")) {
            let trex = read_trex(child)?;
            if !ids.insert(trex.id)? {
                return Err(Refusal::from(child.fault(Kind::BadValue)));
            }
            trexes.push(trex)?;
        }
    }
    Ok(trexes)
}
