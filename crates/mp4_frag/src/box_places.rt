//! Boxes of a payload by their places in it.
ghost use Rattle.std.specs.Prelude.{◌≡◌, ◌+◌, ◌-◌, ◌<◌, ◌≤◌, ◌∷◌, [], length, None, IfSome};
ghost use Rattle.mp4_frag.specs.words.PlacesIn.{box_in};
ghost use Rattle.mp4_frag.specs.words.Walks.{boxes_between};

use mp4_boxes::{FourCc, box_header};

/// A box among others: where its payload begins, and where it ends.
#[derive(Clone, Copy)]
pub(crate) struct Lying {
    pub(crate) kind: FourCc,
    pub(crate) inside: usize,
    pub(crate) end: usize,
}

/// The box at a place, among boxes that go to `end`, if its header can be read.
pub(crate) fn box_at(payload: &[u8], at: usize, end: usize) -> Option<Lying>
    requires some { at < end }
    requires within { end ≤ length payload.now }
    ensures order { IfSome result (λ b. (at < b.inside) × (b.inside ≤ b.end) × (b.end ≤ end)) }
    ensures some { IfSome result (λ b. boxes_between payload.now at end
        ≡ box_in payload.now at b ∷ boxes_between payload.now b.end end) }
    ensures none { result ≡ None → boxes_between payload.now at end ≡ [] }
{
    let left = (end - at) as u64;
    let Ok(header) = box_header(&payload[at..end], at as u64, left, false, FourCc::FILE) else {
        return None;
    };
    Some(Lying {
        kind: header.kind,
        inside: at + usize::from(header.header),
        end: header.end as usize,
    })
}
