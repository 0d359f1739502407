//! The boxes in a container, one after the other.
ghost use Rattle.std.specs.Prelude.{◌≡◌, ◌+◌, ◌^◌, ◌<◌, length, drop, IsOk, IfOk, false};
ghost use Rattle.std.specs.Iterator.{YieldsFirstBy, item_count};
ghost use Rattle.mp4_boxes.specs.format.Box.{header_at, box_of};

use crate::four_cc::FourCc;
use crate::headers::read_header;
use crate::view::BoxView;
use std::marker::Model;

/// Boxes that lie end to end, in order. A clause sees those that are still to come.
#[derive(Drop)]
pub struct Children<'a> {
    pub(crate) bytes: &'a [u8],
    pub(crate) base: u64,
    pub(crate) left: usize,
}

impl<'a> Model for Children<'a> {
    ghost use Rattle.std.specs.Prelude.{◌+◌, ◌^◌, ◌<◌, List, length};
    ghost use Rattle.mp4_boxes.specs.format.Box.{Box, first_boxes, HasBoxes};

    ghost Value = { List Box };

    ghost view = { λ c. first_boxes c.left c.base c.bytes.now };

    ghost invariant = { λ c. HasBoxes c.left c.base c.bytes.now
        × (c.base + length c.bytes.now < 2 ^ 64) };
}

ghost use Rattle.mp4_boxes.specs.words.View.{box_seen};

// The box in front of the bytes, which lie at the place `base` of the file, and what follows it.
fn split_first<'a>(bytes: &'a [u8], base: u64) -> (BoxView<'a>, &'a [u8])
    requires header { IsOk (header_at false bytes.now) }
    requires fits { base + length bytes.now < 2 ^ 64 }
    ensures first { IfOk (header_at false bytes.entry.now)
        (λ h. (box_seen result.0 ≡ box_of base bytes.entry.now h)
        × (result.1.now ≡ drop h.size bytes.entry.now)) }
{
    let Ok(header) = read_header(bytes, bytes.len() as u64, false, FourCc::FILE, base) else {
        unreachable!()
    };
    let (whole, rest) = bytes.split_at(header.size as usize);
    let (_, payload) = whole.split_at(header.length as usize);
    (
        BoxView::new(header.kind, base, header.length, payload),
        rest,
    )
}

impl<'a> Iterator for Children<'a> {
    type Item = BoxView<'a>;

    ghost next_gives = { YieldsFirstBy box_seen (λ s. s) };

    ghost remaining = { item_count (λ s. s) };

    fn next(&mut self) -> Option<BoxView<'a>> {
        if self.left == 0 {
            return None;
        }
        let (first, rest) = split_first(self.bytes, self.base);
        self.base += (self.bytes.len() - rest.len()) as u64;
        self.bytes = rest;
        self.left -= 1;
        Some(first)
    }
}
