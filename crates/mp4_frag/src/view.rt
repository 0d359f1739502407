//! A `moof` that was checked.
use mp4_boxes::BoxView;

/// A `moof` that was accepted behind what came before it.
#[derive(Clone, Copy)]
pub struct FragView<'a> {
    moof: BoxView<'a>,
}

impl<'a> FragView<'a> {
    ghost use Rattle.std.specs.Prelude.{◌≡◌};
    ghost use Rattle.mp4_boxes.specs.words.View.{box_seen};
    ghost use Rattle.mp4_frag.specs.words.FragmentsSeen.{moof_seen};

    /// The view of a `moof` that was accepted before: the check accepted just these bytes, at this
    /// place. It takes no step and no memory.
    pub fn again(moof: BoxView<'a>) -> FragView<'a>
        ensures { moof_seen result ≡ box_seen moof.entry }
    {
        FragView { moof }
    }

    /// The `moof`.
    pub fn moof(&self) -> BoxView<'a>
        ensures { box_seen result ≡ moof_seen self.now }
    {
        self.moof
    }
}
