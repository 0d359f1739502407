//! What is looked at of a file.
use mp4_content::Without;

/// Which tracks of a file are looked at: all, or that with this ID alone (8.3.2); and what of them
/// doesn't count.
#[derive(Clone, Copy)]
pub struct Selection {
    pub track: Option<u32>,
    pub leaving: Without,
}

impl Selection {
    ghost use Rattle.std.specs.Prelude.{◌≡◌};
    ghost use Rattle.mp4_answers.specs.format.Selected.{whole};

    /// All tracks are looked at.
    pub fn whole(leaving: Without) -> Selection
        ensures { result ≡ whole leaving }
    {
        Selection {
            track: None,
            leaving,
        }
    }
}
