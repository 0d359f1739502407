//! How the samples of a track are listed.
ghost use Rattle.std.specs.Prelude.{◌≡◌};
ghost use Rattle.mp4_answers.specs.format.Texts.{listing_head};

use crate::jobs::Form;

/// The names of the columns of a plain line, and its line feed.
const NAMES: &[u8] = b"number decode_time composition_time duration flags description size\n";

/// What stands before the lines.
pub(crate) fn head_of(form: Form) -> &'static [u8]
    ensures { result.now ≡ listing_head form }
{
    match form {
        Form::Plain | Form::Json => b"",
        Form::Named => NAMES,
    }
}
