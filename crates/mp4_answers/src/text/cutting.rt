//! Words in lists, and bytes that two hexadecimal digits spell.
ghost use Rattle.std.specs.Prelude.{◌≡◌, ◌<◌, length, option_map, IfSome};
ghost use Rattle.mp4_answers.specs.format.WordLists.{IsCut};
ghost use Rattle.mp4_answers.specs.words.SpelledNames.{byte_spelled};

/// The byte that two hexadecimal digits spell, small or capital; none where one is no digit.
pub fn byte_of(high: u8, low: u8) -> Option<u8>
    ensures { result ≡ byte_spelled high low }
{
    let high = char::from(high).to_digit(16)?;
    let low = char::from(low).to_digit(16)?;
    Some((16 * high + low) as u8)
}

/// What stands before the first such byte, and what stands behind it, if it is there.
pub fn cut(word: &[u8], at: u8) -> (&[u8], Option<&[u8]>)
    ensures parts { IsCut at word.now result.0.now (option_map (λ rest. rest.now) result.1) }
    ensures shorter { IfSome result.1 (λ rest. length rest.now < length word.now) }
{
    for k in 0..word.len() {
        if word[k] == at {
            let (front, rest) = word.split_at(k);
            let (_, rest) = rest.split_at(1);
            return (front, Some(rest));
        }
    }
    (word, None)
}
