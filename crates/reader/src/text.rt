//! How a text is cut into lines and words, and how a word is read as a number.
ghost use Rattle.std.specs.Prelude.{◌≡◌, ◌^◌, ◌<◌, ◌∷◌, ◌++◌, MatchOption};
ghost use Rattle.std.specs.Option.{SomeIff};
ghost use Rattle.std.specs.Str.Parse.{AllDigits, digits_value};
ghost use Rattle.reader.specs.Lines.{Free, Cut, Reads, number_form, NoField, Field};

/// What stands before the first `mark`, and what stands behind it; nothing where there is no mark.
pub(crate) fn cut(bytes: &[u8], mark: u8) -> Option<(&[u8], &[u8])>
    ensures { MatchOption result (Free mark bytes.now) (λ p. Cut mark bytes.now p.0.now p.1.now) }
{
    let at = bytes.iter().position(|b| *b == mark)?;
    Some((&bytes[..at], &bytes[at + 1..]))
}

/// A number in base ten without leading zeros, up to 4,294,967,295.
pub(crate) fn number(word: &[u8]) -> Option<u32>
    ensures { Reads number_form word.now result }
{
    match word {
        [] | [b'0', _, ..] => None,
        _ => digits_value(word),
    }
}

/// The value of a row of digits, where it fits 32 bits.
// Not `str::parse`, before which each word would be tested for UTF-8: with it the program ran half as many instructions again on a file of short words.
fn digits_value(word: &[u8]) -> Option<u32>
    ensures { SomeIff result (AllDigits 10 word.now × (digits_value 10 word.now < 2 ^ 32)) (digits_value 10 word.now) }
{
    let mut value = 0u32;
    for b in word {
        let digit = char::from(*b).to_digit(10)?;
        value = value.checked_mul(10)?.checked_add(digit)?;
    }
    Some(value)
}

/// A number with one space behind it, and what follows.
pub(crate) fn field(line: &[u8]) -> Option<(u32, &[u8])>
    ensures { MatchOption result (NoField line.now) (λ p. Field line.now p.0 p.1.now) }
{
    let (word, rest) = cut(line, b' ')?;
    Some((number(word)?, rest))
}
