//! The words of a line.
ghost use Rattle.std.specs.Prelude.{◌≡◌, ◌≢◌, ◌==◌, ◌++◌, ◌∷◌, [], List, MatchOption, position, ℕ};
ghost use Rattle.std.specs.Option.{option_map_or};
ghost use Rattle.ps_lines.specs.Words.{after_part, after_word, first_part, first_word, parts, whole_number, words};

use ps_grid::read_digits;

/// Returns the bytes before the first space, and the bytes after that space. Without a space, returns the whole text
/// and `None`.
///
/// Cost: O(n) in the n bytes before the space.
pub fn split_word(text: &[u8]) -> (&[u8], Option<&[u8]>)
    ensures word { result.0.now ≡ first_word text.now }
    ensures words { words text.now ≡ result.0.now ∷ option_map_or (λ rest. words rest.now) result.1 [] }
    ensures after { after_word text.now ≡ option_map_or (λ rest. rest.now) result.1 [] }
    ensures whole { MatchOption result.1 (text.now ≡ result.0.now)
        (λ rest. text.now ≡ result.0.now ++ 32 ∷ rest.now) }
{
    split_part(text, b' ')
}

/// Returns the bytes before the first `separator`, and the bytes after it. Without a separator, returns the whole text
/// and `None`.
///
/// Cost: O(n) in the n bytes before the separator.
pub fn split_part(text: &[u8], separator: u8) -> (&[u8], Option<&[u8]>)
    ensures part { result.0.now ≡ first_part separator text.now }
    ensures parts { parts separator text.now
        ≡ result.0.now ∷ option_map_or (λ rest. parts separator rest.now) result.1 [] }
    ensures after { after_part separator text.now ≡ option_map_or (λ rest. rest.now) result.1 [] }
    ensures whole { MatchOption result.1 (text.now ≡ result.0.now)
        (λ rest. text.now ≡ result.0.now ++ separator ∷ rest.now) }
{
    match first_place(text, separator) {
        Some(place) => (&text[..place], Some(&text[place + 1..])),
        None => (text, None),
    }
}

/// Returns the position of the first separator.
fn first_place(text: &[u8], separator: u8) -> Option<usize>
    ensures { result ≡ position (λ b. b == separator) text.now }
{
    text.iter().position(|b| *b == separator)
}

/// Returns the rest of the text after a word and a space, if the text begins with them.
pub(crate) fn rest_after<'a>(text: &'a [u8], word: &str) -> Option<&'a [u8]>
    ensures { MatchOption result ((rest : List ℕ) → text.now ≢ word.now ++ 32 ∷ rest)
        (λ rest. text.now ≡ word.now ++ 32 ∷ rest.now) }
{
    text.strip_prefix(word.as_bytes())?.strip_prefix(b" ")
}

/// Returns the number that a word of decimal digits stands for. Returns `None` for any other word, and for a number of
/// more than 64 bits.
///
/// Cost: O(n) in the n bytes of the word.
pub fn read_whole(word: &[u8]) -> Option<u64>
    ensures { result ≡ whole_number word.now }
{
    read_digits(word)
}
