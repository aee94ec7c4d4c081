//! Words that are meant as the name of a cell.

use ps_grid::Cell;

/// Returns the letters and the digits of a word that is letters and then digits, perhaps with a `$` before each.
/// Returns `None` for any other word.
fn parts_of(word: &[u8]) -> Option<(&[u8], &[u8])> {
    let word = word.strip_prefix(b"$").unwrap_or(word);
    let letters = word
        .iter()
        .take_while(|byte| byte.is_ascii_alphabetic())
        .count();
    let (letters, rest) = word.split_at(letters);
    let digits = rest.strip_prefix(b"$").unwrap_or(rest);
    if letters.is_empty() || digits.is_empty() || !digits.iter().all(|byte| byte.is_ascii_digit()) {
        return None;
    }
    Some((letters, digits))
}

/// Returns whether a word is meant as a cell's name, in the grid or outside: one to three letters, then digits.
pub(crate) fn is_meant_as_cell(word: &[u8]) -> bool {
    match parts_of(word) {
        Some((letters, _)) => letters.len() <= 3,
        None => false,
    }
}

/// Returns whether a word names a cell of the grid, in letters of any case and with or without `$`.
pub(crate) fn is_nearly_cell(word: &[u8]) -> bool {
    let Some((letters, digits)) = parts_of(word) else {
        return false;
    };
    match letters {
        [only] => Cell::named(&[only.to_ascii_uppercase()], digits).is_some(),
        [first, last] => {
            let capitals = [first.to_ascii_uppercase(), last.to_ascii_uppercase()];
            Cell::named(&capitals, digits).is_some()
        }
        _ => false,
    }
}

/// Returns whether a word is a cell's name as references have it: in capitals, perhaps with a `$` before the letters
/// and before the digits.
pub(crate) fn is_corner(word: &[u8]) -> bool {
    is_nearly_cell(word) && !word.iter().any(|byte| byte.is_ascii_lowercase())
}
