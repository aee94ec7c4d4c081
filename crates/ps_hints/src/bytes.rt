//! Tests of bytes, and parts of texts.

/// Returns whether a byte is a blank, which a formula may have between its parts.
pub(crate) fn is_blank(byte: u8) -> bool {
    byte == b' ' || byte == b'\t' || byte == b'\n' || byte == b'\r'
}

/// Returns whether a byte belongs to a word of a formula: a letter, a digit, or one of `$` and `_`.
pub(crate) fn is_of_word(byte: u8) -> bool {
    byte.is_ascii_alphanumeric() || byte == b'$' || byte == b'_'
}

/// Returns the last byte that is no blank.
pub(crate) fn last_filled(text: &[u8]) -> Option<u8> {
    let mut last = None;
    for byte in text {
        if !is_blank(*byte) {
            last = Some(*byte);
        }
    }
    last
}

/// Returns the first byte that is no blank.
pub(crate) fn first_filled(text: &[u8]) -> Option<u8> {
    for byte in text {
        if !is_blank(*byte) {
            return Some(*byte);
        }
    }
    None
}

/// Returns the bytes as a text, or `None` if they aren't UTF-8.
pub(crate) fn text_of(bytes: &[u8]) -> Option<&str> {
    str::from_utf8(bytes).ok()
}

/// Returns the first character as a text, or `None` if the bytes don't begin with one of UTF-8.
pub(crate) fn first_character(bytes: &[u8]) -> Option<&str> {
    for length in 1..5 {
        if let Some(front) = bytes.get(..length) {
            if let Some(text) = text_of(front) {
                return Some(text);
            }
        }
    }
    None
}
