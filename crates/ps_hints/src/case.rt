//! Texts in another case.

use std::fmt;

/// A text that is displayed with its ASCII letters in capitals.
#[derive(Clone, Copy)]
pub(crate) struct Capitals<'a>(pub(crate) &'a str);

impl fmt::Display for Capitals<'_> {
    fn fmt<W: fmt::Write>(&self, f: &mut fmt::Formatter<W>) -> fmt::Result {
        for character in self.0.chars() {
            f.write_char(character.to_ascii_uppercase())?;
        }
        Ok(())
    }
}

/// A text that is displayed with its ASCII letters in lower case.
#[derive(Clone, Copy)]
pub(crate) struct Small<'a>(pub(crate) &'a str);

impl fmt::Display for Small<'_> {
    fn fmt<W: fmt::Write>(&self, f: &mut fmt::Formatter<W>) -> fmt::Result {
        for character in self.0.chars() {
            f.write_char(character.to_ascii_lowercase())?;
        }
        Ok(())
    }
}
