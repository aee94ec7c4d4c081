//! Canonical texts: how replicas and files write contents. Each content has exactly one canonical text.

ghost use Rattle.std.specs.Prelude.{◌≡◌, ◌++◌, bytes_eq, codes, IfOk, IfErr, IfSome, MatchResult, Some};
ghost use Rattle.std.specs.Fmt.{signed_decimal};
ghost use Rattle.ps_grid.specs.declared.refusal.Refusal.TheVariants.{Memory};
ghost use Rattle.ps_content.specs.Content.{canonical_text, IsContent};
ghost use Rattle.ps_content.specs.declared.content.Content.{Content as Contents};

use crate::content::Content;
use crate::entry::read_entry;
use itoa::Buffer;
use ps_grid::Refusal;
use std::alloc::Global;

/// Returns the content whose canonical text is `bytes`; `None` if `bytes` isn't a canonical text.
///
/// Fails only when out of memory.
///
/// Cost: linear in the bytes. A text takes one allocation. A formula takes one allocation more than `Formula::read`.
pub fn read_canonical(alloc: Global, bytes: &[u8]) -> Result<Option<Content>, Refusal>
    ensures read { (c : Contents) → IsContent c → bytes.now ≡ canonical_text c
        → MatchResult result (λ found. found ≡ Some c) (λ e. e ≡ Memory) }
    ensures canonical { IfOk result (λ found. IfSome found (λ c. bytes.now ≡ canonical_text c)) }
    ensures content { IfOk result (λ found. IfSome found IsContent) }
    ensures memory { IfErr result (λ e. e ≡ Memory) }
{
    match read_entry(alloc, bytes) {
        Ok(content) => {
            if content.is_written(bytes) {
                Ok(Some(content))
            } else {
                Ok(None)
            }
        }
        Err(refusal) => match refusal {
            Refusal::Memory => Err(refusal),
            _ => Ok(None),
        },
    }
}

impl Content {
    /// Returns whether these bytes are the canonical text of the content.
    ///
    /// Cost: linear in the bytes.
    fn is_written(&self, bytes: &[u8]) -> bool
        ensures test { result ≡ bytes_eq bytes.now (canonical_text self.now) }
        ensures content { IsContent self.now }
    {
        match self {
            Content::Blank => bytes.is_empty(),
            Content::Number(number) => is_decimal(*number, bytes),
            Content::Text(label) => is_quoted(label.label().bytes(), bytes),
            Content::Formula(formula) => bytes == formula.formula().text(),
            Content::Tally => bytes == b"@tally".as_slice(),
            Content::Choice => bytes == b"@choice".as_slice(),
        }
    }
}

/// Whether the bytes are the digits of the number, with a minus before them where it is negative.
fn is_decimal(number: i64, bytes: &[u8]) -> bool
    ensures { result ≡ bytes_eq bytes.now (signed_decimal number) }
{
    let mut buffer = Buffer::new();
    bytes == buffer.format(number).as_bytes()
}

/// Whether the bytes are an apostrophe and then the text.
fn is_quoted(text: &[u8], bytes: &[u8]) -> bool
    ensures { result ≡ bytes_eq bytes.now (codes "'" ++ text.now) }
{
    match bytes {
        [first, rest @ ..] => *first == b'\'' && rest == text,
        [] => false,
    }
}
