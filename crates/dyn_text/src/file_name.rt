//! Names of files.

ghost use Rattle.std.specs.Prelude.{◌≡◌, ◌+◌, ◌++◌, ◌∷◌, [], length, drop, IfOk};
ghost use Rattle.std.specs.Str.{is_utf8};
ghost use Rattle.dyn_text.specs.Grammar.{name_of};
ghost use Rattle.token_text.specs.Tokens.{unescaped};

use std::alloc::{AllocError, Global};
use std::marker::Model;
use token_text::Text;

/// The name of a file, which is UTF-8. Contracts see its bytes.
#[derive(Drop)]
pub struct FileName {
    text: String,
}

impl Model for FileName {
    ghost use Rattle.std.specs.Prelude.{List, ℕ};
    ghost use Rattle.std.specs.String.{string_bytes};

    ghost Value = { List ℕ };

    ghost view = { λ f. string_bytes f.text };
}

impl FileName {
    /// The empty name.
    pub fn empty(alloc: Global) -> FileName
        ensures { result ≡ [] }
    {
        FileName {
            text: String::new(alloc),
        }
    }

    /// The name as text.
    pub fn as_str(&self) -> &str
        ensures { result.now ≡ self.now }
    {
        self.text.as_str()
    }
}

/// The name that stands between two quotes, where it is UTF-8.
pub(crate) fn file_name(alloc: Global, raw: &[u8]) -> Result<Option<FileName>, AllocError>
    ensures { IfOk result (λ f. f ≡ name_of (unescaped raw.now)) }
{
    let bytes = plain(alloc, raw)?;
    match String::from_utf8(bytes) {
        Ok(text) => Ok(Some(FileName { text })),
        Err(_) => Ok(None),
    }
}

/// The bytes between two quotes, without the backslashes before quotes.
fn plain(alloc: Global, raw: &[u8]) -> Result<Vec<u8>, AllocError>
    ensures { IfOk result (λ v. v.items ≡ unescaped raw.now) }
{
    let text = token_text::text(alloc, raw)?;
    bytes_of(alloc, &text)
}

/// The same bytes.
fn bytes_of(alloc: Global, text: &Text) -> Result<Vec<u8>, AllocError>
    ensures { IfOk result (λ v. v.items ≡ text.now) }
{
    let mut bytes = Vec::new(alloc);
    for i in 0..text.len() {
        bytes.push(*text.get(i))?;
    }
    Ok(bytes)
}
