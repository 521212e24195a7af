//! Texts that are kept.

ghost use Rattle.std.specs.Prelude.{◌≡◌, ◌+◌, ◌<◌, ◌==◌, ◌&&◌, [], ◌∷◌, ◌++◌, length, drop, slice_index, IfOk, OnOk};
ghost use Rattle.token_text.specs.Tokens.{unescaped, begins_with_quote};

use game_model::List;
use std::alloc::{AllocError, Global};

/// The bytes of a quoted text, which needn't be UTF-8.
pub type Text = List<u8>;

/// The text between two quotes, without the backslashes before quotes.
///
/// # Errors
///
/// Want of memory, which here also is a text of 2^32 bytes or more.
pub fn text(alloc: Global, raw: &[u8]) -> Result<Text, AllocError>
    ensures { IfOk result (λ t. t ≡ unescaped raw.now) }
{
    let mut text = List::new(alloc);
    for (i, byte) in raw.iter().enumerate() {
        if !escapes(raw, i) {
            put(&mut text, *byte)?;
        }
    }
    Ok(text)
}

/// Whether byte `i` is a backslash before a quote.
fn escapes(raw: &[u8], i: usize) -> bool
    requires { i < length raw.now }
    ensures { result ≡ ((slice_index raw.now i == 92) && begins_with_quote (drop (i + 1) raw.now)) }
{
    raw[i] == b'\\' && raw[i + 1..].first() == Some(&b'"')
}

/// Adds an item at the end of the list.
///
/// # Errors
///
/// Want of memory, which here also is a list of 2^32 - 1 items.
pub fn put<T: Drop>(list: &mut List<T>, item: T) -> Result<(), AllocError>
    ensures { OnOk result (list.new ≡ list.old ++ item ∷ []) }
{
    if list.len() == u32::MAX {
        return Err(AllocError);
    }
    list.push(item)
}
