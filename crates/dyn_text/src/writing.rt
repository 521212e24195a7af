//! Transition files in their canonical form.

ghost use Rattle.std.specs.Prelude.{◌≡◌, ◌++◌, ◌∷◌, [], ℕ, codes, Ok, OnOk, IfOk};
ghost use Rattle.std.specs.List.{flat_map};
ghost use Rattle.token_text.specs.Quoted.{quoted_text};
ghost use Rattle.dyn_text.specs.Canonical.{canonical, state_line};
ghost use Rattle.dyn_text.specs.Grammar.{dyn_of};
ghost use Rattle.dyn_text.specs.Writable.{IsWritable};

use crate::file_name::FileName;
use crate::transitions::{Dyn, DynState};
use game_model::List;
use nfg_text::writing::{counts, put_all, quoted};
use std::alloc::{AllocError, Global};
use token_text::{Text, put};

/// The canonical text of a transition file. The grammar reads it as the same transitions, where a file can have them.
///
/// # Errors
///
/// Want of memory, which here also is a text of 2^32 bytes or more.
pub fn write_dyn(alloc: Global, dynamic: &Dyn) -> Result<Text, AllocError>
    ensures text { IfOk result (λ t. t ≡ canonical dynamic.now) }
    ensures again { IfOk result (λ t. IsWritable dynamic.now → dyn_of t ≡ Ok dynamic.now) }
{
    canonical_text(alloc, dynamic)
}

/// The text, line by line.
fn canonical_text(alloc: Global, dynamic: &Dyn) -> Result<Text, AllocError>
    ensures { IfOk result (λ t. t ≡ canonical dynamic.now) }
{
    let mut out = List::new(alloc);
    put_all(&mut out, b"DYN 1 ")?;
    quoted(&mut out, &dynamic.title)?;
    put_all(&mut out, b" {\n")?;
    states(alloc, &mut out, &dynamic.states)?;
    put_all(&mut out, b"}\n")?;
    Ok(out)
}

/// A line for each state.
fn states(alloc: Global, out: &mut Text, states: &List<DynState>) -> Result<(), AllocError>
    ensures { OnOk result (out.new ≡ out.old ++ flat_map state_line states.now) }
{
    for i in 0..states.len() {
        state(alloc, out, states.get(i))?;
    }
    Ok(())
}

/// The line of a state.
fn state(alloc: Global, out: &mut Text, state: &DynState) -> Result<(), AllocError>
    ensures { OnOk result (out.new ≡ out.old ++ state_line state.now) }
{
    put_all(out, b"{ ")?;
    quoted(out, &state.name)?;
    put(out, b' ')?;
    file(alloc, out, &state.file)?;
    put_all(out, b" {")?;
    counts(out, &state.next)?;
    put_all(out, b" }")?;
    put_all(out, b" }\n")
}

/// The name of a file, in quotes.
fn file(alloc: Global, out: &mut Text, name: &FileName) -> Result<(), AllocError>
    ensures { OnOk result (out.new ≡ out.old ++ quoted_text name.now) }
{
    let mut text = List::new(alloc);
    put_all(&mut text, name.as_str().as_bytes())?;
    quoted(out, &text)
}
