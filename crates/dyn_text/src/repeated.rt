//! A repeated game as a dynamic game of one state.

ghost use Rattle.std.specs.Prelude.{◌≡◌, ◌/◌, ◌∷◌, ◌++◌, [], length, replicate, IfOk};
ghost use Rattle.nfg_text.specs.declared.nfg.Nfg.{Nfg};
ghost use Rattle.nfg_text.specs.ReadGame.{IsReadGame};
ghost use Rattle.game_model.specs.Parts.{HasNoFault};
ghost use Rattle.dyn_text.specs.Assembled.{shape_of_texts, AreTexts};
ghost use Rattle.dyn_text.specs.Single.{single_of};

use crate::file_name::FileName;
use crate::transitions::{Dyn, DynState};
use game_model::List;
use nfg_text::Nfg;
use std::alloc::{AllocError, Global};
use token_text::put;

/// One state without names, where each profile leads to the state itself. A profile has two payoffs.
///
/// # Errors
///
/// Want of memory.
pub fn single(alloc: Global, nfg: &Nfg) -> Result<Dyn, AllocError>
    ensures { IfOk result (λ d. d ≡ single_of nfg.now) }
{
    let next = zeros(alloc, nfg.payoffs.len() / 2)?;
    let mut states = List::new(alloc);
    let state = DynState {
        name: List::new(alloc),
        file: FileName::empty(alloc),
        next,
    };
    put(&mut states, state)?;
    Ok(Dyn {
        title: List::new(alloc),
        states,
    })
}

/// The number 0, so many times.
fn zeros(alloc: Global, count: u32) -> Result<List<u32>, AllocError>
    ensures { IfOk result (λ ns. ns ≡ replicate count 0) }
{
    let mut zeros = List::new(alloc);
    for _ in 0..count {
        put(&mut zeros, 0)?;
    }
    Ok(zeros)
}

/// A law: the one state fits each game that was read, so its shape has no fault.
pub fn single_fits()
    ensures { (n : Nfg) → IsReadGame n → AreTexts (single_of n) (n ∷ []) × HasNoFault (shape_of_texts (single_of n) (n ∷ [])) }
{}
