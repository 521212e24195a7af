//! Correspondences from their text.

ghost use Rattle.std.specs.Prelude.{◌≡◌, ◌≤◌, ◌<◌, ◌^◌, unsigned_abs, IfOk};
ghost use Rattle.game_model.specs.Game.{states as count_of};
ghost use Rattle.selfgen_check.specs.Limits.{KeepsLimits};
ghost use Rattle.selfgen_check.specs.Measures.{measured, corr_of};
ghost use Rattle.selfgen_check.specs.Shapes.{AllWritten};
ghost use Rattle.selfgen_check.specs.TextFaults.{Gives, told};

use crate::corr::Corr;
use crate::measures::{common_of, entries_of, measure_payoffs};
use crate::reading::written;
use crate::text_fault::CorrTextFault;
use crate::written::Written;
use game_model::{Game, List};
use nfg_text::NfgFault;
use std::alloc::Global;

/// The correspondence that the bytes of a text have at a game. Its common denominator is the least common multiple of
/// the game's denominator and those of all parts of points. It is within the limits of `check`.
///
/// # Errors
///
/// The first fault of the text; only then a common denominator above 2^44, or else a part of a point or a payoff of more
/// than 2^30 of its units; and `NoMemory`.
pub fn read_corr(alloc: Global, game: &Game, bytes: &[u8]) -> Result<Corr, CorrTextFault>
    ensures value { Gives result (corr_of game.now bytes.now) }
    ensures limits { IfOk result (λ c. KeepsLimits game.now c) }
{
    let _players = game.players();
    match written(alloc, game, bytes) {
        Ok(entries) => measured(alloc, game, &entries),
        Err(fault) => Err(told(fault)),
    }
}

/// A fault of the form, or a limit that a token passes.
fn told(fault: NfgFault) -> CorrTextFault
    ensures { result ≡ told fault }
{
    match fault {
        NfgFault::Bad { at } => CorrTextFault::Bad { at },
        NfgFault::Limit { what, number, at } => CorrTextFault::Limit { what, number, at },
        NfgFault::NoMemory => CorrTextFault::NoMemory,
    }
}

/// The entries that were read, with their points in units of the common denominator.
#[tactic(auto, unfolding(crate::specs::Measures::measured))]
fn measured(
    alloc: Global,
    game: &Game,
    written: &List<List<Written>>,
) -> Result<Corr, CorrTextFault>
    requires { AllWritten game.now.players (count_of game.now) written.now }
    ensures value { Gives result (measured game.now written.now) }
    ensures positive { IfOk result (λ c. 0 < c.common) }
{
    let denominator = denominator_of(game);
    let common = common_of(denominator, written)?;
    let entries = entries_of(alloc, game, common, written)?;
    measure_payoffs(game, common / denominator)?;
    Ok(Corr::new(common as i64, entries))
}

/// The least common denominator of all payoffs.
fn denominator_of(game: &Game) -> u64
    ensures value { result ≡ unsigned_abs game.now.denominator }
    ensures positive { 0 < result }
    ensures small { result ≤ 2 ^ 44 }
{
    let _players = game.players();
    game.denominator() as u64
}
