//! A profile's box, from what deviations ask.

ghost use Rattle.std.specs.Prelude.{◌≡◌, ◌*◌, ◌<◌, length};
ghost use Rattle.game_model.specs.Game.{states, counts, profile_count, successor};
ghost use Rattle.level_table.specs.Levels.{levels_in};
ghost use Rattle.level_table.specs.Reasons.{IsKnown};
ghost use Rattle.level_table.specs.Tables.{HasSmallOpening, IsSmallTable};
ghost use Rattle.set_operator.specs.Boxes.{IsSide};
ghost use Rattle.set_operator.specs.Lines.{AreAll, IsLine, IsTerm};
ghost use Rattle.set_operator.specs.Prepared.{IsBoxAt};

use crate::boxes::{NO_SIDE, ProfileBox, Side, finite, stage_of};
use crate::lines::Asks;
use level_table::{LevelTable, Problem};

/// Player `i`'s side after a profile. The least that its line asks is what the profile itself asks where the next
/// state's level gives the lower side.
fn side_by(
    p: &Problem,
    levels: &LevelTable,
    state: u32,
    profile: u32,
    next: u32,
    i: u32,
    asks: &Asks,
) -> Side
    requires table { IsSmallTable p.now levels.now }
    requires opening { HasSmallOpening p.now }
    requires state { state < states p.now.game }
    requires profile { profile < profile_count (counts p.now.game state) }
    requires player { i < p.now.game.players }
    requires next { next ≡ successor p.now.game state profile }
    requires known { IsKnown p.now (levels_in levels.now) next }
    requires line { IsLine p.now (levels_in levels.now) state profile i asks.now.line }
    requires own { IsTerm p.now (levels_in levels.now) state i profile asks.now.own }
    ensures { IsSide p.now (levels_in levels.now) state profile i result }
{
    p.rules();
    let upper = finite(p, levels, next, 2 * i);
    let level = finite(p, levels, next, 2 * i + 1);
    let more = asks.own - asks.line.least;
    if more > 0 {
        Side {
            upper,
            lower: level - more,
            by: Some(asks.line.first),
        }
    } else {
        Side {
            upper,
            lower: level,
            by: None,
        }
    }
}

/// The box of a profile, and none where a level of a state that it or a deviation from it reaches is Empty.
pub(crate) fn box_by(
    p: &Problem,
    levels: &LevelTable,
    state: u32,
    profile: u32,
    asks: &[Option<Asks>],
) -> Option<ProfileBox>
    requires table { IsSmallTable p.now levels.now }
    requires opening { HasSmallOpening p.now }
    requires state { state < states p.now.game }
    requires profile { profile < profile_count (counts p.now.game state) }
    requires one_each { length asks.now ≡ p.now.game.players * profile_count (counts p.now.game state) }
    requires each { AreAll p.now (levels_in levels.now) state asks.now }
    ensures { IsBoxAt p.now (levels_in levels.now) state profile result }
{
    let next = p.game().next(state, profile);
    let count = p.game().profiles(state);
    let mut sides = [NO_SIDE; 3];
    let mut stage = [0; 3];
    for i in 0..p.players() {
        let Some(found) = asks[(i * count + profile) as usize] else {
            return None;
        };
        sides[i as usize] = side_by(p, levels, state, profile, next, i, &found);
        stage[i as usize] = stage_of(p, state, profile, i);
    }
    Some(ProfileBox {
        state,
        profile,
        next,
        sides,
        stage,
    })
}
