//! Whether a state admits something, without making it ready.

ghost use Rattle.std.specs.Prelude.{◌↔◌, ◌<◌, IsTrue};
ghost use Rattle.game_model.specs.Game.{states};
ghost use Rattle.level_table.specs.Levels.{levels_in};
ghost use Rattle.level_table.specs.Operator.{Admissible, Fractions, HasAdmissible};
ghost use Rattle.level_table.specs.Tables.{HasSmallOpening, IsSmallTable};
ghost use Rattle.set_operator.specs.Prepared.{IsBoxAt};

use crate::best::admits;
use crate::boxes::{ProfileBox, box_of, known_states};
use crate::program::some_rows;
use level_table::{LevelTable, Problem};
use lp_cert::Rows;

/// Whether some profile of the state admits a point. No profile behind the first that does is looked at, and no memory
/// is taken.
pub fn is_alive(p: &Problem, levels: &LevelTable, state: u32) -> bool
    requires table { IsSmallTable p.now levels.now }
    requires opening { HasSmallOpening p.now }
    requires state { state < states p.now.game }
    ensures { IsTrue result ↔ HasAdmissible p.now (levels_in levels.now) state }
{
    p.rules();
    let known = known_states(p, levels);
    let mut rows = some_rows();
    for a in 0..p.game().profiles(state) {
        let program = box_of(p, levels, &known, state, a);
        if admits_at(p, levels, &program, state, a, &mut rows) {
            return true;
        }
    }
    false
}

/// Whether profile `a` of a state admits a point.
fn admits_at(
    p: &Problem,
    levels: &LevelTable,
    program: &Option<ProfileBox>,
    state: u32,
    a: u32,
    rows: &mut Rows,
) -> bool
    requires table { IsSmallTable p.now levels.now }
    requires at { IsBoxAt p.now (levels_in levels.now) state a program.now }
    ensures some { IsTrue result → (z : Fractions) × Admissible p.now (levels_in levels.now) state a z }
    ensures none { (z : Fractions) → Admissible p.now (levels_in levels.now) state a z → IsTrue result }
{
    match program {
        Some(found) => admits(p, levels, found, rows),
        None => false,
    }
}
