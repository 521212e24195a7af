//! The program of a profile: which payoffs may follow it, and what they count in a direction.

ghost use Rattle.std.specs.Prelude.{◌≡◌, ℕ, ◌*◌, ◌+◌, ◌^◌, ◌<◌, ◌≤◌, length, All, ℤ, pos, ◌+ℤ◌, ◌*ℤ◌, ◌≤ℤ◌};
ghost use Rattle.std.specs.Int.RustNames.{unsigned_abs};
ghost use Rattle.game_model.specs.SelfGeneration.{part};
ghost use Rattle.level_table.specs.declared.level.Level.TheVariants.{At};
ghost use Rattle.level_table.specs.Levels.{IsNumber, Levels, levels_in};
ghost use Rattle.level_table.specs.Problem.{IsProblem, direction_count, direction, discount_at};
ghost use Rattle.level_table.specs.Tables.{IsSmallTable};
ghost use Rattle.lp_cert.specs.Certificate.{AreSmall};
ghost use Rattle.set_operator.specs.Boxes.{IsBoxOf, side_at, stage_at};
ghost use Rattle.set_operator.specs.Program.{AreItemsOf, IsItemOf, IsObjective, IsProgramOf, IsProgramTo, stage_value};

use crate::boxes::ProfileBox;
use level_table::{Item, Items, Level, LevelTable, Problem};
use lp_cert::{Multipliers, Row, Rows};

/// The level of a state in a direction, where it is a number.
pub(crate) fn number_at(levels: &LevelTable, state: u32, dir: u32) -> i64
    requires state { state < levels.now.states }
    requires dir { dir < levels.now.directions }
    requires number { IsNumber (levels_in levels.now state dir) }
    ensures { levels_in levels.now state dir ≡ At result }
{
    match levels.at(state, dir) {
        Level::At(level) => level,
        Level::Empty => unreachable!(),
    }
}

/// From above, player `i`'s side of the box.
fn upper_side(found: &ProfileBox, i: usize) -> i128
    requires { i < 3 }
    ensures { result ≡ (side_at found.now i).upper }
{
    found.sides[i].upper as i128
}

/// From below, player `i`'s side of the box.
fn lower_side(found: &ProfileBox, i: usize) -> i128
    requires { i < 3 }
    ensures { result ≡ (side_at found.now i).lower }
{
    found.sides[i].lower as i128
}

/// The rows of the axes, in place of those that were there.
fn boxed(p: &Problem, found: &ProfileBox, rows: &mut Rows)
    requires upper { (i : ℕ) → i < p.now.game.players → unsigned_abs (side_at found.now i).upper ≤ 2 ^ 64 }
    requires lower { (i : ℕ) → i < p.now.game.players → unsigned_abs (side_at found.now i).lower ≤ 2 ^ 64 }
    ensures { (t : Levels) → IsProgramTo p.now t found.now (2 * p.now.game.players) rows.new }
{
    p.rules();
    let upper = [
        upper_side(found, 0),
        upper_side(found, 1),
        upper_side(found, 2),
    ];
    let lower = [
        lower_side(found, 0),
        lower_side(found, 1),
        lower_side(found, 2),
    ];
    let players = p.players() as usize;
    rows.reset(&upper[..players], &lower[..players]);
    let _dimension = rows.dimension();
}

/// The rows of the program, one for each direction, in order, in place of those that were there.
pub(crate) fn fill_rows(p: &Problem, levels: &LevelTable, found: &ProfileBox, rows: &mut Rows)
    requires table { IsSmallTable p.now levels.now }
    requires sides { IsBoxOf p.now (levels_in levels.now) found.now }
    ensures rows { IsProgramOf p.now (levels_in levels.now) found.now rows.new }
    ensures problem { IsProblem p.now }
{
    p.rules();
    boxed(p, found, rows);
    for dir in 2 * p.players()..p.directions() {
        let h = number_at(levels, found.next, dir) as i128;
        rows.add(Row {
            c: p.vector(dir),
            h,
        });
        let _dimension = rows.dimension();
    }
}

/// Room for the rows of a program.
pub(crate) fn some_rows() -> Rows {
    Rows::boxed(&[0], &[0])
}

/// What a unit of player `i`'s part counts in direction `dir`, over q.
fn weight(p: &Problem, dir: u32, i: u32) -> i32
    requires dir { dir < direction_count p.now }
    requires place { i < 3 }
    ensures value { i < p.now.game.players → result ≡ pos (discount_at p.now i) *ℤ part (direction p.now dir) i }
    ensures unused { p.now.game.players ≤ i → result ≡ pos 0 }
    ensures small { unsigned_abs result ≤ 4096 }
{
    p.rules();
    if i >= p.players() {
        return 0;
    }
    let (numerator, _) = p.game().discount_of(i);
    numerator as i32 * p.vector(dir)[i as usize]
}

/// The objective of direction `dir`, over q.
pub(crate) fn objective_of(p: &Problem, dir: u32) -> [i32; 3]
    requires dir { dir < direction_count p.now }
    ensures { IsObjective p.now dir result }
{
    p.rules();
    [weight(p, dir, 0), weight(p, dir, 1), weight(p, dir, 2)]
}

/// What player `i`'s payoff counts in direction `dir`, over q.
fn stage_part(p: &Problem, found: &ProfileBox, dir: u32, i: usize) -> i128
    requires dir { dir < direction_count p.now }
    requires place { i < 3 }
    requires small { (j : ℕ) → unsigned_abs (stage_at found.now j) ≤ 2 ^ 60 }
    ensures value { result ≡ part (direction p.now dir) i *ℤ stage_at found.now i }
    ensures bound { unsigned_abs result ≤ 2 ^ 62 }
{
    p.rules();
    p.vector(dir)[i] as i128 * found.stage[i] as i128
}

/// What the payoffs of the profile count in direction `dir`, over q.
pub(crate) fn stage_of(p: &Problem, found: &ProfileBox, dir: u32) -> i128
    requires dir { dir < direction_count p.now }
    requires small { (i : ℕ) → unsigned_abs (stage_at found.now i) ≤ 2 ^ 60 }
    ensures value { result ≡ stage_value p.now found.now dir }
    ensures bound { unsigned_abs result ≤ 2 ^ 64 }
{
    p.rules();
    let first = stage_part(p, found, dir, 0);
    let second = stage_part(p, found, dir, 1);
    first + second + stage_part(p, found, dir, 2)
}

/// The value over `q * den` of a point whose parts are over `den`.
pub(crate) fn value_over(den: i128, stage: i128, value: i128) -> i128
    requires den { unsigned_abs den ≤ 2 ^ 20 }
    requires stage { unsigned_abs stage ≤ 2 ^ 64 }
    requires value { unsigned_abs value ≤ 2 ^ 102 }
    ensures value { result ≡ den *ℤ stage +ℤ value }
    ensures bound { unsigned_abs result ≤ 2 ^ 103 }
{
    den * stage + value
}

/// The item of a row of the program.
fn item_of(p: &Problem, levels: &LevelTable, found: &ProfileBox, row: u32, times: i128) -> Item
    requires table { IsSmallTable p.now levels.now }
    requires sides { IsBoxOf p.now (levels_in levels.now) found.now }
    requires row { row < direction_count p.now }
    ensures { IsItemOf p.now (levels_in levels.now) found.now row times result }
{
    p.rules();
    let player = row / 2;
    if row % 2 == 1 && player < p.players() {
        if let Some(strategy) = found.sides[player as usize].by {
            let game = p.game();
            let profile = game.deviation(found.state, found.profile, player, strategy);
            return Item::Gain {
                player,
                strategy,
                level: number_at(levels, game.next(found.state, profile), row),
                times,
            };
        }
    }
    Item::Level {
        dir: row,
        level: number_at(levels, found.next, row),
        times,
    }
}

/// The items of rows of the program with their multipliers.
pub(crate) fn items_of(
    p: &Problem,
    levels: &LevelTable,
    found: &ProfileBox,
    multipliers: &Multipliers,
) -> Items
    requires table { IsSmallTable p.now levels.now }
    requires sides { IsBoxOf p.now (levels_in levels.now) found.now }
    requires rows { All (λ m. m.0 < direction_count p.now) multipliers.now }
    requires small { AreSmall multipliers.now }
    ensures { AreItemsOf p.now (levels_in levels.now) found.now multipliers.now result }
{
    let mut items = Items::new();
    for i in 0..multipliers.len() {
        let (row, times) = *multipliers.get(i);
        items.push(item_of(p, levels, found, row, times));
    }
    items
}
