//! The text of a replay, and the replay itself.

ghost use Rattle.report_text.specs.ReplayText.{replay_text, table_line, table_lines};
ghost use Rattle.report_text.specs.ReportText.{level_word};
ghost use Rattle.std.specs.Prelude.{IfOk, OnOk, decimal, length, [], ◌%◌, ◌++◌, ◌/◌, ◌<◌, ◌∷◌, ◌≡◌};

use crate::text::{level, note_lines, number, number_line, word_line};
use level_table::{LevelTable, Notes};
use std::alloc::{AllocError, Global};

/// What the moves of a schedule made of the opening: how many moves there were, the words that they left, and the
/// notes of empty states in their order.
#[derive(Drop)]
pub struct Replay {
    pub moves: u64,
    pub levels: LevelTable,
    pub notes: Notes,
}

/// The text of a replay: the line `payoff replay 1`, `moves` and their number, `row S K X` for each row as in a report,
/// the notes as in a report, and `end`. Levels are in units of `1/E`.
pub fn text_of_replay(alloc: Global, replay: &Replay) -> Result<Vec<u8>, AllocError>
    ensures { IfOk result (λ text. text.items ≡ replay_text replay.now) }
{
    let mut out = Vec::new(alloc);
    word_line(&mut out, b"payoff replay", b"1")?;
    number_line(&mut out, b"moves", replay.moves)?;
    level_lines(&mut out, &replay.levels)?;
    note_lines(&mut out, &replay.notes)?;
    out.extend_from_slice(b"end\n")?;
    Ok(out)
}

/// One line for each row of a table, in row order.
fn level_lines(out: &mut Vec<u8>, levels: &LevelTable) -> Result<(), AllocError>
    ensures { OnOk result (out.new.items ≡ out.old.items ++ table_lines levels.now) }
{
    levels.states();
    for row in 0..levels.rows() {
        table_line(out, levels, row)?;
    }
    Ok(())
}

/// The state, the direction and the level of a row.
fn table_line(out: &mut Vec<u8>, levels: &LevelTable, row: u32) -> Result<(), AllocError>
    requires { row < length levels.now.levels }
    ensures { OnOk result (out.new.items ≡ out.old.items ++ table_line levels.now row) }
{
    levels.states();
    out.extend_from_slice(b"row")?;
    number(out, row / levels.directions())?;
    number(out, row % levels.directions())?;
    level(out, levels.get(row))?;
    out.push(b'\n')?;
    Ok(())
}
