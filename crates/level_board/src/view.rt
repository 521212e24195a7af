//! What a pass knows, and the rule of the words.

use atomic_table::{Join, Play, Split, TableRule};
use direction_set::Directions;
use game_model::Game;
use level_table::LevelTable;
use std::collections::LinkedList;
use std::snapshot::Snapshot;

/// What the board is of, as clauses see it.
#[derive(Drop)]
pub(crate) struct Key {
    pub game: Snapshot<Game>,
    pub directions: Snapshot<Directions>,
    pub grid: u32,
    pub start: Snapshot<LevelTable>,
}

/// What a pass knows. No value of it is made.
pub(crate) struct View {
    pub game: Game,
    pub directions: Directions,
    pub grid: u32,
    pub start: LevelTable,
    pub seen: LevelTable,
    pub owner: bool,
    pub cleared: LinkedList<bool>,
    pub spent: bool,
    pub drawn: u64,
}

/// Levels only fall, and never below a supported table.
pub(crate) struct Falls;

impl TableRule<(), View, Key> for Falls {
    ghost use Rattle.level_board.specs.Rule.{Keeps, first_view, frame_of_key};

    ghost holds = { λ key. Keeps (frame_of_key key) };

    ghost first = { first_view };
}

pub(crate) struct Look;

impl Play<(), View> for Look {
    ghost use Rattle.level_board.specs.Rule.{Looks};

    ghost then = { Looks };
}

pub(crate) struct Lower;

impl Play<(), View> for Lower {
    ghost use Rattle.level_board.specs.Rule.{Lowers};

    ghost then = { Lowers };
}

pub(crate) struct Clear;

impl Play<(), View> for Clear {
    ghost use Rattle.level_board.specs.Rule.{Clears};

    ghost then = { Clears };
}

pub(crate) struct Draw;

impl Play<(), View> for Draw {
    ghost use Rattle.level_board.specs.Rule.{Draws};

    ghost then = { Draws };
}

pub(crate) struct Copied;

impl Split<View> for Copied {
    ghost use Rattle.level_board.specs.Rule.{copied};

    ghost left = { λ v. v };

    ghost right = { copied };
}

pub(crate) struct Lesser;

impl Join<View> for Lesser {
    ghost use Rattle.level_board.specs.Rule.{joined, spent_view};

    ghost both = { joined };

    ghost spent = { spent_view };
}

pub(crate) struct Learn;

impl Play<(), View> for Learn {
    ghost use Rattle.level_board.specs.Rule.{Learns};

    ghost then = { Learns };
}
