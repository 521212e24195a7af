ghost use Rattle.std.specs.Prelude.{◌≡◌, ◌≤◌, ◌<◌, ◌^◌, ◌*◌, length, slice_index, slice_index_or, pos, []};
ghost use Rattle.direction_set.specs.DirectionTable.{opposite_of};
ghost use Rattle.game_model.specs.Game.{states, unit_of};
ghost use Rattle.level_table.specs.Problem.{IsProblem, direction_count, problem_of};

use direction_set::Directions;
use game_model::Game;
use std::marker::Model;

/// A game with the directions and the grid in which its payoff sets are bounded. Levels are in units of
/// `1/E`, where `E` is the denominator of the payoffs times the base of the discount factors times 2^grid.
#[derive(Drop)]
pub struct Problem<'a> {
    game: &'a Game,
    dirs: &'a Directions,
    grid: u32,
}

impl<'a> Model for Problem<'a> {
    ghost use Rattle.std.specs.Prelude.{◌≡◌};
    ghost use Rattle.level_table.specs.Problem.{IsProblem, Problem, problem_of};

    ghost Value = { Problem };

    ghost view = { λ a. problem_of a.game.now a.dirs.now a.grid };

    ghost invariant = { λ a. IsProblem (problem_of a.game.now a.dirs.now a.grid) × (a.dirs.now.players ≡ a.game.now.players) };
}

impl<'a> Problem<'a> {
    /// The problem of a game in these directions, on a grid of 2^grid.
    pub fn new(game: &'a Game, dirs: &'a Directions, grid: u32) -> Problem<'a>
        requires players { dirs.now.players ≡ game.now.players }
        requires grid { grid ≤ 30 }
        ensures problem { result ≡ problem_of game.now dirs.now grid }
        ensures is_problem { IsProblem result }
    {
        let _players = game.players();
        dirs.rules();
        Problem { game, dirs, grid }
    }

    /// A law: the problem is within the limits.
    pub fn rules(&self)
        ensures { IsProblem self.now }
    {
        let _game = self.game;
    }

    /// The game.
    pub fn game(&self) -> &'a Game
        ensures game { result.now ≡ self.now.game }
        ensures is_problem { IsProblem self.now }
    {
        self.game
    }

    /// The table of directions.
    pub fn dirs(&self) -> &'a Directions
        ensures vectors { result.now.vectors ≡ self.now.directions }
        ensures players { result.now.players ≡ self.now.game.players }
    {
        self.dirs
    }

    /// The grid, 0 to 30.
    pub fn grid(&self) -> u32
        ensures { result ≡ self.now.grid }
    {
        self.grid
    }

    /// The number of players, two or three.
    pub fn players(&self) -> u32
        ensures { result ≡ self.now.game.players }
    {
        self.game.players()
    }

    /// The number of states, 1 to 64.
    pub fn states(&self) -> u32
        ensures { result ≡ states self.now.game }
    {
        self.game.states()
    }

    /// The number of directions, at most 32.
    pub fn directions(&self) -> u32
        ensures { result ≡ direction_count self.now }
    {
        self.dirs.count()
    }

    /// The vector of direction `k`. Parts past the players are 0.
    pub fn vector(&self, k: u32) -> [i32; 3]
        requires { k < direction_count self.now }
        ensures { result ≡ slice_index_or self.now.directions k [] }
    {
        self.dirs.vector(k)
    }
}
