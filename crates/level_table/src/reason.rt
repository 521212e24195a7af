ghost use Rattle.level_table.specs.declared.reason.Item.TheVariants as items;
ghost use Rattle.std.specs.Prelude.{◌≡◌, ◌+◌, ◌<◌, [], ◌∷◌, ◌++◌, length, pos, slice_index_or, IfOk};

use lists::Few;
use std::alloc::{AllocError, Global};
use std::marker::Model;

/// A row of a profile's program, with its multiplier in a certificate.
#[derive(Clone, Copy, Debug, PartialEq, Eq)]
pub enum Item {
    /// The half-plane of the next state in direction `dir`, which has this level.
    Level {
        dir: u32,
        level: i64,
        times: i128,
    },
    /// The deviation of a player to a strategy. The level is that of the state reached, in the direction
    /// of the player's negative axis.
    Gain {
        player: u32,
        strategy: u32,
        level: i64,
        times: i128,
    },
}

impl Default for Item {
    /// A row with multiplier 0.
    fn default() -> Self
        ensures { result ≡ items.Level 0 (pos 0) (pos 0) }
    {
        Item::Level {
            dir: 0,
            level: 0,
            times: 0,
        }
    }
}

/// Up to four items, which contracts see as a list.
pub type Items = Few<Item, 4>;

/// Why nothing is admissible after a profile.
#[derive(Drop)]
pub enum Reason {
    /// The profile leads to a state that was named empty before.
    Successor {
        state: u32,
    },
    /// A deviation from it does, the first by player and then by strategy.
    Deviation {
        player: u32,
        strategy: u32,
        state: u32,
    },
    /// Multiples of the program's rows add up to `0 <= n` with a negative `n`.
    Farkas {
        items: Items,
    },
}

/// Reasons, with room for some more, for which adding takes no memory. Contracts see the list and how many
/// more there is room for.
#[derive(Drop)]
pub struct ReasonList {
    items: Vec<Reason>,
    room: u32,
}

impl Model for ReasonList {
    ghost use Rattle.std.specs.Prelude.{◌-◌, ◌<◌, ◌≤◌, ◌^◌, vec_len, vec_capacity};
    ghost use Rattle.level_table.specs.Room.{Reasons};

    ghost Value = { Reasons };

    ghost view = { λ a. record { list = a.items.items; spare = a.room - vec_len a.items } };

    ghost invariant = { λ a. (vec_len a.items ≤ a.room) × (a.room ≤ vec_capacity a.items) × (a.room < 2 ^ 32) };
}

impl ReasonList {
    /// No reasons, with room for `count`.
    pub fn with_room(alloc: Global, count: u32) -> Result<ReasonList, AllocError>
        ensures { IfOk result (λ r. r ≡ record { list = []; spare = count }) }
    {
        let items = Vec::with_capacity(alloc, count as usize)?;
        Ok(ReasonList { items, room: count })
    }

    /// How many reasons there are.
    pub fn len(&self) -> u32
        ensures { result ≡ length self.now.list }
    {
        self.items.len() as u32
    }

    /// The reason at `i`.
    pub fn get(&self, i: u32) -> &Reason
        requires { i < length self.now.list }
        ensures { result.now ≡ slice_index_or self.now.list i result.now }
    {
        &self.items[i as usize]
    }

    /// Adds `reason` at the end, where there is room.
    pub fn push(&mut self, reason: Reason)
        requires { 0 < self.old.spare }
        ensures list { self.new.list ≡ self.old.list ++ reason ∷ [] }
        ensures spare { self.new.spare + 1 ≡ self.old.spare }
    {
        match self.items.push(reason) {
            Ok(()) => {}
            Err(_) => unreachable!(),
        }
    }

    /// Leaves no reasons. Their places are free again.
    pub fn clear(&mut self)
        ensures { self.new ≡ record { list = []; spare = length self.old.list + self.old.spare } }
    {
        self.items.clear();
    }
}

/// A state in which nothing is admissible, with one reason for each of its profiles, in profile order.
#[derive(Drop)]
pub struct Note {
    pub state: u32,
    pub reasons: ReasonList,
}
