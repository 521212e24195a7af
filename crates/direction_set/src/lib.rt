//! The fixed tables of directions in which payoff sets are bounded from outside.
#![tactic(auto)]

ghost use Rattle.std.specs.Prelude.{◌≡◌, ◌+◌, ◌*◌, ◌<◌, ◌≤◌, ◌↔◌, length, take, IsSome, IfSome, if◌then◌else◌};
ghost use Rattle.direction_set.specs.DirectionTable.{HasTable, IsDirectionTable, direction_vectors, negative, opposite_of, unit_vector, vector_at};

use std::marker::Model;

static TWO_PLAYERS: [[i32; 3]; 32] = [
    [1, 0, 0],
    [-1, 0, 0],
    [0, 1, 0],
    [0, -1, 0],
    [1, 1, 0],
    [-1, -1, 0],
    [1, -1, 0],
    [-1, 1, 0],
    [2, 1, 0],
    [-2, -1, 0],
    [1, 2, 0],
    [-1, -2, 0],
    [2, -1, 0],
    [-2, 1, 0],
    [1, -2, 0],
    [-1, 2, 0],
    [3, 1, 0],
    [-3, -1, 0],
    [1, 3, 0],
    [-1, -3, 0],
    [3, -1, 0],
    [-3, 1, 0],
    [1, -3, 0],
    [-1, 3, 0],
    [3, 2, 0],
    [-3, -2, 0],
    [2, 3, 0],
    [-2, -3, 0],
    [3, -2, 0],
    [-3, 2, 0],
    [2, -3, 0],
    [-2, 3, 0],
];

static THREE_PLAYERS: [[i32; 3]; 26] = [
    [1, 0, 0],
    [-1, 0, 0],
    [0, 1, 0],
    [0, -1, 0],
    [0, 0, 1],
    [0, 0, -1],
    [1, 1, 1],
    [-1, -1, -1],
    [1, 1, -1],
    [-1, -1, 1],
    [1, -1, 1],
    [-1, 1, -1],
    [1, -1, -1],
    [-1, 1, 1],
    [1, 1, 0],
    [-1, -1, 0],
    [1, -1, 0],
    [-1, 1, 0],
    [1, 0, 1],
    [-1, 0, -1],
    [1, 0, -1],
    [-1, 0, 1],
    [0, 1, 1],
    [0, -1, -1],
    [0, 1, -1],
    [0, -1, 1],
];

/// A table of directions for two or for three players.
///
/// Directions are numbered from 0. The first are the axes, plus before minus, and a direction's
/// opposite has the number with the last bit changed. A shorter table is the beginning of a longer.
#[derive(Clone, Copy, Debug)]
pub struct Directions {
    players: u32,
    count: u32,
}

impl Model for Directions {
    ghost use Rattle.std.specs.Prelude.{length};
    ghost use Rattle.direction_set.specs.DirectionTable.{DirectionTable, HasTable, direction_vectors, length-direction_vectors};
    ghost use Rattle.std.proofs.Common.{ap};

    ghost Value = { DirectionTable };

    ghost view = { λ d. record { players = d.players; vectors = direction_vectors d.players d.count } };

    ghost invariant = { λ d. HasTable d.players d.count };

    ghost inverse = { λ t. record { players = t.players; count = length t.vectors } };

    ghost inverse_ok = { λ d known. ap (λ count. record { players = d.players; count = count }) (length-direction_vectors d.players d.count known) };
}

impl Directions {
    /// The table of `count` directions for `players` players.
    ///
    /// Two players have tables of 4, 8, 16 and 32 directions, three players of 6, 14 and 26.
    pub fn of(players: u32, count: u32) -> Option<Directions>
        ensures known { IsSome result ↔ HasTable players count }
        ensures table { IfSome result (λ d. d ≡ record { players = players; vectors = direction_vectors players count }) }
    {
        let is_listed = match players {
            2 => matches!(count, 4 | 8 | 16 | 32),
            3 => matches!(count, 6 | 14 | 26),
            _ => false,
        };
        if is_listed {
            Some(Directions { players, count })
        } else {
            None
        }
    }

    /// The number of directions.
    pub fn count(&self) -> u32
        ensures { result ≡ length self.now.vectors }
    {
        self.count
    }

    /// The number of players, two or three.
    pub fn players(&self) -> u32
        ensures { result ≡ self.now.players }
    {
        self.players
    }

    /// The vector of direction `k`. Parts past the players are 0.
    pub fn vector(&self, k: u32) -> [i32; 3]
        requires { k < length self.now.vectors }
        ensures { result ≡ vector_at self.now.vectors k }
    {
        if self.players == 2 {
            TWO_PLAYERS[k as usize]
        } else {
            THREE_PLAYERS[k as usize]
        }
    }

    /// The direction whose vector is the negative of that of `k`.
    pub fn opposite(&self, k: u32) -> u32
        requires { k < length self.now.vectors }
        ensures number { result ≡ opposite_of k }
        ensures within { result < length self.now.vectors }
        ensures vector { vector_at self.now.vectors result ≡ negative (vector_at self.now.vectors k) }
    {
        let _ = &self.count;
        if k % 2 == 0 { k + 1 } else { k - 1 }
    }

    /// The direction of the axis of player `i`, plus or minus.
    pub fn axis(&self, i: u32, plus: bool) -> u32
        requires { i < self.now.players }
        ensures number { result ≡ 2 * i + (if plus then 0 else 1) }
        ensures within { result < length self.now.vectors }
        ensures vector { vector_at self.now.vectors result ≡ (if plus then unit_vector i else negative (unit_vector i)) }
    {
        let _ = &self.count;
        if plus { 2 * i } else { 2 * i + 1 }
    }

    /// A law: each table is one of those listed, and has its axes, opposites and sizes.
    pub fn rules(&self)
        ensures known { HasTable self.now.players (length self.now.vectors) }
        ensures table { self.now.vectors ≡ direction_vectors self.now.players (length self.now.vectors) }
        ensures rules { IsDirectionTable self.now.players self.now.vectors }
    {
        let _ = &self.count;
    }

    /// A law: a table is the beginning of each longer table for as many players.
    pub fn begins(&self, longer: &Directions)
        requires players { self.now.players ≡ longer.now.players }
        requires shorter { length self.now.vectors ≤ length longer.now.vectors }
        ensures { self.now.vectors ≡ take (length self.now.vectors) longer.now.vectors }
    {
        let _ = &self.count;
        let _ = &longer.count;
    }
}

#[cfg(test)]
mod tests {
    use super::*;
    use std::test::Fail;

    #[test]
    fn tables_are_those_of_the_format(rt: HostRuntime) -> Result<(), Fail> {
        let two = Directions::of(2, 8).ok_or("two players have eight directions")?;
        assert_eq!(rt; two.count(), 8);
        assert_eq!(rt; two.players(), 2);
        assert_eq!(rt; two.vector(7), [-1, 1, 0]);
        assert_eq!(rt; two.opposite(6), 7);
        assert_eq!(rt; two.axis(1, false), 3);
        let three = Directions::of(3, 14).ok_or("three players have fourteen directions")?;
        assert_eq!(rt; three.count(), 14);
        assert_eq!(rt; three.vector(13), [-1, 1, 1]);
        for (players, count) in [(2, 6), (2, 0), (2, 64), (3, 8), (3, 4), (1, 2), (4, 8)] {
            assert!(rt;
                Directions::of(players, count).is_none(),
                "{players} players, {count} directions"
            );
        }
        Ok(())
    }
}
