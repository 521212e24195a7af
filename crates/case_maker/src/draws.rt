//! The sequence of numbers from which games are made, a linear congruence modulo 2^31.

ghost use Rattle.case_maker.specs.Generated.{draw, number_after, number_behind};
ghost use Rattle.std.specs.Prelude.{◌≡◌, ◌+◌, ◌/◌, ◌%◌, ◌∷◌, ◌++◌, ◌<◌, [], OnOk, pos};

use std::alloc::AllocError;

/// How many strategies each player has in each state.
pub(crate) const STRATEGIES: u32 = 4;

/// How many profiles a state has.
pub(crate) const PROFILES: u32 = 16;

/// How many payoffs there are, from 0 on.
const PAYOFFS: u32 = 16;

/// The sequence, behind the number that was drawn last.
#[derive(Drop)]
pub(crate) struct Draws {
    pub(crate) last: u32,
}

impl Draws {
    /// The next draw: the upper half of the next number.
    fn draw(&mut self) -> u32
        ensures last { self.new.last ≡ number_behind self.old.last }
        ensures draw { result ≡ self.new.last / 65536 }
    {
        let next = (1_103_515_245 * u64::from(self.last) + 12_345) % 2_147_483_648;
        self.last = next as u32;
        self.last / 65_536
    }

    /// Draws both players' payoffs at a profile, and the state that follows it, one of `count`.
    pub(crate) fn profile(
        &mut self,
        count: u32,
        payoffs: &mut Vec<i64>,
        next: &mut Vec<u32>,
    ) -> Result<(), AllocError>
        requires { 0 < count }
        ensures last { OnOk result (self.new.last ≡ number_after self.old.last 3) }
        ensures payoffs { OnOk result (payoffs.new.items ≡
            payoffs.old.items ++ pos (draw self.old.last 1 % 16) ∷ pos (draw self.old.last 2 % 16) ∷ []) }
        ensures next { OnOk result (next.new.items ≡ next.old.items ++ draw self.old.last 3 % count ∷ []) }
    {
        let first = self.draw() % PAYOFFS;
        let second = self.draw() % PAYOFFS;
        let state = self.draw() % count;
        payoffs.push(i64::from(first))?;
        payoffs.push(i64::from(second))?;
        next.push(state)?;
        Ok(())
    }
}
