ghost use Rattle.std.specs.Prelude.{◌≡◌, ℕ, ◌^◌, ◌<◌, ◌≤◌, [], ◌∷◌, ◌++◌, length, pos, ◌≤ℤ◌, slice_index_or, unsigned_abs};

use lists::Few;
use std::marker::Model;

/// Up to four outcomes, each the number of an entry with its weight. A weight is a whole number of at most 2^83, and may be 0.
/// Contracts see a list of pairs.
#[derive(Drop)]
pub struct Lottery {
    items: Few<(u32, u128), 4>,
}

impl Model for Lottery {
    ghost use Rattle.std.specs.Prelude.{List, ℕ, ◌^◌, ◌≤◌, All};

    ghost Value = { List (ℕ × ℕ) };

    ghost view = { λ a. a.items };

    ghost invariant = { λ a. All (λ o. o.1 ≤ 2 ^ 83) a.items };
}

impl Lottery {
    /// No outcome.
    pub fn new() -> Lottery
        ensures { result ≡ [] }
    {
        Lottery { items: Few::new() }
    }

    /// A law: there are at most four outcomes, with weights of at most 2^83.
    pub fn rules(&self)
        ensures few { length self.now ≤ 4 }
        ensures small { (k : ℕ) → k < length self.now → (slice_index_or self.now k (0, 0)).1 ≤ 2 ^ 83 }
    {
        self.items.rules();
    }

    /// How many outcomes there are.
    pub fn len(&self) -> u32
        ensures count { result ≡ length self.now }
        ensures few { result ≤ 4 }
    {
        self.items.len()
    }

    /// The number of the entry that is outcome `i`.
    pub fn entry(&self, i: u32) -> u32
        requires { i < length self.now }
        ensures { result ≡ (slice_index_or self.now i (0, 0)).0 }
    {
        self.items.get(i).0
    }

    /// The weight of outcome `i`.
    pub fn weight(&self, i: u32) -> i128
        requires { i < length self.now }
        ensures weight { result ≡ pos (slice_index_or self.now i (0, 0)).1 }
        ensures small { (slice_index_or self.now i (0, 0)).1 ≤ 2 ^ 83 }
    {
        self.items.get(i).1 as i128
    }

    /// Adds an outcome at the end.
    pub fn push(&mut self, entry: u32, weight: i128)
        requires room { length self.old < 4 }
        requires not_negative { pos 0 ≤ℤ weight }
        requires small { weight ≤ℤ pos (2 ^ 83) }
        ensures { self.new ≡ self.old ++ (entry, unsigned_abs weight) ∷ [] }
    {
        self.items.push((entry, weight as u128));
    }
}
