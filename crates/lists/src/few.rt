ghost use Rattle.std.specs.Prelude.{◌≡◌, ◌^◌, ◌<◌, ◌≤◌, [], ◌∷◌, ◌++◌, Some, length, slice_get};

use arrayvec::ArrayVec;
use std::marker::Model;

/// At most `CAP` items, which contracts see as a list of its items in order. It takes no memory. `CAP` is below 2^32.
#[derive(Debug, Drop)]
pub struct Few<T, const CAP: usize> {
    items: ArrayVec<T, CAP>,
}

impl<T, const CAP: usize> Model for Few<T, CAP> {
    ghost use Rattle.std.specs.Prelude.{List, ◌<◌, ◌≤◌, ◌^◌, length};

    ghost Value = { List T };

    ghost view = { λ a. a.items.items };

    ghost invariant = { λ a. (length a.items.items ≤ CAP) × (CAP < 2 ^ 32) };
}

impl<T: Default, const CAP: usize> Few<T, CAP> {
    /// No item.
    pub fn new() -> Few<T, CAP>
        requires { CAP < 2 ^ 32 }
        ensures { result ≡ [] }
    {
        Few {
            items: ArrayVec::new(),
        }
    }
}

impl<T, const CAP: usize> Few<T, CAP> {
    /// A law: there are at most `CAP` items.
    pub fn rules(&self)
        ensures { length self.now ≤ CAP }
    {
        let _count = self.items.len();
    }

    /// How many items there are.
    pub fn len(&self) -> u32
        ensures value { result ≡ length self.now }
        ensures room { length self.now ≤ CAP }
    {
        self.items.len() as u32
    }

    /// The item at `i`.
    pub fn get(&self, i: u32) -> &T
        requires { i < length self.now }
        ensures { slice_get self.now i ≡ Some result.now }
    {
        &self.items[i as usize]
    }
}

impl<T: Default + Drop, const CAP: usize> Few<T, CAP> {
    /// Adds `item` at the end.
    pub fn push(&mut self, item: T)
        requires { length self.old < CAP }
        ensures { self.new ≡ self.old ++ item ∷ [] }
    {
        self.items.push(item);
    }
}
