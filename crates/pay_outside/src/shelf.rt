// A shelf: what files are read from.
ghost use Rattle.std.specs.Prelude.{◌≡◌, ℕ, ◌+◌, ◌<◌, ◌≤◌, ◌↔◌, List, length, Option, None, Some, IfOk, IfSome, vec_len};
ghost use Rattle.pay_outside.specs.Counts.{Rose, faults_after, overlong_after};

use std::alloc::Global;
use thiserror::Error;

/// Why a load gave no bytes.
#[derive(Clone, Copy, Debug, PartialEq, Eq, Error)]
pub enum ShelfFault {
    #[error("the file can't be read")]
    Failed,
    #[error("the file is too long")]
    TooLong,
    #[error("out of memory")]
    NoMemory,
}

/// What files are read from, by name. It keeps two counts that never fall, of faults and of overlong loads. Each
/// starts at 0 and stands still at 2^64 - 1.
pub trait Shelf {
    /// The bytes that stand under a name, where the shelf tells them.
    ghost bytes: { Self → List ℕ → Option (List ℕ) };

    /// Which names may be asked for.
    ghost may_ask: { Self → List ℕ → Type 0 };

    /// The number of loads so far, where the shelf tells it.
    ghost loads: { Self → Option ℕ };

    /// The count of faults.
    ghost faults: { Self → ℕ };

    /// The count of loads of a file that was too long.
    ghost overlong: { Self → ℕ };

    /// The bytes of a file, of which there are at most `most`. `NoMemory` may come at any load.
    fn load(&mut self, alloc: Global, name: &str, most: usize) -> Result<Vec<u8>, ShelfFault>
        requires { may_ask self.old name.now }
        ensures within { IfOk result (λ v. vec_len v ≤ most) }
        ensures exact { IfSome (bytes self.old name.now) (λ b. IfOk result (λ v. v.items ≡ b)) }

        // Each fault has its cause.
        ensures failed { result ≡ Err ShelfFault.Failed → Rose (faults self.old) (faults self.new) }
        ensures too_long { result ≡ Err ShelfFault.TooLong → Rose (overlong self.old) (overlong self.new) }
        ensures over { result ≡ Err ShelfFault.TooLong → IfSome (bytes self.old name.now) (λ b. most < length b) }

        // What stays, and what is counted.
        ensures same_bytes { (n : List ℕ) → bytes self.new n ≡ bytes self.old n }
        ensures same_names { (n : List ℕ) → (may_ask self.new n ↔ may_ask self.old n) }
        ensures counted { IfSome (loads self.new) (λ n. (m : ℕ) × (loads self.old ≡ Some m) × (n ≡ m + 1)) }
        ensures faults_grow { faults self.old ≤ faults self.new }
        ensures overlong_grow { overlong self.old ≤ overlong self.new };

    /// A shelf that doesn't tell the bytes under a name that may be asked for may be asked for every name.
    ghost untold_is_open: { (shelf : Self) (untold name : List ℕ) → may_ask shelf untold → bytes shelf untold ≡ None → may_ask shelf name };
}

// Raises the count that the answer of a load calls for.
pub(crate) fn count_answer(
    answer: &Result<Vec<u8>, ShelfFault>,
    faults: &mut u64,
    overlong: &mut u64,
)
    ensures faults { faults.new ≡ faults_after answer.now faults.old }
    ensures overlong { overlong.new ≡ overlong_after answer.now overlong.old }
    ensures faults_grow { faults.old ≤ faults.new }
    ensures overlong_grow { overlong.old ≤ overlong.new }
{
    match answer {
        Err(ShelfFault::Failed) => *faults = faults.saturating_add(1),
        Err(ShelfFault::TooLong) => *overlong = overlong.saturating_add(1),
        Err(ShelfFault::NoMemory) | Ok(_) => {}
    }
}
