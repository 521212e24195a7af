//! One file from a shelf.

ghost use Rattle.std.specs.Prelude.{◌≡◌, ◌↔◌, ℕ, List, IfOk, IfErr};
ghost use Rattle.game_files.specs.Loads.{AreLoads, Stands, counts_of};
ghost use Rattle.game_files.specs.Causes.{IsLoadFault};

use crate::fault::{FileId, GameFault};
use pay_outside::{Shelf, ShelfFault};
use std::alloc::Global;

/// How many bytes a game's file may have.
pub const LONGEST_FILE: usize = 1_048_576;

/// The bytes of a file, at most `most`.
///
/// # Errors
///
/// `ReadFault` and `TooLong` of this file, where the shelf counted one, and `NoMemory`.
pub fn load<S: Shelf>(
    alloc: Global,
    shelf: &mut S,
    file: FileId,
    name: &str,
    most: usize,
) -> Result<Vec<u8>, GameFault>
    requires may_ask { S.may_ask shelf.old name.now }
    ensures stands { IfOk result (λ v. Stands (S.bytes shelf.old) most name.now v.items) }
    ensures why { IfErr result (IsLoadFault (S.bytes shelf.old) most file name.now
        (counts_of S.faults S.overlong S.loads shelf.old)
        (counts_of S.faults S.overlong S.loads shelf.new)) }
    ensures loads { AreLoads 1
        (counts_of S.faults S.overlong S.loads shelf.old)
        (counts_of S.faults S.overlong S.loads shelf.new) }
    ensures same_bytes { (n : List ℕ) → S.bytes shelf.new n ≡ S.bytes shelf.old n }
    ensures same_names { (n : List ℕ) → (S.may_ask shelf.new n ↔ S.may_ask shelf.old n) }
{
    match shelf.load(alloc, name, most) {
        Ok(bytes) => Ok(bytes),
        Err(ShelfFault::Failed) => Err(GameFault::ReadFault { file }),
        Err(ShelfFault::TooLong) => Err(GameFault::TooLong { file }),
        Err(ShelfFault::NoMemory) => Err(GameFault::NoMemory),
    }
}
