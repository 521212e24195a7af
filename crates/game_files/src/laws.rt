ghost use Rattle.std.specs.Prelude.{◌≡◌, ℕ, List, Option};
ghost use Rattle.pay_outside.specs.Counts.{Rose};
ghost use Rattle.pay_frac.specs.Ratio.{Ratio};
ghost use Rattle.game_files.specs.declared.fault.GameFault.{GameFault};
ghost use Rattle.game_files.specs.declared.fault.GameFault.TheVariants.{NoMemory};
ghost use Rattle.game_files.specs.Loads.{Counts};
ghost use Rattle.game_files.specs.Causes.{AreRight, IsNoGame};

/// A law: where the shelf tells the files, and they make a game, only a fault of the shelf or want of memory stands in
/// its way.
pub fn game_laws()
    ensures { (told : List ℕ → Option (List ℕ)) (name : List ℕ) (discount : Ratio) (before after : Counts) (r : GameFault) →
        AreRight told name discount → IsNoGame told name discount before after r → (Rose before.faults after.faults → ⊥) → r ≡ NoMemory }
{}
