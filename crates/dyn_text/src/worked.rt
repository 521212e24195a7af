//! Worked rows, which show that the definitions say what is meant.

ghost use Rattle.std.specs.Prelude.{◌≡◌, ◌≤◌, [], ◌∷◌, ◌++◌, ℕ, List, codes, length, pos, neg_ℤ, Ok, Err};
ghost use Rattle.dyn_text.specs.declared.transitions.Dyn.{Dyn};
ghost use Rattle.dyn_text.specs.Assembled.{game_of_texts, units};
ghost use Rattle.dyn_text.specs.Grammar.{dyn_of};
ghost use Rattle.dyn_text.specs.Single.{single_of};
ghost use Rattle.dyn_text.specs.Writable.{IsWritable};
ghost use Rattle.nfg_text.specs.declared.fault.NfgFault.TheVariants.{Bad, Limit};
ghost use Rattle.nfg_text.specs.declared.what.What.TheVariants.{Digits, Whole};
ghost use Rattle.game_model.specs.Worked.{prisoners};
ghost use Rattle.nfg_text.specs.Worked.{prisoners_dilemma};

/// A law: a file of two states has its value, and the fault of its neighbours is the first, with its place and
/// cause.
pub fn faults_of_files()
    ensures whole { dyn_of (codes "DYN 1 \"two\" { { \"good\" \"pd.nfg\" { 0 1 1 1 } } { \"bad\" \"nil.nfg\" { 1 } } }") ≡ Ok (record { title = codes "two"; states = record { name = codes "good"; file = codes "pd.nfg"; next = 0 ∷ 1 ∷ 1 ∷ 1 ∷ [] } ∷ record { name = codes "bad"; file = codes "nil.nfg"; next = 1 ∷ [] } ∷ [] }) }
    ensures no_state { dyn_of (codes "DYN 1 \"x\" { }") ≡ Err (Bad 12) }
    ensures open { dyn_of (codes "DYN 1 \"x\" { { \"a\" \"b\" { 0 } }") ≡ Err (Bad 29) }
    ensures longer { dyn_of (codes "DYN 1 \"x\" { { \"a\" \"b\" { 0 } } } }") ≡ Err (Bad 32) }
    ensures large { dyn_of (codes "DYN 1 \"x\" { { \"a\" \"b\" { 4294967296 } } }") ≡ Err (Limit Whole (pos 4294967296) 24) }
    ensures sign { dyn_of (codes "DYN 1 \"x\" { { \"a\" \"b\" { 0 -1 } } }") ≡ Err (Bad 26) }
{}

/// A law: whatever a text has is 1 to 64 states.
pub fn files_have_states()
    ensures { (bytes : List ℕ) (d : Dyn) → dyn_of bytes ≡ Ok d → (1 ≤ length d.states) × (length d.states ≤ 64) }
{}

/// A law: transitions of two states can be written.
pub fn writable_transitions()
    ensures { IsWritable (record { title = codes "two"; states = record { name = codes "good"; file = codes "pd.nfg"; next = 0 ∷ 1 ∷ 1 ∷ 1 ∷ [] } ∷ record { name = codes "bad"; file = codes "nil.nfg"; next = 1 ∷ [] } ∷ [] }) }
{}

/// A law: the game of the prisoner's dilemma's file alone is that of its definition, and payoffs are in units.
pub fn games_of_files()
    ensures alone { game_of_texts (single_of prisoners_dilemma) (prisoners_dilemma ∷ []) (record { num = pos 1; den = pos 2 }) 1 ≡ prisoners 1 2 }
    ensures half { units 10 (record { num = neg_ℤ (pos 1); den = pos 2 }) ≡ neg_ℤ (pos 5) }
    ensures tenth { units 10 (record { num = pos 1; den = pos 10 }) ≡ pos 1 }
{}
