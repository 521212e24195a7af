//! Worked rows, which show that the definitions say what is meant.

ghost use Rattle.std.specs.Prelude.{◌≡◌, ℕ, List, codes, pos, Ok, Err};
ghost use Rattle.nfg_text.specs.declared.nfg.Nfg.{Nfg};
ghost use Rattle.nfg_text.specs.ReadGame.{IsReadGame};
ghost use Rattle.nfg_text.specs.Worked.{prisoners_dilemma};
ghost use Rattle.nfg_text.specs.Grammar.{nfg_of};
ghost use Rattle.nfg_text.specs.Writable.{IsWritable};
ghost use Rattle.nfg_text.specs.declared.fault.NfgFault.TheVariants.{Bad, Limit};
ghost use Rattle.nfg_text.specs.declared.what.What.TheVariants.{Digits, Players};

/// A law: the file of the prisoner's dilemma has its value, and the fault of its neighbours is the first, with
/// its place and cause.
pub fn faults_of_files()
    ensures whole { nfg_of (codes "NFG 1 R \"PD\" { \"1\" \"2\" } { 2 2 } 2 2 3 0 0 3 1 1") ≡ Ok prisoners_dilemma }
    ensures cut { nfg_of (codes "NFG 1 R \"PD\" { \"1\" \"2\" } { 2 2 } 2 2 3 0 0 3 1") ≡ Err (Bad 46) }
    ensures longer { nfg_of (codes "NFG 1 R \"PD\" { \"1\" \"2\" } { 2 2 } 2 2 3 0 0 3 1 1 1") ≡ Err (Bad 49) }
    ensures no_number { nfg_of (codes "NFG 1 R \"\" { \"1\" \"2\" } { 1 1 } 1/0 2") ≡ Err (Bad 31) }
    ensures no_outcome { nfg_of (codes "NFG 1 R \"\" { \"1\" \"2\" } { 1 1 } { { \"x\" 5 5 } } 2") ≡ Err (Bad 47) }
    ensures third { nfg_of (codes "NFG 1 R \"\" { \"1\" \"2\" \"3\" } { 1 1 } 0 0") ≡ Err (Limit Players (pos 3) 21) }
    ensures digits { nfg_of (codes "NFG 1 R \"\" { \"1\" \"2\" } { 1 1 } 1111111111111111111111111111111111111 0") ≡ Err (Limit Digits (pos 37) 31) }
{}

/// A law: whatever a text has keeps the form of a game.
pub fn read_games_keep_their_form()
    ensures { (bytes : List ℕ) (n : Nfg) → nfg_of bytes ≡ Ok n → IsReadGame n }
{}

/// A law: the prisoner's dilemma can be written.
pub fn writable_game()
    ensures { IsWritable prisoners_dilemma }
{}
