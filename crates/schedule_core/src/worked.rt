//! Worked rows, which show that the definitions say what is meant.

ghost use Rattle.std.specs.Prelude.{◌≡◌, [], ◌∷◌, codes, pos, Ok, Err};
ghost use Rattle.nfg_text.specs.declared.what.What.TheVariants.{Digits};
ghost use Rattle.schedule_core.specs.declared.moves.Move.TheVariants.{Load, Lower, Clear};
ghost use Rattle.schedule_core.specs.declared.schedule_fault.ScheduleFault.TheVariants.{Bad, Limit};
ghost use Rattle.schedule_core.specs.Schedules.{schedule_of};

/// A law: a schedule of two workers has its value, and the fault of its neighbours is the first, with its place and
/// cause.
pub fn faults_of_schedules()
    ensures whole { schedule_of 4 (codes "SCH 1 2 { lower 0 3 load 1 2 clear 0 1 }") ≡ Ok (record { workers = 2; moves = Lower 0 3 ∷ Load 1 2 ∷ Clear 1 ∷ [] }) }
    ensures no_worker { schedule_of 4 (codes "SCH 1 0 { }") ≡ Err (Bad 6) }
    ensures many_workers { schedule_of 4 (codes "SCH 1 17 { }") ≡ Err (Bad 6) }
    ensures row { schedule_of 4 (codes "SCH 1 1 { clear 0 4 }") ≡ Err (Bad 18) }
    ensures worker { schedule_of 4 (codes "SCH 1 2 { load 2 0 }") ≡ Err (Bad 15) }
    ensures not_owner { schedule_of 4 (codes "SCH 1 2 { clear 1 0 }") ≡ Err (Bad 16) }
    ensures large { schedule_of 4 (codes "SCH 1 2 { load 0 4294967296 }") ≡ Err (Bad 17) }
    ensures digits { schedule_of 4 (codes "SCH 1 2 { load 0000000000000000000000000000000000001 0 }") ≡ Err (Limit Digits (pos 37) 15) }
    ensures open { schedule_of 4 (codes "SCH 1 2 { load 0 1") ≡ Err (Bad 18) }
{}
