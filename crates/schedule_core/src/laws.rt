//! The laws of the core. Each is the contract of a function that does nothing.

ghost use Rattle.std.specs.Prelude.{◌≡◌, ℕ, ◌+◌, ◌<◌, All, List, []};
ghost use Rattle.level_table.specs.Problem.{IsProblem};
ghost use Rattle.game_model.specs.Game.{DynamicGame, states};
ghost use Rattle.level_table.specs.declared.reason.Note.{Note};
ghost use Rattle.level_table.specs.Notes.{HasRoomFor, NoteList};
ghost use Rattle.level_table.specs.Tables.{IsOpening, IsWhole};
ghost use Rattle.schedule_core.specs.declared.event.Event.{Event};
ghost use Rattle.schedule_core.specs.Frame.{Frame, IsFrame, IsNoteOver, IsOpened, rows_of};
ghost use Rattle.schedule_core.specs.Core.{Core, IsValid, IsWorking, MayHappen, joined, noted, seen_by, split, stepped};
ghost use Rattle.schedule_core.specs.Room.{HasRoom};
ghost use Rattle.schedule_core.specs.Runs.{Act, AllBound, MayRun, after, started};
ghost use Rattle.schedule_core.specs.declared.moves.Move.{Move};
ghost use Rattle.schedule_core.specs.Replays.{Agree, IsReplay};
ghost use Rattle.schedule_core.specs.Schedules.{FitsMove};

/// The opening table without notes is one from which a run may start.
pub fn opening_is_opened()
    ensures { (f : Frame) → IsProblem f.problem → IsWhole f.start → IsOpening f.problem f.start → IsOpened f [] }
{}

/// Notes with a free place for each state of the game have room.
pub fn fresh_notes_have_room()
    ensures { (g : DynamicGame) (notes : NoteList) → notes.spare ≡ states g → HasRoomFor g notes.each → HasRoom g notes }
{}

/// A run starts valid, with any number of workers.
pub fn start_is_valid()
    ensures frame { (f : Frame) (notes : List Note)
        → IsProblem f.problem → IsWhole f.start → IsOpened f notes → IsFrame f }
    ensures valid { (f : Frame) (n : ℕ) (notes : List Note)
        → IsFrame f → IsOpened f notes → IsValid (started f n notes) }
{}

/// Each event, note and move of passes keeps a state valid.
pub fn steps_keep_validity()
    ensures event { (c : Core) (e : Event) → IsFrame c.frame → IsValid c → MayHappen c e → IsValid (stepped c e) }
    ensures note { (c : Core) (note : Note)
        → IsFrame c.frame → IsValid c → IsNoteOver c.frame (seen_by c 0) c.notes note → IsValid (noted c note) }
    ensures split { (c : Core) (w : ℕ) → IsFrame c.frame → IsValid c → IsWorking c w → IsValid (split c w) }
    ensures join { (c : Core) (w : ℕ)
        → IsFrame c.frame → IsValid c → IsWorking c w → 0 < w → IsValid (joined c w) }
{}

/// After every list of events, notes and moves from a start, each word and each level that a worker has seen is at
/// least that of every table at most the start that is supported with slack 1, and bounds.
pub fn runs_keep_supported_tables()
    ensures valid { (f : Frame) (n : ℕ) (notes : List Note) (acts : List Act)
        → IsFrame f → IsOpened f notes → MayRun (started f n notes) acts → IsValid (after (started f n notes) acts) }
    ensures bound { (f : Frame) (n : ℕ) (notes : List Note) (acts : List Act)
        → IsFrame f → IsOpened f notes → MayRun (started f n notes) acts → AllBound (after (started f n notes) acts) }
{}

/// Replays of the same moves from one start have the same words, the same seen levels, and notes of the same states.
pub fn replays_agree()
    ensures { (f : Frame) (n : ℕ) (notes : List Note) (moves : List Move) (c d : Core)
        → IsReplay (started f n notes) moves c → IsReplay (started f n notes) moves d → Agree c d }
{}

/// A replay is a run: the moves make a list of events and notes, each of which may be where it stands.
pub fn replays_are_runs()
    ensures { (f : Frame) (n : ℕ) (notes : List Note) (moves : List Move) (c : Core)
        → All (FitsMove (n + 1) (rows_of f)) moves → IsReplay (started f n notes) moves c
        → (acts : List Act) × MayRun (started f n notes) acts × (c ≡ after (started f n notes) acts) }
{}
