//! The laws that make outer bounds bounds (Judd, Yeltekin and Conklin 2003). Each speaks of the definitions alone,
//! for games and tables of directions within their limits and every start, and is the contract of a function that does
//! nothing.
//!
//! The road from levels to payoffs goes by supported tables. The table of a self-generating correspondence is
//! supported with slack 1, and it is at most each start whose levels bound. No row level falls below such a table. So
//! each level of a run is at least the largest payoff of each self-generating correspondence, in its direction.
#![tactic(auto)]

ghost use Rattle.std.specs.Prelude.{◌≡◌, ℕ, ◌+◌, ◌<◌, List, [], ◌∷◌, ◌++◌, ℤ, pos, ◌+ℤ◌, ◌-ℤ◌, ◌*ℤ◌, ◌≤ℤ◌, neg_ℤ};
ghost use Rattle.direction_set.specs.DirectionTable.{opposite_of};
ghost use Rattle.game_model.specs.Game.{states, counts, profile_count};
ghost use Rattle.game_model.specs.SelfGeneration.{Correspondence, HasNoEntry, IsSelfGenerating};
ghost use Rattle.level_table.specs.declared.level.Level.{Level};
ghost use Rattle.level_table.specs.declared.level.Level.TheVariants.{At, Empty};
ghost use Rattle.level_table.specs.Problem.{Problem, direction_count, opening_level, IsProblem};
ghost use Rattle.level_table.specs.Levels.{AtMost, Bounds, IsBelow, IsRow, Levels, lesser, opening_table};
ghost use Rattle.level_table.specs.Operator.{Admissible, Fractions, HasValueAbove, IsRowLevel, value, value_unit};
ghost use Rattle.level_table.specs.Supported.{IsEven, IsSupported};
ghost use Rattle.level_table.specs.Iterates.{IsIterate, IsNext, drop_of};
ghost use Rattle.level_table.specs.declared.reason.Note.{Note};
ghost use Rattle.level_table.specs.Notes.{AreNotes, IsNote, Named, bounding, levels_of};
ghost use Rattle.level_table.specs.Start.{IsAboveSupported, IsBetween, IsStart};
ghost use Rattle.bound_laws.specs.Falls.{HasFloor, IsBelowIterate, PassesRowLevels, most_drop};
ghost use Rattle.bound_laws.specs.Laws.{HasBounds, HasKeptAbove, HasRange, KeepsSupported};
ghost use Rattle.bound_laws.specs.TableOf.{IsTableFrom};

/// A greater table admits more continuation payoffs, so its row levels and its iterates are at least as great. A row
/// has one level.
pub fn operator_is_monotone()
    ensures admissible_grows { (p : Problem) (t u : Levels) (s a : ℕ) (y : Fractions)
        → IsProblem p → IsBelow p t u → s < states p.game → a < profile_count (counts p.game s)
        → Admissible p t s a y → Admissible p u s a y }
    ensures row_levels_grow { (p : Problem) (t u : Levels) (s k : ℕ) (l m : Level)
        → IsProblem p → s < states p.game → IsBelow p t u
        → IsRowLevel p t s k l → IsRowLevel p u s k m → AtMost l m }
    ensures row_level_is_unique { (p : Problem) (t : Levels) (s k : ℕ) (l m : Level)
        → IsProblem p → s < states p.game → IsRowLevel p t s k l → IsRowLevel p t s k m → l ≡ m }
    ensures next_grows { (p : Problem) (t u next_t next_u : Levels)
        → IsProblem p → IsBelow p t u → IsNext p t next_t → IsNext p u next_u → IsBelow p next_t next_u }
    ensures iterates_grow { (p : Problem) (t u : Levels) (r : ℕ) (after_t after_u : Levels)
        → IsProblem p → IsBelow p t u → IsIterate p t r after_t → IsIterate p u r after_u
        → IsBelow p after_t after_u }
{}

/// Iterates only fall.
pub fn iterates_fall()
    ensures next { (p : Problem) (t u : Levels) → IsNext p t u → IsBelow p u t }
    ensures iterate { (p : Problem) (start : Levels) (r : ℕ) (t : Levels) → IsIterate p start r t → IsBelow p t start }
{}

/// A table `u` that is supported with slack 1 and at most the present table is at most its row levels. So it stays at
/// most each word that is lowered to a row level, and at most each iterate of a start that it is at most.
pub fn row_levels_keep_a_supported_table()
    ensures row_level { (p : Problem) (t u : Levels) (s k : ℕ) (l : Level)
        → IsProblem p → IsRow p s k → IsBelow p u t → IsSupported p u 1
        → IsRowLevel p t s k l → AtMost (u s k) l }
    ensures lowered { (p : Problem) (t u : Levels) (s k : ℕ) (word l : Level)
        → IsProblem p → IsRow p s k → IsBelow p u t → IsSupported p u 1
        → AtMost (u s k) word → IsRowLevel p t s k l → AtMost (u s k) (lesser word l) }
    ensures next { (p : Problem) (t u next_t : Levels)
        → IsProblem p → IsBelow p u t → IsSupported p u 1 → IsNext p t next_t → IsBelow p u next_t }
    ensures iterate { (p : Problem) (start u : Levels) (r : ℕ) (t : Levels)
        → IsProblem p → IsBelow p u start → IsSupported p u 1 → IsIterate p start r t → IsBelow p u t }
{}

/// What a run keeps: each level is at least that of every supported table at most the start. The start does, the row
/// level of seen levels that do does, and so does the lesser of two levels that do, and Empty in a state that right
/// notes name.
pub fn levels_keep_supported_tables()
    ensures start { (p : Problem) (start : Levels) → KeepsSupported p start start }
    ensures row_level { (p : Problem) (start seen : Levels) (s k : ℕ) (l : Level)
        → IsProblem p → KeepsSupported p start seen → IsRow p s k → IsRowLevel p seen s k l
        → IsAboveSupported p start s k l }
    ensures lesser_of_two { (p : Problem) (start : Levels) (s k : ℕ) (l m : Level)
        → IsAboveSupported p start s k l → IsAboveSupported p start s k m
        → IsAboveSupported p start s k (lesser l m) }
    ensures named_empty { (p : Problem) (start : Levels) (notes : List Note) (s k : ℕ)
        → IsProblem p → HasKeptAbove p start notes → Named notes s → IsRow p s k
        → IsAboveSupported p start s k Empty }
{}

/// A self-generating correspondence has a table: in each row the least whole number that no point of the state is
/// beyond, and Empty where the state has no entry. It is supported with slack 1, each level by the lottery of an entry
/// that attains it, and at most each table whose levels bound.
pub fn correspondences_have_supported_tables()
    ensures exists { (p : Problem) (c : Correspondence)
        → IsProblem p → IsSelfGenerating p.game c → (t : Levels) × IsTableFrom p c t }
    ensures supported { (p : Problem) (c : Correspondence) (t : Levels)
        → IsProblem p → IsSelfGenerating p.game c → IsTableFrom p c t → IsSupported p t 1 }
    ensures below { (p : Problem) (c : Correspondence) (t start : Levels)
        → IsProblem p → IsSelfGenerating p.game c → IsTableFrom p c t → HasBounds p start
        → IsBelow p t start }
{}

/// A level that is at least that of each supported table at most the start bounds, if the levels of the start do
/// (Abreu, Pearce and Stacchetti 1990: the largest self-generating set is within each iterate). A level that is
/// greater than one that bounds bounds.
pub fn levels_above_supported_tables_bound()
    ensures level { (p : Problem) (start : Levels) (s k : ℕ) (l : Level)
        → IsProblem p → HasBounds p start → IsRow p s k → IsAboveSupported p start s k l
        → Bounds p s k l }
    ensures table { (p : Problem) (start t : Levels)
        → IsProblem p → HasBounds p start → KeepsSupported p start t → HasBounds p t }
    ensures greater { (p : Problem) (s k : ℕ) (l m : Level) → IsProblem p → Bounds p s k l → AtMost l m → Bounds p s k m }
{}

/// The opening bounds: no point of a self-generating correspondence is beyond the largest payoffs. So the opening
/// table without notes is a start.
pub fn opening_is_start()
    ensures bounds { (p : Problem) → IsProblem p → HasBounds p (opening_table p) }
    ensures start { (p : Problem) → IsProblem p → IsStart p (opening_table p) [] }
{}

/// Under a table that is at most the opening, each admissible value and each row level lies between the negative of
/// the opposite opening level and the opening level. So do the iterates of a table that does.
pub fn nothing_passes_the_opening()
    ensures value_at_most { (p : Problem) (t : Levels) (s a k : ℕ) (y : Fractions)
        → IsProblem p → IsBelow p t (opening_table p) → IsRow p s k
        → a < profile_count (counts p.game s) → Admissible p t s a y
        → value p s a k y ≤ℤ (opening_level p k *ℤ value_unit p y) }
    ensures value_at_least { (p : Problem) (t : Levels) (s a k : ℕ) (y : Fractions)
        → IsProblem p → IsBelow p t (opening_table p) → IsRow p s k
        → a < profile_count (counts p.game s) → Admissible p t s a y
        → (neg_ℤ (opening_level p (opposite_of k)) *ℤ value_unit p y) ≤ℤ value p s a k y }
    ensures row_level { (p : Problem) (t : Levels) (s k : ℕ) (l : Level)
        → IsProblem p → IsBelow p t (opening_table p) → IsRow p s k → IsRowLevel p t s k l
        → IsBetween p k l }
    ensures iterate { (p : Problem) (start : Levels) (r : ℕ) (t : Levels)
        → IsProblem p → HasRange p start → IsIterate p start r t → HasRange p t }
{}

/// Under right notes a supported table is Empty in each named state, if it is at most the levels that the notes keep:
/// those of a table, or levels that are at least those of each supported table at most the start.
pub fn notes_name_empty_states()
    ensures kept_in_table { (p : Problem) (t u : Levels) (notes : List Note) (s k : ℕ)
        → IsProblem p → AreNotes p (levels_of t) notes → IsBelow p u t → IsSupported p u 1
        → Named notes s → k < direction_count p → u s k ≡ Empty }
    ensures kept_above { (p : Problem) (start u : Levels) (notes : List Note) (s k : ℕ)
        → IsProblem p → HasKeptAbove p start notes → IsBelow p u start → IsSupported p u 1
        → Named notes s → k < direction_count p → u s k ≡ Empty }
{}

/// Where the levels that right notes keep bound, no self-generating correspondence has an entry in a named state.
/// They bound if they are at least those of each supported table at most the start, and the start's levels bound. A
/// right note over seen levels that are so may be added.
pub fn notes_keep_levels_that_bound()
    ensures named { (p : Problem) (notes : List Note) (s : ℕ)
        → IsProblem p → AreNotes p (bounding p) notes → Named notes s → HasNoEntry p.game s }
    ensures kept_above { (p : Problem) (start : Levels) (notes : List Note)
        → IsProblem p → HasBounds p start → HasKeptAbove p start notes → AreNotes p (bounding p) notes }
    ensures one_more { (p : Problem) (start seen : Levels) (notes : List Note) (note : Note)
        → IsProblem p → KeepsSupported p start seen → HasKeptAbove p start notes
        → IsNote p (levels_of seen) notes note → HasKeptAbove p start (notes ++ note ∷ []) }
{}

/// A table that is lowered to the row levels of what it was, or of any greater table, is at most one iterate more. So
/// the table of a run of r sweeps is at most the iterate after r steps, in whatever order its rows are lowered.
pub fn tables_fall_below_iterates()
    ensures start { (p : Problem) (start t : Levels) → IsBelow p t start → IsBelowIterate p start 0 t }
    ensures next { (p : Problem) (start t u : Levels) (r : ℕ)
        → IsBelowIterate p start r t → IsBelow p u t → PassesRowLevels p t u
        → IsBelowIterate p start (r + 1) u }
{}

/// A table that comes down from the start drops by more and more, and at most by the heights of all rows and the
/// number of states. Where a row has no admissible value above its level less the slack, a table that is at most its
/// row level has dropped by one more: the level falls, or the state becomes Empty.
pub fn drop_grows()
    ensures start { (p : Problem) (start : Levels) → IsProblem p → IsEven p start → drop_of p start start ≡ pos 0 }
    ensures grows { (p : Problem) (start t u : Levels)
        → IsProblem p → HasFloor p start t → IsBelow p u t → drop_of p start t ≤ℤ drop_of p start u }
    ensures rises { (p : Problem) (start t u : Levels) (s k : ℕ) (x : ℤ) (slack : ℕ) (l : Level)
        → IsProblem p → IsEven p t → IsEven p u → HasFloor p start t → IsBelow p t start → IsBelow p u t
        → IsRow p s k → t s k ≡ At x → 0 < slack → (HasValueAbove p t s k (x -ℤ pos slack) → ⊥)
        → IsRowLevel p t s k l → AtMost (u s k) l
        → (drop_of p start t +ℤ pos 1) ≤ℤ drop_of p start u }
    ensures at_most { (p : Problem) (start t : Levels) → HasFloor p start t → drop_of p start t ≤ℤ most_drop p start }
    ensures from_opening { (p : Problem) (t : Levels) → HasRange p t → HasFloor p (opening_table p) t }
{}
