//! Notes of a report that keeps the rules, which are those that a text writes, if it writes any.

ghost use Rattle.level_table.specs.declared.level.Level.TheVariants.{At, Empty};
ghost use Rattle.level_table.specs.declared.reason.Item.TheVariants.{Gain as GainItem, Level as LevelItem};
ghost use Rattle.level_table.specs.declared.reason.Reason.TheVariants.{Deviation, Successor};
ghost use Rattle.level_table.specs.declared.reason.Item.{Item as AnItem};
ghost use Rattle.level_table.specs.declared.reason.Note.{Note as ANote};
ghost use Rattle.level_table.specs.declared.reason.Reason.{Reason as AReason};
ghost use Rattle.level_table.specs.Levels.{IsSmall, levels_in};
ghost use Rattle.level_table.specs.Notes.{AreDistinct};
ghost use Rattle.report_text.specs.Reading.{EndsItems, EndsReasons, last_words, notes_words, whys_words};
ghost use Rattle.report_text.specs.ReportText.{item_words, items_words, reason_words};
ghost use Rattle.report_text.specs.Rules.{AreLevels, AreSizes, IsMultiplier, KeepItems, KeepNotes, KeepReasons, KeepsItem, KeepsReason, told};
ghost use Rattle.std.specs.Fmt.{signed_decimal};
ghost use Rattle.std.specs.Prelude.{◌≡◌, ◌≢◌, ℕ, ◌<◌, ◌≤◌, ◌++◌, ◌↔◌, [], ◌∷◌, IfOk, IsTrue, List, codes, decimal, length, map, slice_index_or, ℤ};

use crate::rules::Sizes;
use level_table::{Item, Items, Level, LevelTable, Note, Notes, Reason, ReasonList};
use report_lines::Words;
use std::alloc::{AllocError, Global};

/// The most reasons of a note.
const MOST_REASONS: u32 = 4096;

/// Notes of distinct states whose rows are all empty.
pub(crate) fn notes(
    alloc: Global,
    words: &mut Words<'_>,
    sizes: Sizes,
    levels: &LevelTable,
) -> Result<Notes, AllocError>
    requires sizes { AreSizes sizes }
    requires levels { AreLevels sizes levels.now }
    ensures distinct { IfOk result (λ n. AreDistinct n.list) }
    ensures keeps { IfOk result (λ n. KeepNotes sizes levels.now n.list) }
    ensures read { IfOk result (λ n. (list : List ANote) → AreDistinct list → KeepNotes sizes levels.now list → words.old ≡ notes_words list ++ last_words → map told list ≡ map told n.list) }
{
    let mut notes = Notes::new(alloc);
    for _kept in 0..sizes.states {
        if !words.next_is(b"empty") {
            return Ok(notes);
        }
        words.skip();
        let state = words.small(0, sizes.states - 1);
        if notes.has(state) || !is_empty(levels, state) {
            return Ok(notes);
        }
        let reasons = reasons(alloc, words, sizes)?;
        notes.push(Note { state, reasons })?;
    }
    Ok(notes)
}

/// Whether each row of a state is empty.
fn is_empty(levels: &LevelTable, state: u32) -> bool
    requires { state < levels.now.states }
    ensures { IsTrue result ↔ ((k : ℕ) → k < levels.now.directions → levels_in levels.now state k ≡ Empty) }
{
    for dir in 0..levels.directions() {
        if levels.at(state, dir) != Level::Empty {
            return false;
        }
    }
    true
}

/// The reasons that come next. They are read once to be counted, and once to be kept.
fn reasons(alloc: Global, words: &mut Words<'_>, sizes: Sizes) -> Result<ReasonList, AllocError>
    requires { AreSizes sizes }
    ensures few { IfOk result (λ r. length r.list ≤ 4096) }
    ensures keeps { IfOk result (λ r. KeepReasons sizes r.list) }
    ensures read { IfOk result (λ r. (s : ℕ) (list : List AReason) (rest : List (List ℕ)) → length list ≤ 4096 → KeepReasons sizes list → EndsReasons rest → words.old ≡ whys_words s 0 list ++ rest → (r.list ≡ list) × (words.new ≡ rest)) }
{
    let count = count_of(words, sizes);
    let mut reasons = ReasonList::with_room(alloc, count)?;
    for _kept in 0..count {
        reasons.push(why(words, sizes));
    }
    Ok(reasons)
}

/// How many reasons come next, at most as many as a note may have.
fn count_of(words: &Words<'_>, sizes: Sizes) -> u32
    requires { AreSizes sizes }
    ensures few { result ≤ 4096 }
    ensures read { (s : ℕ) (list : List AReason) (rest : List (List ℕ)) → length list ≤ 4096 → KeepReasons sizes list → EndsReasons rest → words.now ≡ whys_words s 0 list ++ rest → result ≡ length list }
{
    let mut ahead = words.same();
    for count in 0..MOST_REASONS {
        if !ahead.next_is(b"why") {
            return count;
        }
        let _reason = why(&mut ahead, sizes);
    }
    MOST_REASONS
}

/// The reason of a profile.
fn why(words: &mut Words<'_>, sizes: Sizes) -> Reason
    requires { AreSizes sizes }
    ensures keeps { KeepsReason sizes result }
    ensures read { (s a : List ℕ) (r : AReason) (rest : List (List ℕ)) → KeepsReason sizes r → EndsItems rest → words.old ≡ codes "why" ∷ s ∷ a ∷ (reason_words r ++ rest) → (result ≡ r) × (words.new ≡ rest) }
{
    words.skip();
    words.skip();
    words.skip();
    reason(words, sizes)
}

/// A reason behind its profile.
fn reason(words: &mut Words<'_>, sizes: Sizes) -> Reason
    requires { AreSizes sizes }
    ensures keeps { KeepsReason sizes result }
    ensures read { (r : AReason) (rest : List (List ℕ)) → KeepsReason sizes r → EndsItems rest → words.old ≡ reason_words r ++ rest → (result ≡ r) × (words.new ≡ rest) }
{
    if words.next_is(b"successor") {
        words.skip();
        successor(words, sizes)
    } else {
        other_reason(words, sizes)
    }
}

/// A reason of another kind than that the profile leads to an empty state.
fn other_reason(words: &mut Words<'_>, sizes: Sizes) -> Reason
    requires { AreSizes sizes }
    ensures keeps { KeepsReason sizes result }
    ensures read { (r : AReason) (rest : List (List ℕ)) → KeepsReason sizes r → slice_index_or words.old 0 [] ≢ codes "successor" → EndsItems rest → words.old ≡ reason_words r ++ rest → (result ≡ r) × (words.new ≡ rest) }
{
    if words.next_is(b"deviation") {
        words.skip();
        deviation(words, sizes)
    } else {
        words.skip();
        Reason::Farkas {
            items: items(words, sizes),
        }
    }
}

/// An earlier note's state, to which the profile leads.
fn successor(words: &mut Words<'_>, sizes: Sizes) -> Reason
    requires { AreSizes sizes }
    ensures keeps { KeepsReason sizes result }
    ensures read { (t : ℕ) (rest : List (List ℕ)) → t < sizes.states → words.old ≡ decimal t ∷ rest → (result ≡ Successor t) × (words.new ≡ rest) }
{
    let state = words.small(0, sizes.states - 1);
    Reason::Successor { state }
}

/// A deviation, and the state that it leads to.
fn deviation(words: &mut Words<'_>, sizes: Sizes) -> Reason
    requires { AreSizes sizes }
    ensures keeps { KeepsReason sizes result }
    ensures read { (i b t : ℕ) (rest : List (List ℕ)) → i < sizes.players → b < 16 → t < sizes.states → words.old ≡ decimal i ∷ decimal b ∷ decimal t ∷ rest → (result ≡ Deviation i b t) × (words.new ≡ rest) }
{
    let player = words.small(0, sizes.players - 1);
    let strategy = words.small(0, 15);
    let state = words.small(0, sizes.states - 1);
    Reason::Deviation {
        player,
        strategy,
        state,
    }
}

/// One to four items.
fn items(words: &mut Words<'_>, sizes: Sizes) -> Items
    requires { AreSizes sizes }
    ensures some { 1 ≤ length result }
    ensures few { length result ≤ 4 }
    ensures keeps { KeepItems sizes result }
    ensures read { (list : List AnItem) (rest : List (List ℕ)) → 1 ≤ length list → length list ≤ 4 → KeepItems sizes list → EndsItems rest → words.old ≡ items_words list ++ rest → (result ≡ list) × (words.new ≡ rest) }
{
    let mut items = Items::new();
    items.push(item(words, sizes));
    for _kept in 1..4u32 {
        if ends_items(words) {
            return items;
        }
        items.push(item(words, sizes));
    }
    items
}

/// Whether no item comes next.
fn ends_items(words: &Words<'_>) -> bool
    ensures { IsTrue result ↔ EndsItems words.now }
{
    !words.next_is(b"level") && !words.next_is(b"gain")
}

/// An item, with a multiplier from 1 to 2^20.
fn item(words: &mut Words<'_>, sizes: Sizes) -> Item
    requires { AreSizes sizes }
    ensures keeps { KeepsItem sizes result }
    ensures read { (i : AnItem) (rest : List (List ℕ)) → KeepsItem sizes i → words.old ≡ item_words i ++ rest → (result ≡ i) × (words.new ≡ rest) }
{
    if words.next_is(b"level") {
        words.skip();
        level_item(words, sizes)
    } else {
        words.skip();
        gain_item(words, sizes)
    }
}

/// A half-plane of the next state.
fn level_item(words: &mut Words<'_>, sizes: Sizes) -> Item
    requires { AreSizes sizes }
    ensures keeps { KeepsItem sizes result }
    ensures read { (k : ℕ) (x times : ℤ) (rest : List (List ℕ)) → k < sizes.directions → IsSmall (At x) → IsMultiplier times → words.old ≡ decimal k ∷ signed_decimal x ∷ signed_decimal times ∷ rest → (result ≡ LevelItem k x times) × (words.new ≡ rest) }
{
    let dir = words.small(0, sizes.directions - 1);
    let level = words.level();
    let times = words.whole(1, 1 << 20);
    Item::Level { dir, level, times }
}

/// A deviation that is deterred.
fn gain_item(words: &mut Words<'_>, sizes: Sizes) -> Item
    requires { AreSizes sizes }
    ensures keeps { KeepsItem sizes result }
    ensures read { (i b : ℕ) (x times : ℤ) (rest : List (List ℕ)) → i < sizes.players → b < 16 → IsSmall (At x) → IsMultiplier times → words.old ≡ decimal i ∷ decimal b ∷ signed_decimal x ∷ signed_decimal times ∷ rest → (result ≡ GainItem i b x times) × (words.new ≡ rest) }
{
    let player = words.small(0, sizes.players - 1);
    let strategy = words.small(0, 15);
    let level = words.level();
    let times = words.whole(1, 1 << 20);
    Item::Gain {
        player,
        strategy,
        level,
        times,
    }
}
