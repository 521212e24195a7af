ghost use Rattle.std.specs.Prelude.{◌≡◌, ℕ, ◌+◌, ◌-◌, ◌^◌, ◌<◌, ◌≤◌, ◌↔◌, [], ◌∷◌, ◌++◌, length, slice_index_or, IsTrue, IfOk, OnOk, OnErr};
ghost use Rattle.game_model.specs.Game.{states};
ghost use Rattle.level_table.specs.Notes.{HasRoomFor, Named};
ghost use Rattle.level_table.specs.Room.{AreSpare};

use super::reason::{Note, ReasonList};
use game_model::Game;
use std::alloc::{AllocError, Global};
use std::marker::Model;
use std::mem;

/// Notes of distinct states, in the order in which they came, with room for some more, for which adding
/// takes no memory. Contracts see the list, how many more there is room for, and for how many reasons the
/// list has room that each of these leaves behind.
#[derive(Drop)]
pub struct Notes {
    notes: Vec<Note>,
    lists: Vec<ReasonList>,
    each: u32,
}

impl Model for Notes {
    ghost use Rattle.std.specs.Prelude.{◌+◌, ◌<◌, ◌≤◌, ◌^◌, vec_len, vec_capacity};
    ghost use Rattle.level_table.specs.Notes.{AreDistinct, NoteList};
    ghost use Rattle.level_table.specs.Room.{AreSpare};

    ghost Value = { NoteList };

    ghost view = { λ a. record { list = a.notes.items; spare = vec_len a.lists; each = a.each } };

    ghost invariant = { λ a.
        AreDistinct a.notes.items
        × AreSpare a.each a.lists.items
        × (vec_len a.notes + vec_len a.lists ≤ vec_capacity a.notes)
        × (vec_len a.notes + vec_len a.lists < 2 ^ 32) };
}

impl Notes {
    /// No notes, and no room.
    pub fn new(alloc: Global) -> Notes
        ensures { result ≡ record { list = []; spare = 0; each = 0 } }
    {
        Notes {
            notes: Vec::new(alloc),
            lists: Vec::new(alloc),
            each: 0,
        }
    }

    /// No notes, with room for one of each state of the game.
    pub fn with_room(alloc: Global, game: &Game) -> Result<Notes, AllocError>
        ensures none { IfOk result (λ n. n.list ≡ []) }
        ensures spare { IfOk result (λ n. n.spare ≡ states game.now) }
        ensures each { IfOk result (λ n. HasRoomFor game.now n.each) }
    {
        let states = game.states();
        let each = most_profiles(game);
        let notes = Vec::with_capacity(alloc, states as usize)?;
        let lists = spare_lists(alloc, states, each)?;
        Ok(Notes { notes, lists, each })
    }

    /// How many notes there are.
    pub fn len(&self) -> u32
        ensures { result ≡ length self.now.list }
    {
        self.notes.len() as u32
    }

    /// The note at `i`.
    pub fn get(&self, i: u32) -> &Note
        requires { i < length self.now.list }
        ensures { result.now ≡ slice_index_or self.now.list i result.now }
    {
        &self.notes[i as usize]
    }

    /// Whether one of the notes is of this state.
    pub fn has(&self, state: u32) -> bool
        ensures { IsTrue result ↔ Named self.now.list state }
    {
        for i in 0..self.notes.len() {
            if self.notes[i].state == state {
                return true;
            }
        }
        false
    }

    /// Moves the note to the end, where there is room, and leaves behind an empty one with a spare list.
    pub fn add(&mut self, note: &mut Note)
        requires new { Named self.old.list note.old.state → ⊥ }
        requires room { 0 < self.old.spare }
        ensures list { self.new.list ≡ self.old.list ++ note.old ∷ [] }
        ensures spare { self.new.spare + 1 ≡ self.old.spare }
        ensures each { self.new.each ≡ self.old.each }
        ensures left { note.new ≡ record { state = note.old.state; reasons = record { list = []; spare = self.old.each } } }
    {
        match self.lists.pop() {
            Some(list) => {
                let reasons = mem::replace(&mut note.reasons, list);
                let kept = Note {
                    state: note.state,
                    reasons,
                };
                match self.notes.push(kept) {
                    Ok(()) => {}
                    Err(_) => unreachable!(),
                }
            }
            None => unreachable!(),
        }
    }

    /// Adds a note at the end. After a refusal the notes are unchanged and the note is dropped.
    pub fn push(&mut self, note: Note) -> Result<(), AllocError>
        requires new { Named self.old.list note.state → ⊥ }
        requires few { length self.old.list + self.old.spare < 2 ^ 32 - 1 }
        ensures ok { OnOk result (self.new.list ≡ self.old.list ++ note ∷ []) }
        ensures err { OnErr result (self.new.list ≡ self.old.list) }
        ensures spare { self.new.spare ≤ self.old.spare }
    {
        let _spare = self.lists.pop();
        self.notes.push(note)?;
        Ok(())
    }
}

/// As many as any state of the game has profiles.
pub fn most_profiles(game: &Game) -> u32
    ensures { HasRoomFor game.now result }
{
    let _players = game.players();
    let mut most = 0;
    for s in 0..game.states() {
        most = most.max(game.profiles(s));
    }
    most
}

/// Empty lists with room for `each` reasons.
fn spare_lists(alloc: Global, count: u32, each: u32) -> Result<Vec<ReasonList>, AllocError>
    ensures count { IfOk result (λ v. length v.items ≡ count) }
    ensures each { IfOk result (λ v. AreSpare each v.items) }
{
    let mut lists = Vec::with_capacity(alloc, count as usize)?;
    for _ in 0..count {
        lists.push(ReasonList::with_room(alloc, each)?)?;
    }
    Ok(lists)
}
