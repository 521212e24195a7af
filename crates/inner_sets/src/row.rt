ghost use Rattle.std.specs.Prelude.{◌≡◌, ℕ, ◌^◌, ◌<◌, ◌≤◌, length, filter, nat_lt, slice_set, unsigned_abs, IfOk};
ghost use Rattle.game_model.specs.Game.{counts, profile_count, states};
ghost use Rattle.game_model.specs.SelfGeneration.{part};
ghost use Rattle.hull_weights.specs.Hull.{point_at};
ghost use Rattle.inner_sets.specs.Choice.{IsFirstLeast};
ghost use Rattle.inner_sets.specs.Rows.{AreAdvanced, AreTried, IsRefined, IsTried, item_at, points_in};
ghost use Rattle.inner_sets.specs.Summaries.{IsAsk};
ghost use Rattle.inner_sets.specs.Trials.{IsTrial};
ghost use Rattle.inner_sets.specs.declared.item.Item.{Item};

use crate::item::Item;
use crate::summary::Summary;
use crate::trial::Trial;
use game_model::{Game, List};
use std::alloc::{AllocError, Global};
use std::marker::Model;

/// The points of a state that are left. Contracts see a list of items.
#[derive(Drop)]
pub(crate) struct Row {
    items: Vec<Item>,
}

impl Model for Row {
    ghost use Rattle.std.specs.Prelude.{List};
    ghost use Rattle.inner_sets.specs.Rows.{IsSmallRow};
    ghost use Rattle.inner_sets.specs.declared.item.Item.{Item};

    ghost Value = { List Item };

    ghost view = { λ a. a.items.items };

    ghost invariant = { λ a. IsSmallRow a.items.items };
}

impl Row {
    ghost use Rattle.inner_sets.specs.Rows.{IsSmallRow};

    /// A row of points, each to be tried from the first profile on.
    pub(crate) fn of(alloc: Global, points: &List<[i64; 2]>) -> Result<Row, AllocError>
        requires few { length points.now ≤ 65535 }
        requires small { (k i : ℕ) → k < length points.now → i < 2 → unsigned_abs (part (point_at points.now k) i) ≤ 2 ^ 30 }
        ensures points { IfOk result (λ row. points_in row ≡ points.now) }
        ensures first { IfOk result (λ row. (k : ℕ) → k < length row → (item_at row k).profile ≡ 0) }
    {
        let mut items = Vec::with_capacity(alloc, points.len() as usize)?;
        for k in 0..points.len() {
            items.push(Item {
                point: *points.get(k),
                profile: 0,
            })?;
        }
        Ok(Row { items })
    }

    /// The number of points.
    pub(crate) fn len(&self) -> u32
        ensures count { result ≡ length self.now }
        ensures few { result ≤ 65535 }
    {
        self.items.len() as u32
    }

    /// The item at place `k`.
    pub(crate) fn item(&self, k: u32) -> Item
        requires { k < length self.now }
        ensures item { result ≡ item_at self.now k }
        ensures small { (i : ℕ) → i < 2 → unsigned_abs (part result.point i) ≤ 2 ^ 30 }
    {
        self.items[k as usize]
    }

    /// Part `i` of the point at place `k`.
    pub(crate) fn part(&self, k: u32, i: u32) -> i64
        requires place { k < length self.now }
        requires player { i < 2 }
        ensures part { result ≡ part (point_at (points_in self.now) k) i }
        ensures small { unsigned_abs result ≤ 2 ^ 30 }
    {
        self.item(k).point[i as usize]
    }

    /// The first place of the least part `i`, and that part; zeros where there is no point.
    pub(crate) fn first_least(&self, i: u32) -> (u32, i64)
        requires { i < 2 }
        ensures first { 0 < length self.now → IsFirstLeast i (points_in self.now) result.0 }
        ensures least { 0 < length self.now → result.1 ≡ part (point_at (points_in self.now) result.0) i }
        ensures small { unsigned_abs result.1 ≤ 2 ^ 30 }
    {
        let mut place = 0;
        let mut least = 0;
        for k in 0..self.len() {
            let part = self.part(k, i);
            if k == 0 || part < least {
                place = k;
                least = part;
            }
        }
        (place, least)
    }

    /// Moves each point on to the next profile that gives it, and takes away those that no profile gives.
    pub(crate) fn refine(&mut self, game: &Game, n: u32, summaries: &[Summary], s: u32)
        requires players { game.now.players ≡ 2 }
        requires n { n ≤ 16 }
        requires one_each { length summaries.now ≡ states game.now }
        requires state { s < states game.now }
        ensures { IsRefined game.now n summaries.now s self.old self.new }
    {
        self.advance(game, n, summaries, s);
        self.keep_below(game.profiles(s));
    }

    /// Takes away the items that are at the end of the profiles.
    fn keep_below(&mut self, profiles: u32)
        ensures { self.new ≡ filter (λ (x : Item). nat_lt x.profile profiles) self.old }
    {
        self.items.retain(|item| item.profile < profiles);
    }

    /// Moves each point on to the next profile that gives it.
    fn advance(&mut self, game: &Game, n: u32, summaries: &[Summary], s: u32)
        requires players { game.now.players ≡ 2 }
        requires n { n ≤ 16 }
        requires one_each { length summaries.now ≡ states game.now }
        requires state { s < states game.now }
        ensures { AreAdvanced game.now n summaries.now s (profile_count (counts game.now s)) self.old self.new }
    {
        let _players = game.players();
        for profile in 0..game.profiles(s) {
            let trial = Trial {
                game,
                n,
                summaries,
                state: s,
                profile,
            };
            self.try_all(&trial);
        }
    }

    /// Moves each point that stands at the profile of the trial on to the next one, where this one doesn't give it.
    fn try_all(&mut self, trial: &Trial)
        requires trial { IsTrial trial.now }
        ensures { AreTried trial.now.game.now trial.now.n trial.now.summaries.now trial.now.state trial.now.profile self.old self.new }
    {
        let asks = trial.asks();
        for k in 0..self.len() {
            self.put(k, tried(trial, asks, self.item(k)));
        }
    }

    /// Puts an item with the same point in the place of the item at `k`.
    fn put(&mut self, k: u32, item: Item)
        requires place { k < length self.old }
        requires point { item.point ≡ (item_at self.old k).point }
        ensures { self.new ≡ slice_set self.old k item }
    {
        self.items[k as usize] = item;
    }
}

/// The item, moved on by one where it stands at the profile of the trial and this one doesn't give its point.
fn tried(trial: &Trial, asks: [i64; 2], item: Item) -> Item
    requires trial { IsTrial trial.now }
    requires asks { (i : ℕ) → i < 2 → IsAsk trial.now.game.now trial.now.n trial.now.summaries.now trial.now.state trial.now.profile i (part asks i) }
    requires small { (i : ℕ) → i < 2 → unsigned_abs (part item.point i) ≤ 2 ^ 30 }
    ensures { IsTried trial.now.game.now trial.now.n trial.now.summaries.now trial.now.state trial.now.profile item result }
{
    if item.profile != trial.profile {
        return item;
    }
    if trial.passes(asks, item.point) {
        return item;
    }
    Item {
        profile: trial.profile + 1,
        ..item
    }
}
