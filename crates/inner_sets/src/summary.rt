ghost use Rattle.std.specs.Prelude.{◌≡◌, ℤ, List, ◌^◌, ◌<◌, ◌≤◌, ◌↔◌, [], false, IsTrue, IfOk, OnOk, length, map, slice_index, slice_index_or, unsigned_abs, All};
ghost use Rattle.game_model.specs.Game.{states};
ghost use Rattle.game_model.specs.SelfGeneration.{part};
ghost use Rattle.hull_weights.specs.Hull.{IsInHull, IsSmallPoint};
ghost use Rattle.inner_sets.specs.Choice.{discounted};
ghost use Rattle.inner_sets.specs.Rounds.{AreRenewed};
ghost use Rattle.inner_sets.specs.Rows.{choice_of, points_in};
ghost use Rattle.inner_sets.specs.Summaries.{AreSummaries, IsSummary, summary_at};

use crate::row::Row;
use crate::sizes::discounted_part;
use game_model::Game;
use hull_weights::corners;
use std::alloc::{AllocError, Global};
use std::marker::Model;

/// What other states ask of a state's points.
#[derive(Drop)]
pub(crate) struct Summary {
    /// The points, each part times the numerator of the player's discount factor.
    points: Vec<[i128; 2]>,
    /// For each player the first place of the least part, and that part; zeros where there is no point.
    first: [u32; 2],
    least: [i64; 2],
    /// Points with the same hull, as few as serve.
    corners: Vec<[i128; 2]>,
}

impl Model for Summary {
    ghost use Rattle.inner_sets.specs.Summaries.{IsKept, PointSummary};

    ghost Value = { PointSummary };

    ghost view = { λ a. record { points = a.points.items; first = a.first; least = a.least } };

    ghost invariant = { λ a. IsKept (record { points = a.points.items; first = a.first; least = a.least }) a.corners.items };
}

impl Summary {
    /// The summary of a row.
    fn of(alloc: Global, game: &Game, row: &Row) -> Result<Summary, AllocError>
        requires { game.now.players ≡ 2 }
        ensures { IfOk result (IsSummary game.now (points_in row.now)) }
    {
        let points = discounted_points(alloc, game, row)?;
        let (first, least) = row.first_least(0);
        let (first_second, least_second) = row.first_least(1);
        let corners = corners(alloc, &points)?;
        Ok(Summary {
            points,
            corners,
            first: [first, first_second],
            least: [least, least_second],
        })
    }

    /// The points, discounted.
    pub(crate) fn points(&self) -> &[[i128; 2]]
        ensures points { result.now ≡ self.now.points }
        ensures few { length result.now < 2 ^ 32 }
        ensures small { All IsSmallPoint result.now }
    {
        &self.points
    }

    /// Points that have the same hull.
    pub(crate) fn corners(&self) -> &[[i128; 2]]
        ensures hull { (target : List ℤ) → IsInHull result.now target ↔ IsInHull self.now.points target }
        ensures few { length result.now < 2 ^ 32 }
        ensures small { All IsSmallPoint result.now }
    {
        &self.corners
    }

    /// Whether there is no point.
    pub(crate) fn is_empty(&self) -> bool
        ensures { IsTrue result ↔ (length self.now.points ≡ 0) }
    {
        self.points.is_empty()
    }

    /// The least part of player `i`.
    pub(crate) fn least(&self, i: u32) -> i64
        requires { i < 2 }
        ensures least { result ≡ part self.now.least i }
        ensures small { unsigned_abs result ≤ 2 ^ 30 }
    {
        self.least[i as usize]
    }

    /// The place of the first point whose part of player `i` is least.
    pub(crate) fn first(&self, i: u32) -> u32
        requires { i < 2 }
        ensures { result ≡ slice_index self.now.first i }
    {
        self.first[i as usize]
    }
}

/// The points of a row, each part times the numerator of the player's discount factor.
fn discounted_points(alloc: Global, game: &Game, row: &Row) -> Result<Vec<[i128; 2]>, AllocError>
    requires { game.now.players ≡ 2 }
    ensures points { IfOk result (λ v. v.items ≡ map (discounted game.now) (points_in row.now)) }
    ensures few { IfOk result (λ v. length v.items ≤ 65535) }
    ensures small { IfOk result (λ v. All IsSmallPoint v.items) }
{
    let mut points = Vec::with_capacity(alloc, row.len() as usize)?;
    for k in 0..row.len() {
        points.push(discounted(game, row, k))?;
    }
    Ok(points)
}

/// One of them.
fn discounted(game: &Game, row: &Row, k: u32) -> [i128; 2]
    requires players { game.now.players ≡ 2 }
    requires place { k < length row.now }
    ensures point { result ≡ discounted game.now (slice_index_or (points_in row.now) k []) }
    ensures small { IsSmallPoint result }
{
    let first = discounted_part(game, 0, row.part(k, 0));
    let second = discounted_part(game, 1, row.part(k, 1));
    [first, second]
}

/// A summary of each row.
pub(crate) fn summaries_of(
    alloc: Global,
    game: &Game,
    rows: &[Row],
) -> Result<Vec<Summary>, AllocError>
    requires players { game.now.players ≡ 2 }
    requires one_each { length rows.now ≡ states game.now }
    ensures { IfOk result (λ v. AreSummaries game.now (choice_of rows.now) v.items) }
{
    let mut summaries = Vec::with_capacity(alloc, rows.len())?;
    for row in rows {
        summaries.push(Summary::of(alloc, game, row)?)?;
    }
    Ok(summaries)
}

/// Whether a row has lost a point since its summary.
pub(crate) fn has_lost(row: &Row, summary: &Summary) -> bool
    ensures { result ≡ false ↔ (length row.now ≡ length summary.now.points) }
{
    row.len() as usize != summary.points.len()
}

/// Makes the summaries of the rows that have lost a point anew.
pub(crate) fn renew(
    alloc: Global,
    game: &Game,
    rows: &[Row],
    summaries: &mut [Summary],
) -> Result<(), AllocError>
    requires players { game.now.players ≡ 2 }
    requires one_row_each { length rows.now ≡ states game.now }
    requires one_summary_each { length summaries.old ≡ states game.now }
    ensures { OnOk result (AreRenewed game.now rows.now summaries.old summaries.new) }
{
    let _players = game.players();
    for s in 0..game.states() {
        let row = &rows[s as usize];
        if has_lost(row, &summaries[s as usize]) {
            summaries[s as usize] = Summary::of(alloc, game, row)?;
        }
    }
    Ok(())
}
