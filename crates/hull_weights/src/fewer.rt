//! Fewer points with the same hull.

ghost use Rattle.std.specs.Prelude.{◌≡◌, ◌⊎◌, ◌+◌, ◌-◌, ◌^◌, ◌<◌, ◌≤◌, ◌↔◌, ℤ, List, All, Contains, IfOk, OnOk, IsTrue, length};
ghost use Rattle.hull_weights.specs.SameHull.{AreIn, HaveSameHull};
ghost use Rattle.hull_weights.specs.Hull.{IsInHull, IsSmallPoint};

use crate::arrow_to;
use crate::cone::{Cone, Step, normal, widened};
use std::alloc::{AllocError, Global};

/// Directions in which points are looked for first.
const DIRECTIONS: [[i8; 2]; 8] = [
    [1, 0],
    [-1, 0],
    [0, 1],
    [0, -1],
    [1, 1],
    [1, -1],
    [-1, 1],
    [-1, -1],
];

/// Whether `target` is an average of the points with whole weights that are not negative. It is what `triangle` tells,
/// without weights.
pub fn is_in_hull(points: &[[i128; 2]], target: [i128; 2]) -> bool
    requires few { length points.now < 2 ^ 32 }
    requires points_small { All IsSmallPoint points.now }
    requires target_small { IsSmallPoint target }
    ensures { IsTrue result ↔ IsInHull points.now target }
{
    let mut cone = Cone::Empty;
    for index in 0..points.len() {
        match widened(cone, arrow_to(points, target, index)) {
            Step::Wider(wider) => cone = wider,
            Step::Balanced(_) => return true,
        }
    }
    let _beside = normal(cone);
    false
}

/// Some of the points, with the same hull: points in the hull of others are left out.
pub fn corners(alloc: Global, points: &[[i128; 2]]) -> Result<Vec<[i128; 2]>, AllocError>
    requires few { length points.now < 2 ^ 31 }
    requires small { All IsSmallPoint points.now }
    ensures hull { IfOk result (λ kept. (target : List ℤ) → IsInHull kept.items target ↔ IsInHull points.now target) }
    ensures few { IfOk result (λ kept. length kept.items < 2 ^ 32) }
    ensures small { IfOk result (λ kept. All IsSmallPoint kept.items) }
{
    let mut kept = outer_points(alloc, points)?;
    'tries: for _ in 0..kept.len() {
        drop_last_if_inside(&mut kept)?;
    }
    Ok(kept)
}

/// Takes the last point away, and puts it first again if it is outside the hull of the others.
fn drop_last_if_inside(kept: &mut Vec<[i128; 2]>) -> Result<(), AllocError>
    requires few { length kept.old.items < 2 ^ 32 }
    requires small { All IsSmallPoint kept.old.items }
    ensures hull { OnOk result (HaveSameHull kept.new.items kept.old.items) }
    ensures few { OnOk result (length kept.new.items ≤ length kept.old.items) }
    ensures small { OnOk result (All IsSmallPoint kept.new.items) }
{
    if let Some(last) = kept.pop() {
        if !is_in_hull(kept, last) {
            kept.insert(0, last)?;
        }
    }
    Ok(())
}

/// Each point that is outside the hull of those kept before it, those farthest out before all.
fn outer_points(alloc: Global, points: &[[i128; 2]]) -> Result<Vec<[i128; 2]>, AllocError>
    requires few { length points.now < 2 ^ 31 }
    requires small { All IsSmallPoint points.now }
    ensures hull { IfOk result (λ kept. HaveSameHull kept.items points.now) }
    ensures few { IfOk result (λ kept. length kept.items < 2 ^ 32) }
    ensures small { IfOk result (λ kept. All IsSmallPoint kept.items) }
{
    let mut kept = farthest_points(alloc, points)?;
    for index in 0..points.len() {
        push_if_outside(&mut kept, points[index])?;
    }
    Ok(kept)
}

/// A point farthest out in each of a few directions.
fn farthest_points(alloc: Global, points: &[[i128; 2]]) -> Result<Vec<[i128; 2]>, AllocError>
    requires few { length points.now < 2 ^ 31 }
    requires small { All IsSmallPoint points.now }
    ensures points { IfOk result (λ kept. (v : List ℤ) → Contains kept.items v → Contains points.now v) }
    ensures few { IfOk result (λ kept. length kept.items ≤ 8) }
{
    let mut kept = Vec::new(alloc);
    if points.is_empty() {
        return Ok(kept);
    }
    for k in 0..DIRECTIONS.len() {
        let [x, y] = DIRECTIONS[k];
        push_if_outside(&mut kept, points[farthest(points, x, y)])?;
    }
    Ok(kept)
}

/// Adds the point if it is outside the hull.
fn push_if_outside(kept: &mut Vec<[i128; 2]>, point: [i128; 2]) -> Result<(), AllocError>
    requires few { length kept.old.items < 2 ^ 32 - 1 }
    requires small { All IsSmallPoint kept.old.items }
    requires point_small { IsSmallPoint point }
    ensures keeps { OnOk result (AreIn kept.old.items kept.new.items) }
    ensures has { OnOk result (IsInHull kept.new.items point) }
    ensures only { OnOk result ((v : List ℤ) → Contains kept.new.items v → Contains kept.old.items v ⊎ (v ≡ point)) }
    ensures few { OnOk result (length kept.new.items ≤ length kept.old.items + 1) }
{
    if !is_in_hull(kept, point) {
        kept.push(point)?;
    }
    Ok(())
}

/// The index of the first point that is farthest out in a direction.
fn farthest(points: &[[i128; 2]], x: i8, y: i8) -> usize
    requires { 0 < length points.now }
    ensures { result < length points.now }
{
    let mut best = 0;
    for index in 1..points.len() {
        if height(points[index], x, y) > height(points[best], x, y) {
            best = index;
        }
    }
    best
}

/// How far out a point is in a direction.
fn height(point: [i128; 2], x: i8, y: i8) -> i128 {
    let first = i128::from(x).wrapping_mul(point[0]);
    first.wrapping_add(i128::from(y).wrapping_mul(point[1]))
}
