//! Programs some of whose variables have been eliminated, seen over the rows that they came from.

ghost use Rattle.lp_cert.specs.Program.{IsProgram};
ghost use Rattle.lp_core.specs.Lines.{is_seen, line_at};
ghost use Rattle.lp_core.specs.Planar.{line_of, lines_of, whole_of};
ghost use Rattle.lp_core.specs.Sizes.{IsSmallLine};
ghost use Rattle.lp_core.specs.Smaller.{smaller};
ghost use Rattle.std.specs.Prelude.{ℕ, ◌*◌, ◌<◌, ◌^◌, ◌≡◌, ◌≤◌, length, slice_index_or, true, false};

use crate::pivot::{Pivot, Step};
use crate::reduced::{Line, widened};
use lp_cert::Rows;
use std::marker::Model;

/// A program in the variables that are live: the rows as they are, or without the variable of a row that has become an
/// equation. No row is copied; each is made when it is read.
#[derive(Drop)]
pub struct View<'a> {
    rows: &'a Rows,
    live: [bool; 3],
    step: Option<Step>,
}

impl<'a> Model for View<'a> {
    ghost use Rattle.lp_core.specs.Reduced.{Reduced};
    ghost use Rattle.lp_core.specs.View.{IsView, viewed};

    ghost Value = { Reduced };

    ghost view = { λ m. viewed m.rows.now m.step };

    ghost invariant = { λ m. IsView m.rows.now m.live m.step };
}

/// The row of a number, in wider numbers.
fn wide_row(rows: &Rows, l: u32) -> Line
    requires { l < length rows.now.rows }
    ensures { result ≡ line_at (lines_of rows.now) l }
{
    let row = rows.row(l);
    Line {
        c: widened(row.c),
        h: row.h,
    }
}

/// The whole program.
pub fn whole(rows: &Rows) -> View<'_>
    ensures value { result ≡ whole_of rows.now }
    ensures program { IsProgram rows.now }
{
    let dimension = rows.dimension();
    View {
        rows,
        live: [dimension > 0, dimension > 1, dimension > 2],
        step: None,
    }
}

impl<'a> View<'a> {
    /// Which variables are live.
    pub fn live(&self) -> [bool; 3]
        ensures { result ≡ self.now.live }
    {
        self.live
    }

    /// Whether the row of number `l` is one of the first `r`, or of the box of a live variable.
    pub fn is_seen(&self, r: u32, l: u32) -> bool
        ensures { result ≡ is_seen self.now.live r l }
    {
        l < r || l < 6 && self.live[l as usize / 2]
    }

    /// The number of rows.
    pub fn len(&self) -> u32
        ensures { result ≡ length self.now.lines }
    {
        match self.step {
            Some(step) => self.rows.len().min(step.r.max(6)),
            None => self.rows.len(),
        }
    }

    /// The row of a number.
    pub fn line(&self, l: u32) -> Line
        requires { l < length self.now.lines }
        ensures { result ≡ line_at self.now.lines l }
    {
        match self.step {
            Some(step) => step.pivot.eliminated(wide_row(self.rows, l)),
            None => wide_row(self.rows, l),
        }
    }

    /// The rows of a program of three variables.
    pub fn rows(&self) -> &'a Rows
        requires { (k : ℕ) → k < 3 → slice_index_or self.now.live k false ≡ true }
        ensures value { whole_of result.now ≡ self.now }
        ensures program { IsProgram result.now }
        ensures dimension { result.now.dimension ≡ 3 }
    {
        self.rows
    }

    /// The program of three variables without that of a pivot, of the rows that were seen before row `r`.
    pub fn without(&self, pivot: &Pivot, r: u32) -> View<'a>
        requires all { (k : ℕ) → k < 3 → slice_index_or self.now.live k false ≡ true }
        requires own { IsSmallLine (2 ^ 10) (2 ^ 80) pivot.now.line }
        ensures { result ≡ smaller pivot.now self.now r }
    {
        let mut live = self.live;
        live[pivot.place] = false;
        View {
            rows: self.rows,
            live,
            step: Some(Step { pivot: *pivot, r }),
        }
    }
}
