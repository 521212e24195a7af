//! The rows of a program.

ghost use Rattle.lp_cert.specs.Program.{IsProgram, IsRow, axis, box_rows};
ghost use Rattle.std.specs.Int.RustNames.{unsigned_abs};
ghost use Rattle.std.specs.Prelude.{[], ◌++◌, ◌<◌, ◌^◌, ◌∷◌, ◌≡◌, ◌≤◌, All, Some, length, pos, slice_get};

use arrayvec::ArrayVec;
use std::marker::Model;

/// The inequality `c*y <= h`. Entries of `c` past the dimension of the program are 0.
///
/// Entries are at most 3 in absolute value, at most 1 in three variables, and `h` is at most 2^64. The unit of `h` is the
/// caller's.
#[derive(Clone, Copy, Debug, PartialEq, Eq)]
pub struct Row {
    pub c: [i32; 3],
    pub h: i128,
}

impl Default for Row {
    fn default() -> Self
        ensures { result ≡ record { c = pos 0 ∷ pos 0 ∷ pos 0 ∷ []; h = pos 0 } }
    {
        Row { c: [0; 3], h: 0 }
    }
}

/// A program of one to three variables: first the box `y_i <= upper_i` and `-y_i <= lower_i` of each variable, then
/// further rows, at most 40 in all. A point that meets the rows is a vector of fractions with one denominator.
#[derive(Drop)]
pub struct Rows {
    dimension: u32,
    rows: ArrayVec<Row, 40>,
}

impl Model for Rows {
    ghost use Rattle.lp_cert.specs.Program.{IsProgram, Program};

    ghost Value = { Program };

    ghost view = { λ p. record { dimension = p.dimension; rows = p.rows.items } };

    ghost invariant = { λ p. IsProgram (record { dimension = p.dimension; rows = p.rows.items }) };
}

/// The vector with 1 or -1 at one place.
fn axis_vector(place: usize, sign: i32) -> [i32; 3]
    requires { place < 3 }
    ensures { result ≡ axis place sign }
{
    let mut c = [0; 3];
    c[place] = sign;
    c
}

/// Adds the two rows of each variable's box.
fn add_box(rows: &mut ArrayVec<Row, 40>, upper: &[i128], lower: &[i128])
    requires empty { rows.old.items ≡ [] }
    requires few { length upper.now ≤ 3 }
    requires lengths { length upper.now ≡ length lower.now }
    ensures { rows.new.items ≡ box_rows 0 upper.now lower.now }
{
    for i in 0..upper.len() {
        rows.push(Row {
            c: axis_vector(i, 1),
            h: upper[i],
        });
        rows.push(Row {
            c: axis_vector(i, -1),
            h: lower[i],
        });
    }
}

impl Rows {
    /// The box `y_i <= upper[i]` and `-y_i <= lower[i]`, in this order for each variable.
    ///
    /// There are one to three variables, and sides are at most 2^64 in absolute value.
    pub fn boxed(upper: &[i128], lower: &[i128]) -> Rows
        requires some { 1 ≤ length upper.now }
        requires few { length upper.now ≤ 3 }
        requires lengths { length upper.now ≡ length lower.now }
        requires upper { All (λ h. unsigned_abs h ≤ 2 ^ 64) upper.now }
        requires lower { All (λ h. unsigned_abs h ≤ 2 ^ 64) lower.now }
        ensures dimension { result.dimension ≡ length upper.now }
        ensures rows { result.rows ≡ box_rows 0 upper.now lower.now }
    {
        let mut rows = ArrayVec::new();
        add_box(&mut rows, upper, lower);
        Rows {
            dimension: upper.len() as u32,
            rows,
        }
    }

    /// The box as [`boxed`](Rows::boxed) gives it, in place of the rows that were there. No room is made or moved, so that a
    /// caller that solves many programs fills the same rows again.
    pub fn reset(&mut self, upper: &[i128], lower: &[i128])
        requires some { 1 ≤ length upper.now }
        requires few { length upper.now ≤ 3 }
        requires lengths { length upper.now ≡ length lower.now }
        requires upper { All (λ h. unsigned_abs h ≤ 2 ^ 64) upper.now }
        requires lower { All (λ h. unsigned_abs h ≤ 2 ^ 64) lower.now }
        ensures dimension { self.new.dimension ≡ length upper.now }
        ensures rows { self.new.rows ≡ box_rows 0 upper.now lower.now }
    {
        self.dimension = upper.len() as u32;
        self.rows.clear();
        add_box(&mut self.rows, upper, lower);
    }

    /// Adds a row at the end. There are at most 40.
    pub fn add(&mut self, row: Row)
        requires room { length self.old.rows < 40 }
        requires right { IsRow self.old.dimension row }
        ensures rows { self.new.rows ≡ self.old.rows ++ row ∷ [] }
        ensures dimension { self.new.dimension ≡ self.old.dimension }
    {
        self.rows.push(row);
    }

    /// The number of variables.
    pub fn dimension(&self) -> u32
        ensures value { result ≡ self.now.dimension }
        ensures program { IsProgram self.now }
    {
        self.dimension
    }

    /// The number of rows.
    pub fn len(&self) -> u32
        ensures value { result ≡ length self.now.rows }
        ensures program { IsProgram self.now }
    {
        self.rows.len() as u32
    }

    /// The row of a number, counted from 0.
    pub fn row(&self, l: u32) -> Row
        requires { l < length self.now.rows }
        ensures value { slice_get self.now.rows l ≡ Some result }
        ensures program { IsProgram self.now }
    {
        self.rows[l as usize]
    }
}
