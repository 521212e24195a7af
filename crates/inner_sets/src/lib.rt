//! Inner sets: the largest self-generating choice of points among the stage payoffs and a lattice. The choice is reached as
//! in the outer bounds of Judd, Yeltekin and Conklin (2003), from above: points that no profile gives are taken away until
//! each is given.
#![tactic(auto)]

mod entries;
mod inner;
mod item;
mod lattice;
mod row;
mod settle;
mod sizes;
mod summary;
mod trial;
pub mod worked;

pub use inner::largest;
pub use lattice::candidates;

#[cfg(test)]
mod tests;
