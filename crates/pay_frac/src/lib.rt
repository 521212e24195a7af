//! Exact fractions of whole numbers of 128 bits, with their common divisors and multiples, and the spelling of numbers.
#![tactic(auto)]

mod fractions;
mod integers;
mod numbers;

pub use fractions::{Frac, add, at_most, equal_in_lowest_terms, mul, small};
pub use integers::{capped_multiple, capped_product, ceil_div, floor_div, gcd, lcm};
pub use numbers::{NumberFault, read_capped, read_digits, read_number};

#[cfg(test)]
mod tests;
