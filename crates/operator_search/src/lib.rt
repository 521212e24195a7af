//! The operator beside a plain search: the tests try each corner of each profile's program in small games.
#![tactic(auto)]

#[cfg(test)]
mod tests;
