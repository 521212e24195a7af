//! Plans of finitely many deviations from a self-generating correspondence, and that none of them gains.
#![tactic(auto)]

mod fitting;
mod following;
mod gains;
mod laws;
mod plan;

pub use fitting::fits;
pub use gains::{GainBeyond, gain, plays_at_most};
pub use laws::{no_gain, no_plan_gains};
pub use plan::DevPlan;

#[cfg(test)]
mod tests;
