//! The core of a run: words that hold levels, what each worker has seen of them, and notes of empty states. What one
//! atomic step does to them is an event. The core knows no threads: whatever the order of the steps, it is a list of
//! events, and each event keeps the state valid. A schedule is a text that says which worker does what in which order.
#![tactic(auto)]

mod event;
pub mod laws;
mod moves;
mod reading;
mod schedule_fault;
mod state;
#[cfg(test)]
mod tests;
mod worked;

pub use event::Event;
pub use moves::{Move, Schedule};
pub use reading::read_schedule;
pub use schedule_fault::ScheduleFault;
pub use state::{CoreState, note, step};
pub use worked::faults_of_schedules;
