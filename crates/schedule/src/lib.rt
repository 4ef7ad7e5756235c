// Sets of threads, and the schedulers that choose from them.
#![tactic(auto)]

pub mod scheduler;
pub mod seeded;
pub mod set;
#[cfg(test)]
mod tests;
pub mod turn;

pub use scheduler::Scheduler;
pub use seeded::Seeded;
pub use turn::Turn;

// A set of the threads 1 to 8: number i of the array, from 0, says whether thread i + 1 is in it.
#[derive(Clone, Copy)]
pub struct ThreadSet {
    offered: [bool; 8],
}
