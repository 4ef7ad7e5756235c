// Replays of traces: permits for single steps, and runs under a scheduler.
#![tactic(auto)]

pub mod faults;
pub mod permits;
pub mod runs;
pub mod start;

ghost use Rattle.std.specs.Prelude.{◌≡◌, ℕ, true, Some};
ghost use Rattle.following.specs.Following.{permitted};
ghost use Rattle.following.specs.Followers.{program_of, seen, trace_of};

use faults::Fault;
use following::follower::Follower;

// A replay of a trace of a program.
#[derive(Drop)]
pub struct Replay<'a> {
    follower: Follower<'a>,
    // the thread whose permit is out
    out: Option<u8>,
    ghost may: { (i : ℕ) → out ≡ Some i → permitted (program_of follower) (trace_of follower) (seen follower) i ≡ true },
}

// How a run of a replay came out, with the steps of the whole replay.
#[derive(Clone, Copy, PartialEq, Eq, Debug)]
pub enum Ending {
    // all counts are reached and all events used
    Complete { steps: u32 },
    // the budget is used up, and a thread is still permitted
    Spent { steps: u32 },
}

// The right to one step of one thread. It cannot be let go: it is performed or handed back.
pub struct Permit {
    thread: u8,
    steps: u32,
}

// A permit that was refused, given back.
pub struct Returned {
    pub permit: Permit,
    pub fault: Fault,
}
