// A new replay, and what it holds.
#![tactic(auto, unfolding(crate::specs::Replays::shown))]

ghost use Rattle.std.specs.Prelude.{◌≡◌};
ghost use Rattle.machine.specs.View.{view};
ghost use Rattle.replay.specs.Promise.{ReplayPromise};
ghost use Rattle.replay.specs.Replays.{Created, shown};
ghost use Rattle.replay.specs.Worked.{Worked};

use crate::Replay;
use crate::faults::Fault;
use following::follower::Follower;
use machine::Machine;
use program::Program;
use trace::Trace;

impl<'a> Replay<'a> {
    // A replay of the trace, with the machine at its start; refused where program and trace differ in their threads.
    pub fn new(program: &'a Program, trace: &'a Trace) -> Result<Replay<'a>, Fault>
        ensures value { Created program.entry trace.entry result }
        ensures promise { ReplayPromise }
        ensures worked { Worked }
    {
        if program.threads() != trace.threads() {
            return Err(Fault::Threads);
        }
        Ok(Replay {
            follower: Follower::new(program, trace),
            out: None,
        })
    }

    // The machine as it stands.
    pub fn machine(&self) -> &Machine
        ensures { view result.now ≡ (shown self.now).progress.machine }
    {
        self.follower.machine()
    }

    // The steps made so far.
    pub fn steps(&self) -> u32
        ensures { result ≡ (shown self.now).steps }
    {
        self.follower.machine().steps()
    }
}
