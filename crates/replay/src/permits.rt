// Single steps by permit.
#![tactic(auto, unfolding(crate::specs::Replays::shown))]

ghost use Rattle.std.specs.Prelude.{◌≡◌, true, if◌then◌else◌};
ghost use Rattle.following.specs.Following.{permitted};
ghost use Rattle.replay.specs.Calls.{holds, returned, stepped};
ghost use Rattle.replay.specs.Replays.{Became, handed_back, performed, program_of, requested, shown, trace_of};

use crate::faults::Fault;
use crate::{Permit, Replay, Returned};

impl Replay<'_> {
    // A permit for the thread's next step, unless one is out or the thread is not permitted.
    pub fn request(&mut self, thread: u8) -> Result<Permit, Fault>
        ensures answer { result ≡ (requested self.old thread).answer }
        ensures after { Became self.old (requested self.old thread).after self.new }
    {
        if self.out.is_some() {
            return Err(Fault::PermitOut);
        }
        if !self.follower.permitted(thread) {
            return Err(Fault::NotPermitted);
        }
        let steps = self.steps();
        self.out = Some(thread);
        Ok(Permit { thread, steps })
    }

    // Whether the permit is the one that is out.
    fn holds(&self, permit: &Permit) -> bool
        ensures { result ≡ holds (shown self.now) permit.now }
    {
        self.out == Some(permit.thread) && self.steps() == permit.steps
    }

    // The thread of the permit that is out; or the permit given back.
    fn taken(&self, permit: Permit) -> Result<u8, Returned>
        ensures { result ≡ (if holds (shown self.now) permit then Ok permit.thread else Err (returned permit)) }
    {
        if !self.holds(&permit) {
            return Err(Returned {
                permit,
                fault: Fault::WrongPermit,
            });
        }
        let Permit { thread, steps: _ } = permit;
        Ok(thread)
    }

    // Makes the step of the permit, and answers the thread's count; or gives the permit back.
    pub fn perform(&mut self, permit: Permit) -> Result<u16, Returned>
        ensures answer { result ≡ (performed self.old permit).answer }
        ensures after { Became self.old (performed self.old permit).after self.new }
    {
        let thread = self.taken(permit)?;
        self.step(thread);
        Ok(self.machine().count(thread))
    }

    // Takes the permit and makes no step; or gives the permit back.
    pub fn hand_back(&mut self, permit: Permit) -> Result<(), Returned>
        ensures answer { result ≡ (handed_back self.old permit).answer }
        ensures after { Became self.old (handed_back self.old permit).after self.new }
    {
        let _ = self.taken(permit)?;
        self.out = None;
        Ok(())
    }

    // The step of a permitted thread, after which no permit is out.
    pub(crate) fn step(&mut self, thread: u8)
        requires { permitted (program_of self.old) (trace_of self.old) (shown self.old).progress thread ≡ true }
        ensures { Became self.old (stepped (program_of self.old) (shown self.old) thread) self.new }
    {
        self.out = None;
        self.follower.advance(thread);
    }
}
