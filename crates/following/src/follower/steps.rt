// Which threads are permitted, and their steps.
ghost use Rattle.std.specs.Prelude.{◌≡◌, if◌then◌else◌};
ghost use Rattle.machine.specs.Machine.{here};
ghost use Rattle.machine.specs.View.{view};
ghost use Rattle.following.specs.Following.{advance, below, local_at, opened, permitted};
ghost use Rattle.following.specs.Laws.{FollowingLaws};
ghost use Rattle.following.specs.Followers.{SameParts, program_of, seen, trace_of};

use super::super::spot::Spot;
use super::super::stage::Stage;
use super::super::used::Used;
use super::Follower;
use machine::Machine;
use machine::action::Action;
use program::Program;
use trace::Trace;
use trace::access::place_of;
use trace::next::Access;

#[tactic(auto, unfolding(crate::specs::Followers::seen))]
impl<'a> Follower<'a> {
    // The machine at its start, and no event used.
    pub fn new(program: &'a Program, trace: &'a Trace) -> Follower<'a>
        ensures parts { (result.program ≡ program.entry) × (result.trace ≡ trace.entry) }
        ensures start { seen result ≡ opened (program_of result) (trace_of result) }
        ensures laws { FollowingLaws }
    {
        Follower {
            program,
            trace,
            stage: Stage {
                machine: Machine::start(program),
                used: Used::none(trace),
            },
        }
    }

    // The machine as it stands.
    pub fn machine(&self) -> &Machine
        ensures { view result.now ≡ (seen self.now).machine }
    {
        &self.stage.machine
    }

    // Whether the thread has made fewer steps than it counts.
    pub(super) fn below(&self, thread: u8) -> bool
        ensures { result ≡ below (trace_of self.now) (seen self.now).machine thread }
    {
        self.stage.machine.count(thread) < self.trace.count(thread)
    }

    // Whether the thread stands at a local instruction. Its step then leaves every other thread as permitted as it was.
    pub fn is_local(&self, thread: u8) -> bool
        ensures { result ≡ local_at (here (program_of self.now) (seen self.now).machine thread) }
    {
        self.stage.machine.action(self.program, thread) == Some(Action::Local)
    }

    // Whether the thread is able, below its count, and its instruction local or on turn. Most instructions are local,
    // and a thread is always able to make one.
    pub fn permitted(&self, thread: u8) -> bool
        ensures { result ≡ permitted (program_of self.now) (trace_of self.now) (seen self.now) thread }
    {
        if !self.below(thread) {
            return false;
        }
        if self.is_local(thread) {
            return true;
        }
        if !self.stage.machine.able(self.program, thread) {
            return false;
        }
        let Some(access) = Access::next(&self.stage.machine, self.program, thread) else {
            return true;
        };
        let spot = Spot {
            thread,
            place: place_of(access.object),
        };
        let due = self.stage.used.due(self.trace, spot);
        due == Some(access.event)
    }

    // One step of the thread, by which its event is used; false, and nothing altered, where it is not permitted.
    pub fn advance(&mut self, thread: u8) -> bool
        ensures answer { result ≡ permitted (program_of self.old) (trace_of self.old) (seen self.old) thread }
        ensures parts { SameParts self.old self.new }
        ensures after { seen self.new ≡ (if result then advance (program_of self.old) thread (seen self.old) else seen self.old) }
    {
        if !self.permitted(thread) {
            return false;
        }
        let access = Access::next(&self.stage.machine, self.program, thread);
        self.stage.used.spend(self.trace, thread, access);
        self.stage.machine.step(self.program, thread)
    }
}
