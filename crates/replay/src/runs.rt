// Runs under a scheduler, and how a replay ends.
#![tactic(auto, unfolding(crate::specs::Replays::shown))]

ghost use Rattle.std.specs.Prelude.{◌≡◌, true};
ghost use Rattle.schedule.specs.Strategies.{Picks, strategy, tells};
ghost use Rattle.following.specs.Following.{permitted};
ghost use Rattle.replay.specs.Calls.{end_of, stepped};
ghost use Rattle.replay.specs.Replays.{Became, offered, program_of, ran, shown, trace_of};

use crate::faults::Fault;
use crate::{Ending, Replay};
use schedule::{Scheduler, ThreadSet};

// the most steps of one run
const MOST: u32 = 1_048_575;

impl Replay<'_> {
    // The threads that are permitted.
    fn offer(&self) -> ThreadSet
        ensures { result ≡ offered self.now }
    {
        ThreadSet::of([1, 2, 3, 4, 5, 6, 7, 8].map(|thread| self.follower.permitted(thread)))
    }

    // The step of a permitted thread, and the threads permitted after it. A local step changes only its own thread, so
    // that the others need not be asked again.
    fn step_offered(&mut self, offer: ThreadSet, thread: u8) -> ThreadSet
        requires offered { offer ≡ offered self.old }
        requires permitted { permitted (program_of self.old) (trace_of self.old) (shown self.old).progress thread ≡ true }
        ensures offered { result ≡ offered self.new }
        ensures after { Became self.old (stepped (program_of self.old) (shown self.old) thread) self.new }
    {
        let local = self.follower.is_local(thread);
        self.step(thread);
        if local {
            return offer.with(thread, self.follower.permitted(thread));
        }
        self.offer()
    }

    // The end of a replay in which no thread is permitted.
    fn end(&self) -> Result<Ending, Fault>
        ensures { result ≡ end_of (program_of self.now) (trace_of self.now) (shown self.now) }
    {
        let steps = self.steps();
        if let Some(thread) = self.follower.lowest_below() {
            return Err(Fault::Stuck {
                thread,
                place: self.machine().place(thread),
                object: self.follower.object(thread),
                steps,
            });
        }
        self.follower
            .first_unused()
            .map_or(Ok(Ending::Complete { steps }), |object| {
                Err(Fault::Unused { object, steps })
            })
    }

    // Steps the permitted thread that the scheduler names, and tells it, until none is permitted or the budget is used up.
    pub fn run<S: Scheduler>(&mut self, budget: u32, scheduler: &mut S) -> Result<Ending, Fault>
        ensures answer { result ≡ (ran self.old budget (strategy S.rule S.next scheduler.old)).answer }
        ensures after { Became self.old (ran self.old budget (strategy S.rule S.next scheduler.old)).after self.new }
        ensures scheduler { scheduler.new ≡ tells S.rule S.next scheduler.old (ran self.old budget (strategy S.rule S.next scheduler.old)).told }
        ensures picks { Picks (strategy S.rule S.next scheduler.old) }
    {
        if self.out.is_some() {
            return Err(Fault::PermitOut);
        }
        let mut offer = self.offer();
        'steps: for _step in 0..budget.min(MOST) {
            if offer.is_empty() {
                break;
            }
            let thread = scheduler.name(offer);
            let next = self.step_offered(offer, thread);
            scheduler.told(offer, thread);
            offer = next;
        }
        if offer.is_empty() {
            return self.end();
        }
        Ok(Ending::Spent {
            steps: self.steps(),
        })
    }
}
