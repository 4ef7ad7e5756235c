// Each thread in turn, for up to a quantum of steps in a row.
ghost use Rattle.std.specs.Prelude.{◌≡◌, false, ◌&&◌};
ghost use Rattle.schedule.specs.Turns.{TurnLaws, turn_next, turn_rule, turn_start, in_turn};
ghost use Rattle.schedule.specs.Rounds.{picks};
ghost use Rattle.std.proofs.lemmas.Bool.{cond_both, and_parts, both_ways};
ghost use Rattle.schedule.specs.Threads;
ghost use Rattle.schedule.specs.Picks.{after_none};
ghost use Rattle.std.proofs.Common.{rules};

use crate::ThreadSet;
use crate::scheduler::Scheduler;

// The thread that stepped last, how many steps in a row it has made, and how many it may make.
#[derive(Clone, Copy)]
pub struct Turn {
    last: u8,
    streak: u8,
    quantum: u8,
}

impl Turn {
    // Thread 8 counts as the last at first, and its turn as over, so that thread 1 comes first; a quantum of 0 counts as 1.
    pub fn new(quantum: u8) -> Turn
        ensures value { result ≡ turn_start quantum }
        ensures laws { TurnLaws }
    {
        let quantum = quantum.max(1);
        Turn {
            last: 8,
            streak: quantum,
            quantum,
        }
    }
}

impl Scheduler for Turn {
    ghost rule = { turn_rule };

    ghost next = { turn_next };

    ghost chosen = { λ s set t e. picks s set t e };

    ghost empty = { λ s set. cond_both (in_turn s && Threads.has set s.last) _ _ (λ x. Threads.has set x ≡ false → x ≡ 0) (λ b f. absurd (both_ways _ f (and_parts _ _ b).1)) (λ b. after_none s.last set) };

    ghost outside = { Prim.search rules };

    fn name(&self, set: ThreadSet) -> u8 {
        if self.streak < self.quantum && set.has(self.last) {
            return self.last;
        }
        // 0 where there is none to choose from, by the trait's law `empty`.
        set.first_above(self.last)
            .or_else(|| set.first_above(0))
            .unwrap_or(0)
    }

    fn told(&mut self, set: ThreadSet, thread: u8) {
        if !set.has(thread) {
            return;
        }
        if thread == self.last && self.streak < self.quantum {
            self.streak += 1;
        } else {
            self.last = thread;
            self.streak = 1;
        }
    }
}
