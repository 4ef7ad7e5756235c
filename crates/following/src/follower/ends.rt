// Where a replay stands in which no thread is permitted.
ghost use Rattle.std.specs.Prelude.{◌≡◌};
ghost use Rattle.machine.specs.Machine.{here};
ghost use Rattle.following.specs.Ends.{at_event, first_unused, lowest_below};
ghost use Rattle.following.specs.Followers.{program_of, seen, trace_of};

use super::Follower;
use refusal::Object;
use trace::access::object_at;
use trace::next::Access;

// how many objects there are
const OBJECTS: usize = 32;

#[tactic(auto, unfolding(crate::specs::Followers::seen))]
impl Follower<'_> {
    // The lowest thread that has made fewer steps than it counts.
    pub fn lowest_below(&self) -> Option<u8>
        ensures { result ≡ lowest_below (trace_of self.now) (seen self.now).machine }
    {
        // 1..9, since the proof of 1..=8 didn't close: of chains over a..=b the library says too little
        (1..9).find(|thread| self.below(*thread))
    }

    // The first object with an unused event: variables, then semaphores, then locks.
    pub fn first_unused(&self) -> Option<Object>
        ensures { result ≡ first_unused (seen self.now).left }
    {
        (0..OBJECTS)
            .find(|place| self.stage.used.some_left(self.trace, *place))
            .and_then(object_at)
    }

    // The object of the thread's instruction; none where it is no event, or the thread has ended.
    pub fn object(&self, thread: u8) -> Option<Object>
        ensures { result ≡ at_event (here (program_of self.now) (seen self.now).machine thread) }
    {
        Access::next(&self.stage.machine, self.program, thread).map(|access| access.object)
    }
}
