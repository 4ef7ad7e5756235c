// Where a thread's events stand in a sequence.
ghost use Rattle.std.specs.Prelude.{◌≡◌, ◌<◌, ◌≤◌, length};
ghost use Rattle.following.specs.Cursors.{firsts, from};

use std::array;
use trace::Event;

// The place of the thread's first event at or after the start, or the end.
pub(crate) fn seek(sequence: &[Event], thread: u8, start: u16) -> u16
    requires short { length sequence.now < 65536 }
    requires within { start ≤ length sequence.now }
    ensures { result ≡ from thread start sequence.now }
{
    let others = sequence[start as usize..]
        .iter()
        .take_while(|event| event.thread() != thread);
    start + others.count() as u16
}

// Where each thread's first event stands.
pub(crate) fn first_places(sequence: &[Event]) -> [u16; 8]
    requires { length sequence.now < 65536 }
    ensures { result ≡ firsts sequence.now }
{
    array::from_fn(|place| seek(sequence, place as u8 + 1, 0))
}
