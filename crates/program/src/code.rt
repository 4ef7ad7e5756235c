// What a program says: how many threads it has, and the instructions of each.
ghost use Rattle.std.specs.Prelude.{◌≡◌, ℕ, ◌<◌, length, IfSome};
ghost use Rattle.program.specs.Form.{Usable};
ghost use Rattle.program.specs.Programs.{fetched, parts, text_of, texts};

use crate::{Instruction, Program};

impl Program {
    // How many threads the program has.
    pub fn threads(&self) -> u8
        ensures { result ≡ length (texts self.now) }
    {
        self.texts.len() as u8
    }

    // The instructions of the thread; none where there is no such thread.
    pub fn text(&self, thread: u8) -> &[Instruction]
        ensures { result.now ≡ text_of self.now thread }
    {
        usize::from(thread)
            .checked_sub(1)
            .and_then(|index| self.texts.get(index))
            .map_or(&[], |text| text.as_slice())
    }

    // The instruction of the thread at the place, if there is one.
    pub fn instruction(&self, thread: u8, place: u16) -> Option<Instruction>
        ensures value { result ≡ fetched self.now thread place }
        ensures usable { IfSome result (λ i. (place < 128) × Usable i) }
    {
        self.text(thread).get(usize::from(place)).copied()
    }

    // The semaphores' starts.
    pub fn starts(&self) -> &[u8; 8]
        ensures { result.now ≡ (parts self.now).starts }
    {
        &self.starts
    }

    // The semaphores' limits.
    pub fn limits(&self) -> &[u8; 8]
        ensures { result.now ≡ (parts self.now).limits }
    {
        &self.limits
    }
}
