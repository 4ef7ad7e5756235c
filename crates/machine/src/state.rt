// The machine at its start, and what it holds.
ghost use Rattle.std.specs.Prelude.{◌≡◌, ℕ, ◌&&◌, if◌then◌else◌, Some, None, IfNone, nat_le, nat_lt, slice_index_or};
ghost use Rattle.std.specs.Option.{option_copied};
ghost use Rattle.machine.specs.Machine.{idle, mutex, plain, semaphore, start, total_steps, variable};
ghost use Rattle.machine.specs.Rules.{RunLaws};
ghost use Rattle.machine.specs.View.{code_of, view};

use crate::{Item, Machine, Thread};
use program::Program;

impl Machine {
    // The machine before the first step of a program.
    pub fn start(program: &Program) -> Machine
        ensures value { view result ≡ start (code_of program.now) }
        ensures laws { RunLaws (code_of program.now) }
    {
        let ready = Thread {
            registers: [0; 4],
            place: 0,
            count: 0,
        };
        let unused = Item {
            value: 0,
            version: 0,
            made: 0,
        };
        let semaphores = *program.starts();
        Machine {
            threads: [ready; 8],
            variables: [unused; 16],
            semaphores,
            holders: [0; 8],
        }
    }

    // Where the thread is kept, from 1 to 8.
    pub(crate) fn slot(&self, thread: u8) -> Option<&Thread>
        ensures value { option_copied result ≡ (if nat_le 1 thread && nat_le thread 8 then Some ((view self.now).thread thread) else None) }
        ensures idle { IfNone result ((view self.now).thread thread ≡ idle) }
    {
        self.threads.get((thread as usize).checked_sub(1)?)
    }

    // The thread, from 1 to 8.
    pub fn thread(&self, thread: u8) -> Option<Thread>
        ensures { result ≡ (if nat_le 1 thread && nat_le thread 8 then Some ((view self.now).thread thread) else None) }
    {
        self.slot(thread).copied()
    }

    // The place at which the thread stands; 0 where there is no such thread, since in the rules every number has a thread.
    pub fn place(&self, thread: u8) -> u16
        ensures { result ≡ ((view self.now).thread thread).place }
    {
        self.slot(thread).map_or(0, |t| t.place)
    }

    // How many steps the thread has made; 0 where there is no such thread, since in the rules every number has a thread.
    pub fn count(&self, thread: u8) -> u16
        ensures { result ≡ ((view self.now).thread thread).count }
    {
        self.slot(thread).map_or(0, |t| t.count)
    }

    // How many steps all threads have made.
    pub fn steps(&self) -> u32
        ensures { result ≡ total_steps (view self.now) }
    {
        self.threads.iter().map(|t| u32::from(t.count)).sum()
    }

    // What the variables hold, from variable 0 on.
    pub fn variables(&self) -> &[Item; 16]
        ensures { (n : ℕ) → slice_index_or result.now n (plain 0) ≡ (view self.now).item (variable n) }
    {
        &self.variables
    }

    // The variable's value, version and reads made of it.
    pub fn variable(&self, number: u8) -> Option<Item>
        ensures { result ≡ (if nat_lt number 16 then Some ((view self.now).item (variable number)) else None) }
    {
        self.variables.get(number as usize).copied()
    }

    // The semaphore's value.
    pub fn semaphore(&self, number: u8) -> Option<u8>
        ensures { result ≡ (if nat_lt number 8 then Some ((view self.now).item (semaphore number)).value else None) }
    {
        self.semaphores.get(number as usize).copied()
    }

    // The thread that holds the lock, or 0.
    pub fn holder(&self, number: u8) -> Option<u8>
        ensures { result ≡ (if nat_lt number 8 then Some ((view self.now).item (mutex number)).value else None) }
    {
        self.holders.get(number as usize).copied()
    }
}
