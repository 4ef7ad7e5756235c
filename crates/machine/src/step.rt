// When a thread is able, and its step.
ghost use Rattle.std.specs.Prelude.{◌≡◌, suc, ◌+◌, ◌-◌, ◌<◌, true, false, ◌&&◌, IfSome, if◌then◌else◌, slice_set};
ghost use Rattle.program.specs.Form.{Usable};
ghost use Rattle.machine.specs.Machine.{Able, able, free, object, rises};
ghost use Rattle.machine.specs.Says.{Says};
ghost use Rattle.program.specs.Programs.{fetched};
ghost use Rattle.machine.specs.View.{Sized, Standing, Stepped, code_of, each_of, item_of, meaning, performed, view};

use crate::{Item, Machine, Thread};
use program::{Instruction, Program};
use std::array;

// the greatest 16-bit number
const TOP: u16 = 65535;

// The registers with the value in register a. All four are chosen and none is written: a write there makes the copy of
// the thread that follows wait, which took a third of a step's time when it was measured.
fn with_register(registers: [u32; 4], a: usize, value: u32) -> [u32; 4]
    requires { a < 4 }
    ensures { result ≡ slice_set registers a value }
{
    array::from_fn(|k| chosen(a == k, value, registers[k]))
}

// The value where the register is the one, otherwise what it held.
fn chosen(is: bool, value: u32, held: u32) -> u32
    ensures { result ≡ (if is then value else held) }
{
    if is { value } else { held }
}

impl Item {
    // The variable after one more read.
    fn read(self) -> Item
        requires { self.made < 65535 }
        ensures { result ≡ record { value = self.value; version = self.version; made = suc self.made } }
    {
        Item {
            made: self.made + 1,
            ..self
        }
    }

    // The variable after a write.
    fn written(self, value: u32) -> Item
        requires { self.version < 65535 }
        ensures { result ≡ record { value = value; version = suc self.version; made = 0 } }
    {
        Item {
            value,
            version: self.version + 1,
            made: 0,
        }
    }
}

impl Machine {
    // The instruction at which the thread stands, if there is one.
    pub fn current(&self, program: &Program, thread: u8) -> Option<Instruction>
        ensures value { result ≡ fetched program.now thread ((view self.now).thread thread).place }
        ensures usable { IfSome result (λ i. Standing self.now thread i) }
    {
        program.instruction(thread, self.slot(thread)?.place)
    }

    // Whether the thread can make a step: it has not ended, and its object is free for it.
    pub fn able(&self, program: &Program, thread: u8) -> bool
        ensures answer { result ≡ able (code_of program.now) (view self.now) thread }
        ensures means { Says result (Able (code_of program.now) (view self.now) thread) }
    {
        self.current(program, thread)
            .is_some_and(|i| self.is_free(program.limits(), thread, i))
    }

    // Whether nothing blocks the thread at the instruction; by the guards of the step's match.
    fn is_free(&self, limits: &[u8; 8], thread: u8, i: Instruction) -> bool
        requires { Usable i }
        ensures { result ≡ free (each_of limits.now) thread (meaning i) (item_of self.now (object (meaning i))).value }
    {
        let b = i.b as usize;
        match i.code {
            8 if self.semaphores[b] == 0 => false,
            9 if self.semaphores[b] >= limits[b] => false,
            10 if self.holders[b] != 0 => false,
            11 if self.holders[b] != thread => false,
            _ => true,
        }
    }

    // One step of the thread; false, and nothing altered, where it is not able or a 16-bit number is at its limit.
    pub fn step(&mut self, program: &Program, thread: u8) -> bool
        ensures { Stepped program.now self.old thread result self.new }
    {
        let Some(i) = self.current(program, thread) else {
            return false;
        };
        self.make(program.limits(), thread, i)
    }

    // Makes the instruction at which the thread stands; false, and nothing altered, where that cannot be.
    // A rule of the project: the step is one match on the code by ranges, with guards for what blocks it.
    fn make(&mut self, limits: &[u8; 8], thread: u8, i: Instruction) -> bool
        requires { Standing self.old thread i }
        ensures answer { result ≡ (free (each_of limits.now) (suc (thread - 1)) (meaning i) (item_of self.old (object (meaning i))).value && rises (meaning i) ((view self.old).thread (suc (thread - 1))) (item_of self.old (object (meaning i)))) }
        ensures sized { Sized self.old }
        ensures after { self.new ≡ (if result then performed (thread - 1) (meaning i) self.old else self.old) }
    {
        let t = thread as usize - 1;
        let (a, b) = (i.a as usize, i.b as usize);
        let mut own = self.threads[t];
        let mut registers = own.registers;
        own.place += 1;
        match i.code {
            _ if own.count >= TOP => return false,
            1 => registers = with_register(registers, a, i.b as u32),
            2 => registers = with_register(registers, a, registers[a].wrapping_add(registers[b])),
            3 => registers = with_register(registers, a, registers[a].wrapping_sub(registers[b])),
            4 if registers[a] != 0 => {}
            4..=5 => own.place = i.b,
            6 if self.variables[b].made >= TOP => return false,
            6 => {
                registers = with_register(registers, a, self.variables[b].value);
                self.variables[b] = self.variables[b].read();
            }
            7 if self.variables[b].version >= TOP => return false,
            7 => self.variables[b] = self.variables[b].written(registers[a]),
            8 if self.semaphores[b] == 0 => return false,
            8 => self.semaphores[b] -= 1,
            9 if self.semaphores[b] >= limits[b] => return false,
            9 => self.semaphores[b] += 1,
            10 if self.holders[b] != 0 => return false,
            10 => self.holders[b] = thread,
            11 if self.holders[b] != thread => return false,
            _ => self.holders[b] = 0,
        }
        own.registers = registers;
        own.count += 1;
        self.threads[t] = own;
        true
    }
}
