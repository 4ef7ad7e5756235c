// Reads the fields of a program from bytes, one after another.
ghost use Rattle.std.specs.Prelude.{◌≡◌, ◌+◌, ◌≤◌, true, IfOk, [], map, vec_items};
ghost use Rattle.program.specs.Form.{a_bound, b_bound};
ghost use Rattle.program.specs.Reading as reading;
ghost use Rattle.program.specs.Reading.{over, byte, half, one, repeated, starts, limits};
ghost use Rattle.program.specs.Rooms.{spare};

use crate::faults::Fault;
use crate::{Instruction, Room};

// Bytes, and the place of the next field. Each method says that the bytes stay, since behind a `&mut` any
// field may change; a word for that would be as long as the clause.
#[derive(Drop)]
pub(crate) struct Reader<'a> {
    pub(crate) bytes: &'a [u8],
    pub(crate) at: usize,
}

// What an instruction's a is below, by ranges of its code: it is a register, or 0 where the code has no use for it.
fn a_bound(code: u8) -> u8
    ensures { result ≡ a_bound code }
{
    match code {
        5 => 1,
        0..=7 => 4,
        _ => 1,
    }
}

// What an instruction's b is below, by ranges of its code, in a thread of n instructions.
fn b_bound(n: u8, code: u8) -> u32
    ensures { result ≡ b_bound n code }
{
    match code {
        0..=1 => 65536,
        2..=3 => 4,
        4..=5 => u32::from(n) + 1,
        6..=7 => 16,
        _ => 8,
    }
}

impl Reader<'_> {
    // The next byte, from low to high.
    pub(crate) fn byte(&mut self, low: u8, high: u8) -> Result<u8, Fault>
        ensures value { result ≡ byte self.old.bytes.now self.old.at low high }
        ensures after { IfOk result (λ _. self.new.at ≡ self.old.at + 1) }
        ensures bytes { self.new.bytes ≡ self.old.bytes }
    {
        match self.bytes.get(self.at) {
            Some(byte) if (low..=high).contains(byte) => {
                self.at += 1;
                Ok(*byte)
            }
            _ => Err(Fault::Malformed(self.at)),
        }
    }

    // The number of the next two bytes, low byte first, below a bound.
    pub(crate) fn half(&mut self, bound: u32) -> Result<u16, Fault>
        ensures value { result ≡ half self.old.bytes.now self.old.at bound }
        ensures after { IfOk result (λ _. self.new.at ≡ self.old.at + 2) }
        ensures bytes { self.new.bytes ≡ self.old.bytes }
    {
        if let Some([low, high, ..]) = self.bytes.get(self.at..) {
            let x = u16::from_le_bytes([*low, *high]);
            if u32::from(x) < bound {
                self.at += 2;
                return Ok(x);
            }
        }
        Err(Fault::Malformed(self.at))
    }

    // The next instruction, in a thread of n.
    pub(crate) fn instruction(&mut self, n: u8) -> Result<Instruction, Fault>
        ensures value { over (λ i. (i, self.new.at)) result ≡ one self.old.bytes.now n self.old.at }
        ensures bytes { self.new.bytes ≡ self.old.bytes }
    {
        let code = self.byte(1, 11)?;
        let a = self.byte(0, a_bound(code) - 1)?;
        let b = self.half(b_bound(n, code))?;
        Ok(Instruction { code, a, b })
    }

    // The semaphores' starts, which may be any bytes.
    pub(crate) fn starts(&mut self) -> Result<[u8; 8], Fault>
        requires { self.old.at ≡ 1 }
        ensures value { result ≡ starts self.old.bytes.now }
        ensures after { IfOk result (λ _. self.new.at ≡ 9) }
        ensures bytes { self.new.bytes ≡ self.old.bytes }
    {
        let starts = self
            .bytes
            .get(self.at..self.at + 8)
            .ok_or(Fault::Malformed(self.bytes.len()))?;
        self.at += 8;
        Ok(starts.try_into().unwrap())
    }

    // The semaphores' limits, each from 1 and not below its start. They are set by their index: an array's `try_map`
    // tells which error comes, and not that it is the first.
    pub(crate) fn limits(&mut self, starts: &[u8; 8]) -> Result<[u8; 8], Fault>
        requires { self.old.at ≡ 9 }
        ensures value { result ≡ limits self.old.bytes.now starts.now 9 [] }
        ensures after { IfOk result (λ _. self.new.at ≡ 17) }
        ensures bytes { self.new.bytes ≡ self.old.bytes }
    {
        let mut values = [0; 8];
        for (k, start) in starts.iter().enumerate() {
            values[k] = self.byte((*start).max(1), 255)?;
        }
        Ok(values)
    }

    // The instructions of one thread, into a vector that was reserved for them.
    pub(crate) fn text(&mut self, mut text: Vec<Instruction>) -> Result<Vec<Instruction>, Fault>
        requires { spare text ≡ true }
        ensures value { over (λ v. (vec_items v, self.new.at)) result ≡ reading.text self.old.bytes.now self.old.at }
        ensures bytes { self.new.bytes ≡ self.old.bytes }
    {
        let n = self.byte(0, 128)?;
        for _ in 0..n {
            let instruction = self.instruction(n)?;
            text.push_reserved(instruction);
        }
        Ok(text)
    }

    // The instructions of all threads, into the reserved room.
    pub(crate) fn texts(&mut self, room: Room, count: u8) -> Result<Vec<Vec<Instruction>>, Fault>
        requires { count ≤ 8 }
        ensures value { over (λ v. (map vec_items (vec_items v), self.new.at)) result ≡ repeated (reading.text self.old.bytes.now) count self.old.at [] }
        ensures bytes { self.new.bytes ≡ self.old.bytes }
    {
        let Room { mut texts, spares } = room;
        for spare in spares.into_iter().take(usize::from(count)) {
            let text = self.text(spare)?;
            texts.push_reserved(text);
        }
        Ok(texts)
    }
}
