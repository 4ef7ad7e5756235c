// Instructions, events, and the bytes of a program, each in one call.
ghost use Rattle.std.specs.Prelude.{◌≡◌, ◌++◌, IfOk, map};
ghost use Rattle.trace.specs.declared.Event.TheVariants.{Read, Sync, Write};
ghost use Rattle.worked.specs.Bytes.{program_bytes, text_bytes};

use machine::Operation;
use program::Instruction;
use std::alloc::{AllocError, Global};
use trace::Event;

// The instruction of this code, a and b.
pub fn op(code: u8, a: u8, b: u16) -> Instruction
    ensures { result ≡ record { code = code; a = a; b = b } }
{
    Instruction { code, a, b }
}

// The thread read this version.
pub fn read(thread: u8, version: u16) -> Event
    ensures { result ≡ Read thread version }
{
    Event::Read { thread, version }
}

// The thread wrote over this version, of which so many reads were made.
pub fn write(thread: u8, version: u16, reads: u16) -> Event
    ensures { result ≡ Write thread version reads }
{
    Event::Write {
        thread,
        version,
        reads,
    }
}

// The thread made this operation.
pub fn sync(thread: u8, operation: Operation) -> Event
    ensures { result ≡ Sync thread operation }
{
    Event::Sync { thread, operation }
}

// The bytes of a program of these threads, every semaphore with this start and limit.
// A number past 255 is written as 255, which no program has.
pub fn bytes(
    heap: Global,
    start: u8,
    limit: u8,
    texts: &[&[Instruction]],
) -> Result<Vec<u8>, AllocError>
    ensures { IfOk result (λ v. v.items ≡ program_bytes start limit (map (λ t. t.now) texts.now)) }
{
    let mut bytes = Vec::new(heap);
    bytes.push(texts.len().min(255) as u8)?;
    bytes.extend_from_slice(&[start; 8])?;
    bytes.extend_from_slice(&[limit; 8])?;
    for text in texts {
        add_text(&mut bytes, text)?;
    }
    Ok(bytes)
}

// Appends the bytes of one thread.
fn add_text(bytes: &mut Vec<u8>, text: &[Instruction]) -> Result<(), AllocError>
    ensures { IfOk result (λ _. bytes.new.items ≡ bytes.old.items ++ text_bytes text.now) }
{
    bytes.push(text.len().min(255) as u8)?;
    for i in text {
        let [low, high] = i.b.to_le_bytes();
        bytes.extend_from_slice(&[i.code, i.a, low, high])?;
    }
    Ok(())
}
