// Byte strings, and what the reader makes of each.
use program::faults::Fault;
use program::{Program, Room};
use std::test::Fail;
use worked::WORKED;

// One thread with no instruction.
const EMPTY: [u8; 18] = [1, 0, 0, 0, 0, 0, 0, 0, 0, 1, 1, 1, 1, 1, 1, 1, 1, 0];

// What reading the bytes gives: how many were taken, or the place of the refusal.
type Outcome = Result<usize, usize>;

fn read(rt: &HostRuntime, bytes: &[u8]) -> Result<Outcome, Fail> {
    let room = Room::reserve(rt.alloc())?;
    Ok(
        Program::read(room, bytes)
            .map(|(_, taken)| taken)
            .map_err(|Fault::Malformed(place)| place),
    )
}

#[test]
fn whole_programs(rt: HostRuntime) -> Result<(), Fail> {
    assert_eq!(rt; read(&rt, &WORKED)?, Ok(44));
    assert_eq!(rt; read(&rt, &EMPTY)?, Ok(18));
    let mut longer = [255; 50];
    longer[0..44].copy_from_slice(&WORKED);
    assert_eq!(rt; read(&rt, &longer)?, Ok(44), "what follows is ignored");
    Ok(())
}

// A field that is cut short is missing from where it starts.
#[test]
fn each_field_cut_short(rt: HostRuntime) -> Result<(), Fail> {
    for length in 0..44usize {
        let place = match length {
            21 | 26 | 31 | 35 | 39 | 43 => length - 1,
            _ => length,
        };
        assert_eq!(rt; read(&rt, &WORKED[0..length])?, Err(place), "length");
    }
    Ok(())
}

#[test]
fn numbers_of_threads(rt: HostRuntime) -> Result<(), Fail> {
    for (threads, outcome) in [
        (0, Err(0)),
        (1, Ok(18)),
        (7, Ok(24)),
        (8, Ok(25)),
        (9, Err(0)),
        (255, Err(0)),
    ] {
        assert_eq!(rt; read(&rt, &idle(threads))?, outcome);
    }
    Ok(())
}

// Threads with no instruction.
fn idle(threads: u8) -> [u8; 26] {
    let mut bytes = [0; 26];
    bytes[0..18].copy_from_slice(&EMPTY);
    bytes[0] = threads;
    bytes
}

#[test]
fn numbers_of_instructions(rt: HostRuntime) -> Result<(), Fail> {
    for (n, outcome) in [
        (0, Ok(18)),
        (1, Ok(22)),
        (127, Ok(526)),
        (128, Ok(530)),
        (129, Err(17)),
        (255, Err(17)),
    ] {
        assert_eq!(rt; read(&rt, &long(n))?, outcome);
    }
    Ok(())
}

// One thread that says it has n instructions, with bytes for more: each is `set r0 to 0`.
fn long(n: u8) -> [u8; 540] {
    let mut bytes = [0; 540];
    bytes[0..18].copy_from_slice(&EMPTY);
    bytes[17] = n;
    for instruction in bytes[18..538].chunks_exact_mut(4) {
        instruction[0] = 1;
    }
    bytes
}

// A start and a limit, for the first and for the last semaphore.
#[test]
fn starts_and_limits(rt: HostRuntime) -> Result<(), Fail> {
    let cases = [
        (0, 0, false),
        (0, 1, true),
        (0, 255, true),
        (1, 0, false),
        (1, 1, true),
        (5, 4, false),
        (5, 5, true),
        (255, 254, false),
        (255, 255, true),
    ];
    for k in [0usize, 7] {
        for (start, limit, fits) in cases {
            let mut bytes = EMPTY;
            bytes[1 + k] = start;
            bytes[9 + k] = limit;
            let outcome = if fits { Ok(18) } else { Err(9 + k) };
            assert_eq!(rt; read(&rt, &bytes)?, outcome);
        }
    }
    Ok(())
}

// Code, a and b of the one instruction of one thread: it takes 22 bytes, or is refused at its code, a or b.
const OPERANDS: [(u8, u8, u16, Outcome); 48] = [
    (1, 3, 65535, Ok(22)),
    (1, 4, 0, Err(19)),
    (2, 3, 3, Ok(22)),
    (2, 4, 0, Err(19)),
    (2, 0, 4, Err(20)),
    (3, 3, 3, Ok(22)),
    (3, 4, 0, Err(19)),
    (3, 0, 4, Err(20)),
    (4, 3, 1, Ok(22)),
    (4, 4, 0, Err(19)),
    (4, 0, 2, Err(20)),
    (4, 0, 65535, Err(20)),
    (5, 0, 1, Ok(22)),
    (5, 1, 0, Err(19)),
    (5, 0, 2, Err(20)),
    (5, 0, 256, Err(20)),
    (6, 3, 15, Ok(22)),
    (6, 4, 0, Err(19)),
    (6, 0, 16, Err(20)),
    (6, 0, 256, Err(20)),
    (7, 3, 15, Ok(22)),
    (7, 4, 0, Err(19)),
    (7, 0, 16, Err(20)),
    (7, 255, 255, Err(19)),
    (8, 0, 7, Ok(22)),
    (8, 1, 0, Err(19)),
    (8, 0, 8, Err(20)),
    (8, 0, 256, Err(20)),
    (9, 0, 7, Ok(22)),
    (9, 1, 0, Err(19)),
    (9, 0, 8, Err(20)),
    (9, 0, 256, Err(20)),
    (10, 0, 7, Ok(22)),
    (10, 1, 0, Err(19)),
    (10, 0, 8, Err(20)),
    (10, 0, 256, Err(20)),
    (11, 0, 7, Ok(22)),
    (11, 1, 0, Err(19)),
    (11, 0, 8, Err(20)),
    (11, 3, 0, Err(19)),
    (0, 0, 0, Err(18)),
    (12, 0, 0, Err(18)),
    (255, 0, 0, Err(18)),
    (0, 9, 9, Err(18)),
    (1, 0, 0, Ok(22)),
    (5, 0, 0, Ok(22)),
    (8, 0, 0, Ok(22)),
    (11, 0, 0, Ok(22)),
];

#[test]
fn operands(rt: HostRuntime) -> Result<(), Fail> {
    for (code, a, b, outcome) in OPERANDS {
        assert_eq!(rt; read(&rt, &single(code, a, b))?, outcome);
    }
    Ok(())
}

fn single(code: u8, a: u8, b: u16) -> [u8; 22] {
    let mut bytes = [0; 22];
    bytes[0..18].copy_from_slice(&EMPTY);
    bytes[17] = 1;
    bytes[18] = code;
    bytes[19] = a;
    bytes[20..22].copy_from_slice(&b.to_le_bytes());
    bytes
}
