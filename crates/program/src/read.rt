// Reads programs from bytes.
ghost use Rattle.std.specs.Prelude.{◌≡◌};
ghost use Rattle.program.specs.Reading.{over, program};
ghost use Rattle.program.specs.Encoding.{ReadsExactly};
ghost use Rattle.program.specs.Programs.{read_parts};

use crate::faults::Fault;
use crate::reader::Reader;
use crate::{Program, Room};

impl Program {
    // Reads a program from the front of the bytes into the reserved room: the program and how many bytes it took.
    #[tactic(auto, using(crate::proofs::Exact::exact))]
    pub fn read(room: Room, bytes: &[u8]) -> Result<(Program, usize), Fault>
        ensures value { over read_parts result ≡ program bytes.now }
        ensures exactly { ReadsExactly bytes.now }
    {
        let mut reader = Reader { bytes, at: 0 };
        let count = reader.byte(1, 8)?;
        let starts = reader.starts()?;
        let limits = reader.limits(&starts)?;
        let texts = reader.texts(room, count)?;
        let program = Program {
            texts,
            starts,
            limits,
        };
        Ok((program, reader.at))
    }
}
