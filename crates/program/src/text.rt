// Instructions as text, by their codes, which are numbers (see `Instruction`).
use crate::Instruction;
use std::fmt;

impl fmt::Display for Instruction {
    fn fmt<W: fmt::Write>(&self, f: &mut fmt::Formatter<W>) -> fmt::Result {
        let a = self.a;
        let b = self.b;
        match self.code {
            1 => write!(f, "set r{a} to {b}"),
            2 => write!(f, "add r{b} to r{a}"),
            3 => write!(f, "subtract r{b} from r{a}"),
            4 => write!(f, "jump to {b} if r{a} is 0"),
            5 => write!(f, "jump to {b}"),
            6 => write!(f, "read v{b} into r{a}"),
            7 => write!(f, "write r{a} to v{b}"),
            8 => write!(f, "P s{b}"),
            9 => write!(f, "V s{b}"),
            10 => write!(f, "lock l{b}"),
            _ => write!(f, "unlock l{b}"),
        }
    }
}
