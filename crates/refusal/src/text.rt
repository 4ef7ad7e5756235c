// Objects and refusals as text.
use crate::{Object, Refusal};
use std::fmt;

impl fmt::Display for Object {
    fn fmt<W: fmt::Write>(&self, f: &mut fmt::Formatter<W>) -> fmt::Result {
        match self {
            Object::Variable(n) => write!(f, "v{n}"),
            Object::Semaphore(n) => write!(f, "s{n}"),
            Object::Lock(n) => write!(f, "l{n}"),
        }
    }
}

// The blank and a part of a refusal, or `-` where it is missing. A missing part is one piece with its blank, which a sink
// that takes or refuses whole pieces can tell.
#[derive(Drop)]
struct Part<T>(Option<T>);

impl<T: fmt::Display> fmt::Display for Part<T> {
    fn fmt<W: fmt::Write>(&self, f: &mut fmt::Formatter<W>) -> fmt::Result {
        match &self.0 {
            Some(part) => write!(f, " {part}"),
            None => write!(f, " -"),
        }
    }
}

// Number, thread, place and object with blanks between.
impl fmt::Display for Refusal {
    fn fmt<W: fmt::Write>(&self, f: &mut fmt::Formatter<W>) -> fmt::Result {
        let thread = Part(self.thread);
        let place = Part(self.place);
        let object = Part(self.object);
        write!(f, "refused {}{thread}{place}{object}", self.number)
    }
}
