// The line of an answer: what it is in a letter, and its numbers.
use log_format::{Next, Refusal, Tail};
use std::fmt;

#[derive(Clone, Copy)]
pub struct Line(pub Result<Next, Refusal>);

impl fmt::Display for Line {
    fn fmt<W: fmt::Write>(&self, f: &mut fmt::Formatter<W>) -> fmt::Result {
        match self.0 {
            Ok(Next::Record(record)) => write!(
                f,
                "R {} {} {}",
                record.start, record.end, record.length
            ),
            Ok(Next::Skip(skip)) => write!(f, "S {} {} {}", skip.start, skip.end, skip.reason),
            Ok(Next::End(Tail::Clean)) => write!(f, "E clean"),
            Ok(Next::End(Tail::Torn(place))) => write!(f, "E torn {place}"),
            Err(refusal) => write!(f, "X {}", refusal.number),
        }
    }
}
