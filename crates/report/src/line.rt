// The lines of a program's output.
use crc32c::Crc32c;
use log_format::{Next, Record, Refusal, Stored, Tail};
use std::{fmt, io};

pub fn appended(
    rt: &impl Print,
    length: usize,
    mark: usize,
    answer: Result<usize, Refusal>,
) -> io::Result<()> {
    print!(rt; "append {length} bytes at {mark}: ")?;
    match answer {
        Ok(end) => println!(rt; "mark {end}"),
        Err(refusal) => println!(rt; "{}", Refused(refusal)),
    }
}

// bytes: those that were asked for with the answer.
pub fn next(rt: &impl Print, answer: Result<Next, Refusal>, bytes: &[u8]) -> io::Result<()> {
    match answer {
        Ok(Next::Record(record)) => handed(rt, record, bytes),
        Ok(Next::Skip(skip)) => println!(rt; "skip {} {} {}", skip.start, skip.end, skip.reason),
        Ok(Next::End(Tail::Clean)) => println!(rt; "end clean"),
        Ok(Next::End(Tail::Torn(place))) => println!(rt; "end torn {place}"),
        Err(refusal) => println!(rt; "{}", Refused(refusal)),
    }
}

fn handed(rt: &impl Print, record: Record, bytes: &[u8]) -> io::Result<()> {
    let Record {
        start,
        end,
        length,
        stored,
        fragments,
        last,
    } = record;
    print!(rt; "record {start} {end} {length} ")?;
    match stored {
        Stored::Whole(place) => print!(rt; "whole {place}")?,
        Stored::Gathered => print!(rt; "gathered")?,
    }
    println!(rt; " fragments {fragments} last {last} {}", Sum(bytes))
}

// The checksum of bytes.
#[derive(Clone, Copy)]
pub struct Sum<'a>(pub &'a [u8]);

impl fmt::Display for Sum<'_> {
    fn fmt<W: fmt::Write>(&self, f: &mut fmt::Formatter<W>) -> fmt::Result {
        write!(f, "crc32c {:08x}", Crc32c::extend(0, self.0))
    }
}

// Why a call did nothing.
#[derive(Clone, Copy)]
struct Refused(Refusal);

impl fmt::Display for Refused {
    fn fmt<W: fmt::Write>(&self, f: &mut fmt::Formatter<W>) -> fmt::Result {
        let Refused(refusal) = self;
        write!(f, "refused {} {}", refusal.number, refusal.given)
    }
}
