// The steps that the programs run_edges, run_example, run_reasons and run_trailers are lists of: calls of the writer and the
// reader, with the lines that tell what they answer, and changes of bytes, which write no line.
//
// No contract can say what is written. rust/reference has the same steps, and what it writes is what the programs are held to.
// What writes answers an error where a write fails.
#![tactic(auto)]

mod line;

ghost use Rattle.std.specs.Prelude.{◌≡◌, ◌<◌, ◌≤◌, replicate, set, slice_index, EachIndex, bit_xor};

use line::Sum;
use log_format::{Next, Refusal};
use std::fmt::Display;
use std::io;

// The arrays that a program has. Of the log and the buffer it lends a front part. They are on the stack, so they have what the runs
// need and no more: a log that takes the longest record, and the record, are more than a stack of 8 MiB has.
#[derive(Clone, Copy)]
pub struct Length;

impl Length {
    // Eight blocks.
    pub const LOG: usize = 262_144;

    // The longest record of the example (§9.2).
    pub const RECORD: usize = 97_270;

    // The limit that the examples are read with (§9.2).
    pub const BUFFER: usize = 262_144;
}

// What log and buffer are filled with, so that bytes that a call left alone can be seen.
#[derive(Clone, Copy)]
struct Filler;

impl Filler {
    const LOG: u8 = 0xa5;

    const BUFFER: u8 = 0x5a;
}

// What the steps are done on: the runtime, which takes the lines, and the arrays; public, so that a caller may bring arrays of its own.
// Each step says which of them stay as they are. It asks that its n, m and bytes lie in them: a type that says so would have to be made
// at each step, and a slice can't go beside `&mut self`.
#[derive(Drop)]
pub struct Bench<'a, P: Print> {
    pub rt: &'a P,
    pub log: [u8; Length::LOG],
    pub record: [u8; Length::RECORD],
    pub buffer: [u8; Length::BUFFER],
}

impl<'a, P: Print> Bench<'a, P> {
    pub fn new(rt: &'a P) -> Self
        ensures { (result.log ≡ replicate Length.LOG 0) × (result.record ≡ replicate Length.RECORD 0) × (result.buffer ≡ replicate Length.BUFFER 0) }
    {
        Bench {
            rt,
            log: [0; Length::LOG],
            record: [0; Length::RECORD],
            buffer: [0; Length::BUFFER],
        }
    }

    // Begins a scenario.
    pub fn scenario(&mut self, title: impl Display + Drop) -> io::Result<()>
        ensures { self.new.record ≡ self.old.record }
    {
        self.fill_log();
        self.buffer.fill(Filler::BUFFER);
        println!(self.rt; "# {title}")
    }

    // Fills the log, so that bytes that a call left alone can be seen.
    pub fn fill_log(&mut self)
        ensures filled { EachIndex self.new.log (λ k. slice_index self.new.log k ≡ Filler.LOG) }
        ensures others { (self.new.record ≡ self.old.record) × (self.new.buffer ≡ self.old.buffer) }
    {
        self.log.fill(Filler::LOG);
    }

    // Ends a scenario: the checksums of the log's first n bytes and of the whole buffer.
    pub fn sums(&self, n: usize) -> io::Result<()>
        requires { n ≤ Length.LOG }
    {
        println!(self.rt; "log {}", Sum(&self.log[..n]))?;
        println!(self.rt; "buffer {}", Sum(&self.buffer))
    }

    // Puts the bytes of record number `number` at the record's front.
    pub fn make_record(&mut self, number: usize, bytes: usize)
        requires { bytes ≤ Length.RECORD }
        ensures { (self.new.log ≡ self.old.log) × (self.new.buffer ≡ self.old.buffer) }
    {
        for (i, byte) in self.record[..bytes].iter_mut().enumerate() {
            *byte = record_byte(number, i);
        }
    }

    // Changes a byte of the log by xor.
    pub fn change(&mut self, place: usize, by: u8)
        requires { place < Length.LOG }
        ensures changed { self.new.log ≡ set self.old.log place (bit_xor (slice_index self.old.log place) by) }
        ensures others { (self.new.record ≡ self.old.record) × (self.new.buffer ≡ self.old.buffer) }
    {
        self.log[place] ^= by;
    }

    // Makes a record and appends it, with the log's first n bytes lent.
    pub fn append(&mut self, n: usize, mark: usize, number: usize, bytes: usize) -> io::Result<()>
        requires n_bound { n ≤ Length.LOG }
        requires bytes_bound { bytes ≤ Length.RECORD }
        ensures { self.new.buffer ≡ self.old.buffer }
    {
        self.make_record(number, bytes);
        self.append_made(n, mark, bytes)
    }

    // Appends the record that is there.
    pub fn append_made(&mut self, n: usize, mark: usize, bytes: usize) -> io::Result<()>
        requires n_bound { n ≤ Length.LOG }
        requires bytes_bound { bytes ≤ Length.RECORD }
        ensures { (self.new.record ≡ self.old.record) × (self.new.buffer ≡ self.old.buffer) }
    {
        let record = &self.record[..bytes];
        let log = &mut self.log[..];
        append(self.rt, &mut log[..n], mark, record)
    }

    // Appends a record that is not in the array.
    pub fn append_bytes(&mut self, n: usize, mark: usize, record: &[u8]) -> io::Result<()>
        requires { n ≤ Length.LOG }
        ensures { (self.new.«record» ≡ self.old.«record») × (self.new.buffer ≡ self.old.buffer) }
    {
        append(self.rt, &mut self.log[..n], mark, record)
    }

    // Reads the next thing, with the log's first n bytes and the buffer's first m lent.
    pub fn next(&mut self, n: usize, place: usize, limit: usize, m: usize) -> io::Result<()>
        requires n_bound { n ≤ Length.LOG }
        requires m_bound { m ≤ Length.BUFFER }
        ensures { (self.new.log ≡ self.old.log) × (self.new.record ≡ self.old.record) }
    {
        let _ = self.answer(n, place, limit, m)?;
        Ok(())
    }

    // The same, and gives the answer.
    pub fn answer(
        &mut self,
        n: usize,
        place: usize,
        limit: usize,
        m: usize,
    ) -> io::Result<Result<Next, Refusal>>
        requires n_bound { n ≤ Length.LOG }
        requires m_bound { m ≤ Length.BUFFER }
        ensures { (self.new.log ≡ self.old.log) × (self.new.record ≡ self.old.record) }
    {
        let log = &self.log[..n];
        let buffer = &mut self.buffer[..];
        let answer = log_reader::next(log, place, limit, &mut buffer[..m]);
        let bytes = log_reader::record_bytes(log, &buffer[..m], answer);
        line::next(self.rt, answer, bytes)?;
        Ok(answer)
    }

    // Reads from place 0 to the end, with the log's first n bytes and the whole buffer lent.
    pub fn read(&mut self, n: usize, limit: usize) -> io::Result<()>
        requires { n ≤ Length.LOG }
        ensures { (self.new.log ≡ self.old.log) × (self.new.record ≡ self.old.record) }
    {
        let mut place = 0;
        // Each answer but the last takes a byte at least, so that there are no more than these. The test lets through every place that
        // an answer can name, and shows it.
        for _ in 0..=n {
            let answer = self.answer(n, place, limit, Length::BUFFER)?;
            match goes_on(answer) {
                Some(after) if place < after => place = after,
                _ => break,
            }
        }
        Ok(())
    }

    // Asks for an answer's bytes, in the log's first n bytes and the buffer's first m.
    pub fn bytes(&self, n: usize, m: usize, answer: Result<Next, Refusal>) -> io::Result<()>
        requires n_bound { n ≤ Length.LOG }
        requires m_bound { m ≤ Length.BUFFER }
    {
        let bytes = log_reader::record_bytes(&self.log[..n], &self.buffer[..m], answer);
        println!(self.rt; "bytes {} {}", bytes.len(), Sum(bytes))
    }
}

fn append(rt: &impl Print, log: &mut [u8], mark: usize, record: &[u8]) -> io::Result<()> {
    let answer = log_writer::append(log, mark, record);
    line::appended(rt, record.len(), mark, answer)
}

// i * 31 + i / 256 + number * 17, its lowest byte. Reduced before it is multiplied, so that no product wraps.
fn record_byte(number: usize, i: usize) -> u8 {
    ((i % 256 * 31 + i / 256 + number % 256 * 17) % 256) as u8
}

// Where a reading goes on from, unless it stops. run_feed asks whether it stops, and feed_next what the state is then: three results of
// one match.
fn goes_on(answer: Result<Next, Refusal>) -> Option<usize> {
    match answer {
        Ok(Next::Record(record)) => Some(record.end),
        Ok(Next::Skip(skip)) => Some(skip.end),
        Ok(Next::End(_)) | Err(_) => None,
    }
}
