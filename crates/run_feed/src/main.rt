// Reads a log from standard input as it comes, and writes a line for each answer once it is certain: docs/FORMAT.md, §11.
//
// No contract can say what is read or written. rust/reference has the same program, and what it writes is what this one is held to.
#![tactic(auto)]

ghost use Rattle.std.specs.Prelude.{◌≡◌, ◌≤◌, length};

mod line;

use feed_format::Feed;
use line::Line;
use log_format::{Log, Next, Refusal};
use log_layout::Block;
use std::io;
use std::io::Read;

// The limit on a record's length.
const LIMIT: usize = 24_576;

// The bytes of a piece. The last may have fewer.
const PIECE: usize = 32_768;

fn main(rt: HostRuntime) -> io::Result<()> {
    let mut reader = Reader {
        rt: &rt,
        block: [0; Block::SIZE],
        buffer: [0; LIMIT],
    };
    match feed_state::begin(LIMIT) {
        Ok(feed) => reader.read(feed),
        Err(refusal) => println!(rt; "{}", Line(Err(refusal))),
    }
}

// What the reading is done with: the runtime, which gives the bytes and takes the lines, and what the calls are lent.
#[derive(Drop)]
struct Reader<'a, R: Input + Print> {
    rt: &'a R,
    block: [u8; Block::SIZE],
    buffer: [u8; LIMIT],
}

// A step answers the state after it, or None where there is no more to do: after a refusal, and after the end.
impl<R: Input + Print> Reader<'_, R> {
    fn read(&mut self, feed: Feed) -> io::Result<()> {
        let mut now = feed;
        // Each piece but the last has a byte at least, so that there are no more than these. The test lets through every state that a
        // piece leads to, unless it has no bytes: then the input has ended.
        for _ in 0..=Log::LONGEST {
            let mut piece = [0u8; PIECE];
            let n = read_full(&mut self.rt.reader(), &mut piece);
            match self.take(now, &piece[..n])? {
                Some(after) if now.came < after.came => now = after,
                Some(_) => break,
                None => return Ok(()),
            }
        }
        self.draw(feed_state::end(now))?;
        Ok(())
    }

    // Takes all of the piece, and draws what is certain after each part of it.
    fn take(&mut self, feed: Feed, piece: &[u8]) -> io::Result<Option<Feed>> {
        let mut now = feed;
        let mut rest = piece;
        while !rest.is_empty() {
            let taken = feed_take::take(now, &mut self.block, rest);
            let n = match taken.took {
                Ok(n) => n,
                Err(refusal) => {
                    println!(self.rt; "{}", Line(Err(refusal)))?;
                    return Ok(None);
                }
            };
            let Some(after) = self.draw(taken.feed)? else {
                return Ok(None);
            };
            // §11.5: there is room once nothing more is certain. The test shows that this ends.
            if n == 0 {
                return Ok(None);
            }
            now = after;
            rest = &rest[n..];
        }
        Ok(Some(now))
    }

    // Writes the lines of what is certain.
    fn draw(&mut self, feed: Feed) -> io::Result<Option<Feed>>
        ensures { self.new.block ≡ self.old.block }
    {
        let mut now = feed;
        // A block has fewer answers than bytes: each takes those of a header at least, or interrupts a record that took them.
        for _ in 0..Block::SIZE {
            let drawn = feed_next::next(now, &self.block, &mut self.buffer);
            now = drawn.feed;
            let Some(answer) = drawn.told.transpose() else {
                return Ok(Some(now));
            };
            println!(self.rt; "{}", Line(answer))?;
            if is_last(answer) {
                break;
            }
        }
        Ok(None)
    }
}

// Reads until the piece is full, the input ends or a read fails, and answers how many bytes were put at its start. A short read is not
// the end of the input: what comes later belongs to the same piece. No method of Read: read_exact loses how many bytes came, and
// read_to_end takes the heap.
fn read_full(input: &mut impl Read, piece: &mut [u8]) -> usize
    ensures { result ≤ length piece.new }
{
    let mut done = 0;
    while done < piece.len() {
        let n = input.read(&mut piece[done..]).unwrap_or(0);
        if n == 0 {
            break;
        }
        done += n;
    }
    done
}

fn is_last(answer: Result<Next, Refusal>) -> bool {
    matches!(answer, Ok(Next::End(_)) | Err(_))
}
