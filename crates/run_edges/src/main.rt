// Runs at the edges of the format's rules: sizes, refusals, block ends, and a log inside a record. Each place is written out, so
// that a step can be checked by hand.
#![tactic(auto)]

ghost use Rattle.std.specs.Prelude.{◌≡◌, ◌≤◌};

use by_hand::ByHand;
use log_format::Record;
use report::{Bench, Length};
use std::io;

// A byte more than a record may have.
const LONG: usize = Record::LONGEST + 1;

fn main(rt: HostRuntime) -> io::Result<()> {
    let mut bench = Bench::new(&rt);
    longest_record(&mut bench, &[0u8; LONG])?;
    refused_appends(&mut bench)?;
    refused_readings(&mut bench)?;
    block_ends(&mut bench)?;
    empty_records(&mut bench)?;
    log_inside_a_record(&mut bench)
}

// A log with room for such a record and the record together are more than the stack has: that the longest one is accepted is run from
// Rust, and here its refusal is 4, and not 3.
fn longest_record(bench: &mut Bench<'_, impl Print>, zeros: &[u8; LONG]) -> io::Result<()>
    ensures { bench.new.record ≡ bench.old.record }
{
    bench.scenario("the longest record and one byte more, with no room for either")?;
    bench.append_bytes(262_144, 0, &zeros[..4_194_304])?;
    bench.append_bytes(262_144, 0, zeros)?;
    // 2, 3 and 4 all hold; then 3 and 4.
    bench.append_bytes(100, 101, zeros)?;
    bench.append_bytes(100, 100, zeros)?;
    bench.sums(262_144)
}

fn refused_appends(bench: &mut Bench<'_, impl Print>) -> io::Result<()> {
    bench.scenario("refused appends, each with its neighbour that is not")?;
    // 2. The neighbour has no room even for an empty record, and the one before it has.
    bench.append(100, 101, 1, 0)?;
    bench.append(100, 100, 1, 0)?;
    bench.append(100, 93, 1, 0)?;
    // 4, by one byte, also where a trailer is a part of the size. 3 is in the scenario above.
    bench.append(1_006, 0, 2, 1_000)?;
    bench.append(1_007, 0, 2, 1_000)?;
    bench.append(32_774, 32_762, 3, 0)?;
    bench.append(32_775, 32_762, 3, 0)?;
    bench.sums(32_775)
}

fn refused_readings(bench: &mut Bench<'_, impl Print>) -> io::Result<()> {
    bench.scenario("refused readings, each with its neighbour")?;
    bench.append(17, 0, 1, 10)?;
    // 2.
    bench.next(17, 18, 100, 100)?;
    bench.next(17, 17, 100, 100)?;
    // 5. The neighbour is 6: a buffer for the highest limit is longer than the array.
    bench.next(17, 0, 4_194_305, 262_144)?;
    bench.next(17, 0, 4_194_304, 262_144)?;
    // 6.
    bench.next(17, 0, 100, 99)?;
    bench.next(17, 0, 100, 100)?;
    // 2, 5 and 6 all hold.
    bench.next(17, 18, 4_194_305, 0)?;
    bench.sums(17)
}

fn block_ends(bench: &mut Bench<'_, impl Print>) -> io::Result<()> {
    bench.scenario("7, 6 and 0 bytes left in a block, an empty record and one of a byte")?;
    append_and_read(bench, 32_761, 1, 0)?;
    append_and_read(bench, 65_529, 2, 1)?;
    append_and_read(bench, 98_298, 3, 0)?;
    append_and_read(bench, 131_066, 4, 1)?;
    append_and_read(bench, 163_840, 5, 0)?;
    append_and_read(bench, 196_608, 6, 1)?;
    bench.sums(262_144)
}

// Appends a record of so many bytes at a mark near its block's end, and reads what that added.
fn append_and_read(
    bench: &mut Bench<'_, impl Print>,
    mark: usize,
    number: usize,
    bytes: usize,
) -> io::Result<()>
    requires { bytes ≤ Length.RECORD }
{
    bench.append(Length::LOG, mark, number, bytes)?;
    bench.next(Length::LOG, mark, 100, Length::BUFFER)
}

fn empty_records(bench: &mut Bench<'_, impl Print>) -> io::Result<()> {
    bench.scenario("empty records in a row, with limit 0")?;
    bench.append(21, 0, 1, 0)?;
    bench.append(21, 7, 2, 0)?;
    bench.append(21, 14, 3, 0)?;
    bench.read(21, 0)?;
    bench.sums(21)
}

fn log_inside_a_record(bench: &mut Bench<'_, impl Print>) -> io::Result<()> {
    bench.scenario("a log inside a record, which stays one record, and damaged gives none")?;
    bench.append(44, 0, 1, 10)?;
    bench.append(44, 17, 2, 20)?;
    bench.record_of_log(44);
    bench.fill_log();
    bench.append_made(51, 0, 44)?;
    bench.read(51, 100)?;
    // A byte of the outer fragment's checksum.
    bench.change(0, 1);
    bench.read(51, 100)?;
    bench.sums(51)
}
