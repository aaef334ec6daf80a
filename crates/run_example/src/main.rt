// Writes what is read of the example of the log format's text: whole, cut at two places, and with a byte changed.
#![tactic(auto)]

ghost use Rattle.std.specs.Prelude.{◌≡◌, ◌≤◌};

use report::{Bench, Length};
use std::io;

// The length of the log, which the example fills to its last byte.
const FILLED: usize = 106_311;

fn main(rt: HostRuntime) -> io::Result<()> {
    let mut bench = Bench::new(&rt);
    cut(&mut bench, "the example, whole", FILLED)?;
    cut(
        &mut bench,
        "cut at 106310, inside the third record",
        106_310,
    )?;
    cut(
        &mut bench,
        "cut at 98300, in the trailer after the second record",
        98_300,
    )?;
    changed(&mut bench)
}

// The example, of which the log's first n bytes are left.
fn cut(bench: &mut Bench<'_, impl Print>, title: &str, n: usize) -> io::Result<()>
    requires { n ≤ Length.LOG }
{
    bench.scenario(title)?;
    example(bench)?;
    read(bench, n)
}

fn changed(bench: &mut Bench<'_, impl Print>) -> io::Result<()> {
    bench.scenario("byte 40000 changed by xor with 1")?;
    example(bench)?;
    bench.change(40_000, 1);
    read(bench, FILLED)
}

// Rows 1 to 3 of the table M, in turn.
fn example(bench: &mut Bench<'_, impl Print>) -> io::Result<()>
    ensures { bench.new.buffer ≡ bench.old.buffer }
{
    bench.append(FILLED, 0, 1, 1_000)?;
    bench.append(FILLED, 1_007, 2, 97_270)?;
    bench.append(FILLED, 98_298, 3, 8_000)
}

// Reads the log's first n bytes to their end.
fn read(bench: &mut Bench<'_, impl Print>, n: usize) -> io::Result<()>
    requires { n ≤ Length.LOG }
    ensures { (bench.new.log ≡ bench.old.log) × (bench.new.record ≡ bench.old.record) }
{
    bench.read(n, Length::BUFFER)?;
    bench.sums(n)
}
