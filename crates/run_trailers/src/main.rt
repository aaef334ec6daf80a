// Runs over trailers of each length: clean, and with each byte dirty in turn. An append's fragments fill their block, so a trailer
// inside a record is put by hand.
#![tactic(auto)]

ghost use Rattle.std.specs.Prelude.{◌≡◌, ◌≤◌, ◌<◌};
ghost use Rattle.log_layout.specs.declared.TheConstants.Header.{SIZE};

use by_hand::ByHand;
use log_layout::{Fragment, Header};
use report::{Bench, Length};
use std::io;

fn main(rt: HostRuntime) -> io::Result<()> {
    let mut bench = Bench::new(&rt);
    for bytes in 1..Header::SIZE {
        Trailer { bytes }.run(&mut bench)?;
    }
    Ok(())
}

// The end of a block that has no room for a header: how many bytes it has, and no slice of them.
#[derive(Clone, Copy)]
struct Trailer {
    bytes: usize,
    ghost short: { bytes < SIZE },
}

impl Trailer {
    fn run(self, bench: &mut Bench<'_, impl Print>) -> io::Result<()> {
        let plural = if self.bytes == 1 { "" } else { "s" };
        bench.scenario(format_args!("{} byte{plural} of trailer", self.bytes))?;
        self.record_open(bench)?;
        self.nothing_open(bench)?;
        self.empty_open(bench)?;
        self.from_inside(bench)?;
        self.append_over(bench)?;
        bench.sums(Length::LOG)
    }

    // A record from 0 to 65643, over two trailers.
    fn record_open(self, bench: &mut Bench<'_, impl Print>) -> io::Result<()> {
        bench.fragment(0, Fragment::FIRST, 1, 32_761 - self.bytes);
        bench.zeros(32_768 - self.bytes, self.bytes);
        bench.fragment(32_768, Fragment::MIDDLE, 2, 32_761 - self.bytes);
        bench.zeros(65_536 - self.bytes, self.bytes);
        bench.fragment(65_536, Fragment::LAST, 3, 100);
        bench.read(65_643, Length::BUFFER)?;
        self.cuts(bench)?;
        self.each_byte_dirty(bench, 65_643)
    }

    // The log cut where the first trailer starts, before its last byte, after it, and before the second one's last byte.
    fn cuts(self, bench: &mut Bench<'_, impl Print>) -> io::Result<()>
        ensures { (bench.new.log ≡ bench.old.log) × (bench.new.record ≡ bench.old.record) }
    {
        bench.read(32_768 - self.bytes, Length::BUFFER)?;
        bench.read(32_767, Length::BUFFER)?;
        bench.read(32_768, Length::BUFFER)?;
        bench.read(65_535, Length::BUFFER)
    }

    // A record up to the trailer, and one after it.
    fn nothing_open(self, bench: &mut Bench<'_, impl Print>) -> io::Result<()> {
        bench.fragment(0, Fragment::FULL, 4, 32_761 - self.bytes);
        bench.fragment(32_768, Fragment::FULL, 5, 100);
        self.each_byte_dirty(bench, 32_875)
    }

    // An empty FIRST right before the trailer: it is interrupted all the same, and no empty start.
    fn empty_open(self, bench: &mut Bench<'_, impl Print>) -> io::Result<()> {
        bench.fragment(0, Fragment::FULL, 6, 32_754 - self.bytes);
        bench.fragment(32_761 - self.bytes, Fragment::FIRST, 7, 0);
        self.each_byte_dirty(bench, 32_875)
    }

    fn each_byte_dirty(self, bench: &mut Bench<'_, impl Print>, n: usize) -> io::Result<()>
        requires { n ≤ Length.LOG }
        ensures { bench.new.record ≡ bench.old.record }
    {
        for place in 32_768 - self.bytes..32_768 {
            dirty(bench, place, n)?;
        }
        Ok(())
    }

    // The first byte is dirty: a call there, and one after it.
    fn from_inside(self, bench: &mut Bench<'_, impl Print>) -> io::Result<()>
        ensures { bench.new.record ≡ bench.old.record }
    {
        bench.change(32_768 - self.bytes, 1);
        bench.next(32_875, 32_768 - self.bytes, 100, 100)?;
        bench.next(32_875, 32_769 - self.bytes, 100, 100)
    }

    // An append fills a trailer with zeros, whatever was there.
    fn append_over(self, bench: &mut Bench<'_, impl Print>) -> io::Result<()> {
        bench.append(98_321, 98_304 - self.bytes, 4, 10)?;
        bench.next(98_321, 98_304 - self.bytes, 100, 100)
    }
}

// One byte is changed, and put back. The log's first n bytes are read, then those up to and with the byte, and those before it.
fn dirty(bench: &mut Bench<'_, impl Print>, place: usize, n: usize) -> io::Result<()>
    requires place_bound { place < 32_768 }
    requires n_bound { n ≤ Length.LOG }
    ensures { bench.new.record ≡ bench.old.record }
{
    bench.change(place, 1);
    bench.read(n, Length::BUFFER)?;
    bench.read(place + 1, Length::BUFFER)?;
    bench.read(place, Length::BUFFER)?;
    bench.change(place, 1);
    Ok(())
}
