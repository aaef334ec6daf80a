// Runs over the reasons for a skip, 1 to 8, with the limits at 7, over the asking for bytes, and over the fragments of a record
// that interrupts another. Each place is written out, so that a step can be checked by hand.
#![tactic(auto)]

use by_hand::ByHand;
use log_layout::Fragment;
use report::Bench;
use std::io;

fn main(rt: HostRuntime) -> io::Result<()> {
    let mut bench = Bench::new(&rt);
    bad_length(&mut bench)?;
    blank(&mut bench)?;
    checksum(&mut bench)?;
    nothing_open(&mut bench)?;
    record_open(&mut bench)?;
    empty_start(&mut bench)?;
    empty_interrupted(&mut bench)?;
    over_the_limit(&mut bench)?;
    bytes_asked_for(&mut bench)?;
    counted_anew(&mut bench)
}

fn bad_length(bench: &mut Bench<'_, impl Print>) -> io::Result<()> {
    bench.scenario("reason 1, bad length by one, with a record open")?;
    bench.fragment(0, Fragment::FIRST, 1, 5);
    bench.fragment(12, Fragment::LAST, 2, 32_749);
    bench.append(32_780, 32_768, 3, 5)?;
    // The length becomes 32750.
    bench.change(16, 0x03);
    bench.read(32_780, 262_144)?;
    bench.sums(32_780)
}

fn blank(bench: &mut Bench<'_, impl Print>) -> io::Result<()> {
    bench.scenario("reason 2, blank though the checksum is right, with a record open")?;
    bench.fragment(0, Fragment::FIRST, 1, 5);
    bench.fragment(12, 0, 2, 0);
    bench.read(40, 100)?;
    bench.sums(40)
}

fn checksum(bench: &mut Bench<'_, impl Print>) -> io::Result<()> {
    bench.scenario("reason 3, checksum, with a record open and a sound fragment after")?;
    bench.fragment(0, Fragment::FIRST, 1, 5);
    bench.fragment(12, Fragment::LAST, 2, 5);
    bench.fragment(24, Fragment::FULL, 3, 5);
    bench.change(20, 1);
    bench.read(36, 100)?;
    bench.sums(36)
}

fn nothing_open(bench: &mut Bench<'_, impl Print>) -> io::Result<()> {
    bench.scenario(
        "reasons 5 and 6: FULL, MIDDLE, LAST, types 5 and 0, and FIRST with nothing open",
    )?;
    bench.fragment(0, Fragment::FULL, 1, 5);
    bench.fragment(12, Fragment::MIDDLE, 2, 5);
    bench.fragment(24, Fragment::LAST, 3, 5);
    bench.fragment(36, 5, 4, 5);
    bench.fragment(48, 0, 5, 5);
    bench.fragment(60, Fragment::FIRST, 6, 5);
    bench.read(72, 100)?;
    bench.sums(72)
}

fn record_open(bench: &mut Bench<'_, impl Print>) -> io::Result<()> {
    bench.scenario("reason 4: FULL, FIRST, MIDDLE, LAST and type 5 with a record open")?;
    bench.fragment(0, Fragment::FIRST, 1, 5);
    bench.fragment(12, Fragment::FULL, 2, 5);
    bench.fragment(24, Fragment::FIRST, 3, 5);
    bench.fragment(36, Fragment::FIRST, 4, 5);
    bench.fragment(48, Fragment::MIDDLE, 5, 5);
    bench.fragment(60, Fragment::LAST, 6, 5);
    bench.fragment(72, Fragment::FIRST, 7, 5);
    bench.fragment(84, 5, 8, 5);
    bench.read(96, 100)?;
    bench.sums(96)
}

fn empty_start(bench: &mut Bench<'_, impl Print>) -> io::Result<()> {
    bench.scenario(
        "reason 8, empty start, as an early LevelDB writer left it: afresh with FULL, and with FIRST",
    )?;
    bench.fragment(0, Fragment::FULL, 1, 32_754);
    bench.fragment(32_761, Fragment::FIRST, 2, 0);
    bench.fragment(32_768, Fragment::FULL, 2, 1_000);
    bench.fragment(33_775, Fragment::FULL, 3, 31_747);
    bench.fragment(65_529, Fragment::FIRST, 4, 0);
    bench.fragment(65_536, Fragment::FIRST, 4, 32_761);
    bench.fragment(98_304, Fragment::LAST, 5, 7_239);
    bench.read(105_550, 262_144)?;
    bench.sums(105_550)
}

fn empty_interrupted(bench: &mut Bench<'_, impl Print>) -> io::Result<()> {
    bench.scenario(
        "reasons 8 and 4 by what interrupts: FULL after an empty MIDDLE, type 5, FULL after a MIDDLE with bytes, a changed FULL",
    )?;
    bench.fragment(0, Fragment::FIRST, 1, 0);
    bench.fragment(7, Fragment::MIDDLE, 2, 0);
    bench.fragment(14, Fragment::FULL, 3, 5);
    bench.fragment(26, Fragment::FIRST, 4, 0);
    bench.fragment(33, 5, 5, 5);
    bench.fragment(45, Fragment::FIRST, 6, 0);
    bench.fragment(52, Fragment::MIDDLE, 7, 5);
    bench.fragment(64, Fragment::FULL, 8, 5);
    bench.fragment(76, Fragment::FIRST, 9, 0);
    bench.fragment(83, Fragment::FULL, 10, 5);
    bench.change(90, 1);
    bench.read(95, 100)?;
    bench.sums(95)
}

fn over_the_limit(bench: &mut Bench<'_, impl Print>) -> io::Result<()> {
    bench.scenario(
        "reason 7: limits at and one below a length, whole, gathered, and of FIRST and MIDDLE",
    )?;
    bench.fragment(0, Fragment::FULL, 1, 100);
    bench.fragment(107, Fragment::FIRST, 2, 50);
    bench.fragment(164, Fragment::MIDDLE, 3, 30);
    bench.fragment(201, Fragment::LAST, 4, 20);
    bench.next(228, 0, 100, 100)?;
    bench.next(228, 0, 99, 99)?;
    bench.next(228, 107, 100, 100)?;
    bench.next(228, 107, 99, 99)?;
    bench.next(228, 107, 79, 79)?;
    bench.next(228, 107, 49, 49)?;
    bench.sums(228)
}

fn bytes_asked_for(bench: &mut Bench<'_, impl Print>) -> io::Result<()> {
    bench.scenario("the bytes asked for, in slices just long enough and one too short")?;
    bench.fragment(0, Fragment::FULL, 1, 10);
    bench.fragment(17, Fragment::FIRST, 2, 10);
    bench.fragment(34, Fragment::LAST, 3, 10);
    bench.fragment(51, Fragment::MIDDLE, 4, 10);
    let whole = bench.answer(68, 0, 100, 100)?;
    let gathered = bench.answer(68, 17, 100, 100)?;
    let skip = bench.answer(68, 51, 100, 100)?;
    bench.bytes(68, 100, skip)?;
    bench.bytes(17, 0, whole)?;
    bench.bytes(16, 100, whole)?;
    // After the skip the buffer still has the bytes.
    bench.bytes(0, 20, gathered)?;
    bench.bytes(68, 19, gathered)?;
    bench.sums(68)
}

// §16.2: the record that is handed out has none of the fragments of the one before it.
fn counted_anew(bench: &mut Bench<'_, impl Print>) -> io::Result<()> {
    bench.scenario("an interrupted record takes its fragments with it")?;
    bench.fragment(0, Fragment::FIRST, 1, 5);
    bench.fragment(12, Fragment::MIDDLE, 2, 3);
    bench.fragment(22, Fragment::FIRST, 3, 4);
    bench.fragment(33, Fragment::LAST, 4, 2);
    bench.read(42, 100)?;
    bench.sums(42)
}
