// Writes the checksum and the masked checksum of RFC 3720's vectors (appendix B.4), of "123456789", and of that text after each of
// the four type bytes; then the checksum of each vector in two goes and in three, cut at every place.
#![tactic(auto)]

ghost use Rattle.std.specs.Prelude.{◌+◌, ◌≤◌, length};

use crc32c::{Crc32c, Mask};
use std::fmt::Display;
use std::io;

fn main(rt: HostRuntime) -> io::Result<()> {
    vectors(|name, bytes| line(&rt, name, Crc32c::extend(0, bytes)))?;
    for kind in 1..=4 {
        let typed = Crc32c::extend(0, &[kind]);
        line(
            &rt,
            format_args!("type {kind}, 123456789"),
            Crc32c::extend(typed, b"123456789"),
        )?;
    }
    vectors(|name, bytes| cuts(&rt, name, bytes))
}

// Does the same with each vector, by its name and its bytes.
fn vectors<F: Fn(&str, &[u8]) -> io::Result<()>>(each: F) -> io::Result<()>
    requires { F.IsAlwaysCallable each }
{
    each("32 bytes of 00", &[0u8; 32])?;
    each("32 bytes of FF", &[0xffu8; 32])?;
    each(
        "00 rising to 1F",
        b"\x00\x01\x02\x03\x04\x05\x06\x07\x08\x09\x0a\x0b\x0c\x0d\x0e\x0f\
          \x10\x11\x12\x13\x14\x15\x16\x17\x18\x19\x1a\x1b\x1c\x1d\x1e\x1f",
    )?;
    each(
        "1F falling to 00",
        b"\x1f\x1e\x1d\x1c\x1b\x1a\x19\x18\x17\x16\x15\x14\x13\x12\x11\x10\
          \x0f\x0e\x0d\x0c\x0b\x0a\x09\x08\x07\x06\x05\x04\x03\x02\x01\x00",
    )?;
    each(
        "SCSI read command",
        b"\x01\xc0\x00\x00\x00\x00\x00\x00\x00\x00\x00\x00\x00\x00\x00\x00\
          \x14\x00\x00\x00\x00\x00\x04\x00\x00\x00\x00\x14\x00\x00\x00\x18\
          \x28\x00\x00\x00\x00\x00\x00\x00\x02\x00\x00\x00\x00\x00\x00\x00",
    )?;
    each("123456789", b"123456789")
}

// The checksum, the masked checksum, and what they are of.
fn line(rt: &impl Print, name: impl Display + Drop, checksum: u32) -> io::Result<()> {
    let masked = Mask::of(checksum);
    println!(rt; "{checksum:08x} {masked:08x} {name}")
}

// A line for each place, the two ends among them.
fn cuts(rt: &impl Print, name: &str, bytes: &[u8]) -> io::Result<()> {
    for at in 0..=bytes.len() {
        cut_at(rt, name, bytes, at)?;
    }
    Ok(())
}

// The checksum of the bytes before the place; what carrying on over the others gives; and at how many places the others can be cut
// again for the same.
fn cut_at(rt: &impl Print, name: &str, bytes: &[u8], at: usize) -> io::Result<()>
    requires { at ≤ length bytes.now }
{
    let (before, rest) = bytes.split_at(at);
    let first = Crc32c::extend(0, before);
    let whole = Crc32c::extend(first, rest);
    let same = same(first, rest, whole);
    println!(rt; "{first:08x} {whole:08x} {same} {name}, cut at {at}")
}

// How many cuts give the whole, of those at each place, the two ends among them.
fn same(before: u32, bytes: &[u8], whole: u32) -> usize
    ensures { result ≤ length bytes.now + 1 }
{
    (0..=bytes.len())
        .filter(|at| in_two(before, bytes, *at) == whole)
        .count()
}

// The checksum in two more goes, cut at the place.
fn in_two(before: u32, bytes: &[u8], at: usize) -> u32
    requires { at ≤ length bytes.now }
{
    let between = Crc32c::extend(before, &bytes[..at]);
    Crc32c::extend(between, &bytes[at..])
}
