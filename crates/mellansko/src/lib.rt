// The calls for C and Rust. Each only hands on to the call of the crate that does the work, and says its answer in
// numbers: docs/FORMAT.md, §10.1. That the first of them is returned too is two lines in each, and no helper with a contract of its own.
#![tactic(auto)]

mod feed;
mod mend;

ghost use Rattle.std.specs.Prelude.{◌≡◌, length};
ghost use Rattle.crc32c.specs.Crc32c.{extend};
ghost use Rattle.crc32c.specs.Mask.{mask};
ghost use Rattle.log_format.specs.Format.Fragment.{first_edition};
ghost use Rattle.log_format.specs.Format.Calls.{append_of, next_of};
ghost use Rattle.log_format.specs.Format.Numbers.{appended_numbers, kind_in, next_numbers};

use crc32c::{Crc32c, Mask};

#[unsafe(no_mangle)]
pub extern "C" fn mellansko_crc32c(checksum: u32, bytes: &[u8]) -> u32
    ensures { result ≡ extend checksum bytes.now }
{
    Crc32c::extend(checksum, bytes)
}

#[unsafe(no_mangle)]
pub extern "C" fn mellansko_mask(checksum: u32) -> u32
    ensures { result ≡ mask checksum }
{
    Mask::of(checksum)
}

// The answer's ten numbers are appended_numbers', and what is returned is the first of them.
#[unsafe(no_mangle)]
pub extern "C" fn mellansko_append(
    log: &mut [u8],
    mark: usize,
    record: &[u8],
    answer: &mut [u64; 10],
) -> u64
    ensures value { result ≡ kind_in (appended_numbers (append_of first_edition log.old mark «record».now).answer) }
    ensures answer_after { answer.new ≡ appended_numbers (append_of first_edition log.old mark «record».now).answer }
    ensures log_after { log.new ≡ (append_of first_edition log.old mark «record».now).log }
{
    let appended = answer_numbers::appended(log_writer::append(log, mark, record));
    *answer = appended;
    appended[0]
}

// The answer's ten numbers are next_numbers', and what is returned is the first of them.
#[unsafe(no_mangle)]
pub extern "C" fn mellansko_next(
    log: &[u8],
    place: usize,
    limit: usize,
    buffer: &mut [u8],
    answer: &mut [u64; 10],
) -> u64
    ensures value { result ≡ kind_in (next_numbers (length log.now) (next_of first_edition log.now place limit buffer.old).answer) }
    ensures answer_after { answer.new ≡ next_numbers (length log.now) (next_of first_edition log.now place limit buffer.old).answer }
    ensures buffer_after { buffer.new ≡ (next_of first_edition log.now place limit buffer.old).buffer }
{
    let next = answer_numbers::next(log.len(), log_reader::next(log, place, limit, buffer));
    *answer = next;
    next[0]
}
