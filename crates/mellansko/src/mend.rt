// The call that mends a log, for C and Rust. It only hands on to the crate that does the work, and says its answer in numbers:
// docs/FORMAT.md, §12.10.
ghost use Rattle.std.specs.Prelude.{◌≡◌};
ghost use Rattle.log_format.specs.Format.Fragment.{first_edition};
ghost use Rattle.log_format.specs.Format.Numbers.{kind_in};
ghost use Rattle.mend_format.specs.Format.Mending.{mend_of};
ghost use Rattle.mend_format.specs.Format.Numbers.{mended_numbers};

// The answer's ten numbers are mended_numbers', and what is returned is the first of them.
#[unsafe(no_mangle)]
pub extern "C" fn mellansko_mend(
    bad: &[u8],
    fresh: &mut [u8],
    limit: usize,
    buffer: &mut [u8],
    answer: &mut [u64; 10],
) -> u64
    ensures value { result ≡ kind_in (mended_numbers (mend_of first_edition bad.now fresh.old limit buffer.old).answer) }
    ensures answer_after { answer.new ≡ mended_numbers (mend_of first_edition bad.now fresh.old limit buffer.old).answer }
    ensures fresh_after { fresh.new ≡ (mend_of first_edition bad.now fresh.old limit buffer.old).fresh }
    ensures buffer_after { buffer.new ≡ (mend_of first_edition bad.now fresh.old limit buffer.old).buffer }
{
    let mended = mend_numbers::mended(mend_log::mend(bad, fresh, limit, buffer));
    *answer = mended;
    mended[0]
}
