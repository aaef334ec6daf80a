// docs/FORMAT.md, §12.10: the answer of mending as ten numbers. mend_format's specs/Format/Numbers.antt says which.
#![tactic(auto)]

ghost use Rattle.std.specs.Prelude.{◌≡◌};
ghost use Rattle.mend_format.specs.Format.Numbers.{mended_numbers};

use log_format::Refusal;
use mend_format::Mended;

pub fn mended(answer: Result<Mended, Refusal>) -> [u64; 10]
    ensures { result ≡ mended_numbers answer }
{
    match answer {
        Ok(mended) => {
            let length = mended.length as u64;
            let skipped = mended.skipped as u64;
            [0, length, skipped, 0, 0, 0, 0, 0, 0, 0]
        }
        Err(refusal) => answer_numbers::refused(1, refusal),
    }
}
