// docs/FORMAT.md, §10.1: answers as ten numbers. log_format's specs/Format/Numbers.antt says which. Places are cast, since there is no
// From between usize and u64; and the kinds are numbers, as C has them. No From makes the ten of an answer: neither std's Result nor an
// array is ours.
#![tactic(auto)]

ghost use Rattle.std.specs.Prelude.{◌≡◌, Ok};
ghost use Rattle.log_format.specs.Format.Numbers as numbers;

use log_format::{Next, Record, Refusal, Stored, Tail};

pub fn appended(answer: Result<usize, Refusal>) -> [u64; 10]
    ensures { result ≡ numbers.appended_numbers answer }
{
    match answer {
        Ok(mark) => [0, mark as u64, 0, 0, 0, 0, 0, 0, 0, 0],
        Err(refusal) => refused(1, refusal),
    }
}

// length: the log's, which is where a clean end goes on from.
pub fn next(length: usize, answer: Result<Next, Refusal>) -> [u64; 10]
    ensures { result ≡ numbers.next_numbers length answer }
{
    match answer {
        Ok(Next::Record(record)) => handed(record),
        Ok(Next::Skip(skip)) => {
            let start = skip.start as u64;
            let end = skip.end as u64;
            [1, start, end, u64::from(skip.reason), 0, 0, end, 0, 0, 0]
        }
        Ok(Next::End(Tail::Clean)) => [2, 0, 0, 0, 0, 0, length as u64, 0, 0, 0],
        Ok(Next::End(Tail::Torn(start))) => [2, 1, start as u64, 0, 0, 0, start as u64, 0, 0, 0],
        Err(refusal) => refused(3, refusal),
    }
}

// They are the same whatever the log's length, which is 0 here.
fn handed(record: Record) -> [u64; 10]
    ensures { result ≡ numbers.next_numbers 0 (Ok (Next.Record «record»)) }
{
    let start = record.start as u64;
    let end = record.end as u64;
    let length = record.length as u64;
    let fragments = record.fragments as u64;
    let last = record.last as u64;
    let (kind, at) = match record.stored {
        Stored::Whole(place) => (0, place as u64),
        Stored::Gathered => (1, 0),
    };
    [0, start, end, length, kind, at, end, fragments, last, 0]
}

// kind: that of a refusal among the call's answers.
pub fn refused(kind: u64, refusal: Refusal) -> [u64; 10]
    ensures { result ≡ numbers.refused_numbers kind refusal }
{
    let number = u64::from(refusal.number);
    let given = refusal.given as u64;
    [kind, number, given, 0, 0, 0, 0, 0, 0, 0]
}
