// docs/FORMAT.md, §11.14: a fed reader's state and answers as ten numbers. feed_format's specs/Format/Numbers.antt says which.
#![tactic(auto)]

ghost use Rattle.std.specs.Prelude.{◌≡◌};
ghost use Rattle.feed_format.specs.Format.Numbers as numbers;

use feed_format::Feed;
use log_format::{Next, Refusal};

// No From: the two impls would have to stand in feed_format, beside Feed, and `Feed::from(*state)` reads no better.
pub fn state_in(state: &[u64; 10]) -> Feed
    ensures { result ≡ numbers.feed_in state.now }
{
    Feed {
        limit: state[0] as usize,
        place: state[1] as usize,
        came: state[2] as usize,
        over: state[3] as usize,
        opened: state[4] as usize,
        start: state[5] as usize,
        length: state[6] as usize,
        bad: state[7] as usize,
        fragments: state[8] as usize,
        last: state[9] as usize,
    }
}

pub fn state_out(feed: Feed) -> [u64; 10]
    ensures { result ≡ numbers.feed_numbers feed }
{
    [
        feed.limit as u64,
        feed.place as u64,
        feed.came as u64,
        feed.over as u64,
        feed.opened as u64,
        feed.start as u64,
        feed.length as u64,
        feed.bad as u64,
        feed.fragments as u64,
        feed.last as u64,
    ]
}

// A refusal changes none.
pub fn state_begun(began: Result<Feed, Refusal>, state: &mut [u64; 10])
    ensures { state.new ≡ numbers.state_begun state.old began }
{
    if let Ok(feed) = began {
        *state = state_out(feed);
    }
}

pub fn began(answer: Result<Feed, Refusal>) -> [u64; 10]
    ensures { result ≡ numbers.began_numbers answer }
{
    match answer {
        // Written out: of `[0; 10]` the compiler makes an array of its own, and copies it.
        Ok(_) => [0, 0, 0, 0, 0, 0, 0, 0, 0, 0],
        Err(refusal) => answer_numbers::refused(1, refusal),
    }
}

// A count of bytes is told as a mark is.
pub fn took(answer: Result<usize, Refusal>) -> [u64; 10]
    ensures { result ≡ numbers.took_numbers answer }
{
    answer_numbers::appended(answer)
}

// came: how many bytes have come, which is where a clean end goes on from.
pub fn told(came: usize, answer: Result<Option<Next>, Refusal>) -> [u64; 10]
    ensures { result ≡ numbers.told_numbers came answer }
{
    match answer.transpose() {
        Some(next) => answer_numbers::next(came, next),
        None => [4, 0, 0, 0, 0, 0, 0, 0, 0, 0],
    }
}
