// The calls of a reader fed in pieces: docs/FORMAT.md, §11.14. A state may hold any words, so none has a requires.
ghost use Rattle.std.specs.Prelude.{◌≡◌};
ghost use Rattle.log_format.specs.Format.Fragment.{first_edition};
ghost use Rattle.log_format.specs.Format.Numbers.{kind_in};
ghost use Rattle.feed_format.specs.Format.Calls.{begin_of, take_of, end_of, draw_of};
ghost use Rattle.feed_format.specs.Format.Numbers.{began_numbers, feed_in, feed_numbers, state_begun, told_numbers, took_numbers};

use feed_numbers::{state_in, state_out};
use log_layout::Block;

#[unsafe(no_mangle)]
pub extern "C" fn mellansko_feed_begin(
    limit: usize,
    state: &mut [u64; 10],
    answer: &mut [u64; 10],
) -> u64
    ensures value { result ≡ kind_in (began_numbers (begin_of limit)) }
    ensures answer_after { answer.new ≡ began_numbers (begin_of limit) }
    ensures state_after { state.new ≡ state_begun state.old (begin_of limit) }
{
    let began = feed_state::begin(limit);
    feed_numbers::state_begun(began, state);
    let numbers = feed_numbers::began(began);
    *answer = numbers;
    numbers[0]
}

#[unsafe(no_mangle)]
pub extern "C" fn mellansko_feed_take(
    state: &mut [u64; 10],
    block: &mut [u8; Block::SIZE],
    piece: &[u8],
    answer: &mut [u64; 10],
) -> u64
    ensures value { result ≡ kind_in (took_numbers (take_of first_edition (feed_in state.old) block.old piece.now).took) }
    ensures answer_after { answer.new ≡ took_numbers (take_of first_edition (feed_in state.old) block.old piece.now).took }
    ensures state_after { state.new ≡ feed_numbers (take_of first_edition (feed_in state.old) block.old piece.now).feed }
    ensures block_after { block.new ≡ (take_of first_edition (feed_in state.old) block.old piece.now).lent }
{
    let taken = feed_take::take(state_in(state), block, piece);
    *state = state_out(taken.feed);
    let numbers = feed_numbers::took(taken.took);
    *answer = numbers;
    numbers[0]
}

#[unsafe(no_mangle)]
pub extern "C" fn mellansko_feed_end(state: &mut [u64; 10])
    ensures { state.new ≡ feed_numbers (end_of first_edition (feed_in state.old)) }
{
    *state = state_out(feed_state::end(state_in(state)));
}

#[unsafe(no_mangle)]
pub extern "C" fn mellansko_feed_next(
    state: &mut [u64; 10],
    block: &[u8; Block::SIZE],
    buffer: &mut [u8],
    answer: &mut [u64; 10],
) -> u64
    ensures value { result ≡ kind_in (told_numbers (feed_in state.old).came (draw_of first_edition (feed_in state.old) block.now buffer.old).told) }
    ensures answer_after { answer.new ≡ told_numbers (feed_in state.old).came (draw_of first_edition (feed_in state.old) block.now buffer.old).told }
    ensures state_after { state.new ≡ feed_numbers (draw_of first_edition (feed_in state.old) block.now buffer.old).feed }
    ensures buffer_after { buffer.new ≡ (draw_of first_edition (feed_in state.old) block.now buffer.old).buffer }
{
    let feed = state_in(state);
    let drawn = feed_next::next(feed, block, buffer);
    *state = state_out(drawn.feed);
    let numbers = feed_numbers::told(feed.came, drawn.told);
    *answer = numbers;
    numbers[0]
}
