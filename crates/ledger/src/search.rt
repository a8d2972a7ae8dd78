// Numbers looked up in words of four (R7.1): which words have one, many at a time, and in which lane.
ghost use Rattle.std.specs.Prelude.{◌≡◌, true, ◌<◌, ◌≤◌, length};
ghost use Rattle.std.specs.Int.Bits.{bit_xor};
ghost use Rattle.definitions.specs.Limits.{numbers_in_word};
ghost use Rattle.rules.specs.Lanes.{filled_marks};
ghost use Rattle.ledger.specs.Lookups.{NoneIn, FirstLane};

use crate::words::number_in;
use definitions::NUMBERS_IN_WORD;

// The number 1 in all lanes of a word; the top bit of each lane, and all other bits.
const ONES: u64 = 0x0001_0001_0001_0001;

const TOP_BITS: u64 = 0x8000_8000_8000_8000;

const LOW_BITS: u64 = 0x7FFF_7FFF_7FFF_7FFF;

// A word that has the top bit of a lane where that lane of a word of numbers has another number than the one in all lanes.
#[tactic(auto, unfolding(rules::specs::Lanes::filled_marks, rules::specs::Lanes::all_lanes))]
fn other_marks(word: u64, all: u64) -> u64
    ensures { result ≡ filled_marks 15 numbers_in_word (bit_xor word all) }
{
    let apart = word ^ all;
    ((apart & LOW_BITS) + LOW_BITS) | apart
}

// Whether none of some words of numbers has a number. There is no branch, so that many words cost little more than one.
fn none_among(numbers: &[u64], number: u16) -> bool
    ensures { result ≡ true → NoneIn numbers.now number (length numbers.now) }
{
    let all = number as u64 * ONES;
    let mut marks = TOP_BITS;
    for word in numbers {
        marks = marks & other_marks(*word, all);
    }
    marks == TOP_BITS
}

// How many words of numbers do not have a number, by blocks of N words. What no longer fills a block is left. Where there are too few for
// one, that is tested first: a descent over few tickets looks up at each step, and would make a search ready each time.
pub(crate) fn passed<const N: usize>(numbers: &[u64], number: u16) -> usize
    requires { 0 < N }
    ensures bounded { result ≤ length numbers.now }
    ensures passed { NoneIn numbers.now number result }
{
    if numbers.len() < N {
        return 0;
    }
    for (i, block) in numbers.chunks_exact(N).enumerate() {
        if !none_among(block, number) {
            return N * i;
        }
    }
    numbers.len() - numbers.len() % N
}

// The first lane of a word of numbers that has a number.
pub(crate) fn lane_of(word: u64, number: u16) -> Option<usize>
    ensures { FirstLane word number result }
{
    (0..NUMBERS_IN_WORD).find(|k| number_in(word, *k) == number)
}
