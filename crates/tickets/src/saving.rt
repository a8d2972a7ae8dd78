// A saved service (R7.8 to R7.10): words as bytes and back, the check sum, and which bytes are loaded.
ghost use Rattle.std.specs.Prelude.{◌≡◌, ◌++◌, ◌+◌, ◌*◌, ◌≤◌, length, take};
ghost use Rattle.definitions.specs.Limits.{word_size, sum_place, saved_size};
ghost use Rattle.definitions.specs.Fields.{number_at};
ghost use Rattle.definitions.specs.Saving.{word_bytes, byte_sum, place_sum, saved_of, words_at, loadable};

use definitions::{
    ACCOUNTS_PLACE, LAYOUT, LAYOUT_PLACE, LEDGER_PLACE, MAGIC, SAVED_SIZE, SUM_PLACE, WORD_SIZE,
};
use ledger::LedgerWords;
use rules::AccountWords;

// As many bytes as a service takes.
pub(crate) type Saved = [u8; SAVED_SIZE];

// Puts words behind what stands before a position, each big-endian.
#[tactic(auto, using(crate::proofs::SavedBytes::word_put), unfolding(definitions::specs::Saving::word_bytes))]
fn put_words(saved: &mut Saved, at: usize, words: &[u64])
    requires { at + word_size * length words.now ≤ saved_size }
    ensures { take (at + word_size * length words.now) saved.new ≡ take at saved.old ++ word_bytes words.now }
{
    for (i, word) in words.iter().enumerate() {
        let place = at + WORD_SIZE * i;
        saved[place..place + WORD_SIZE].copy_from_slice(&word.to_be_bytes());
    }
}

// The word at a position.
#[tactic(auto, using(crate::proofs::SavedBytes::word_read))]
fn word_at(saved: &Saved, at: usize) -> u64
    requires { at + word_size ≤ saved_size }
    ensures { result ≡ number_at saved.now at word_size }
{
    u64::from_be_bytes(*saved[at..].first_chunk().unwrap())
}

// Loads all words from a position on.
#[tactic(auto, using(crate::proofs::SavedBytes::load_next), unfolding(definitions::specs::Saving::words_at))]
pub(crate) fn load_words(words: &mut [u64], saved: &Saved, at: usize)
    requires { at + word_size * length words.old ≤ saved_size }
    ensures { words.new ≡ words_at saved.now at (length words.old) }
{
    for (i, word) in words.iter_mut().enumerate() {
        *word = word_at(saved, at + WORD_SIZE * i);
    }
}

// The two halves of a check sum.
#[derive(Clone, Copy, PartialEq, Eq)]
struct Sums {
    first: u64,
    second: u64,
}

impl Sums {
    // The check sum of the bytes before its place.
    #[tactic(auto, using(crate::proofs::SavedBytes::sum_none, crate::proofs::SavedBytes::sum_next, crate::proofs::SavedBytes::place_times))]
    fn of(saved: &Saved) -> Self
        ensures first { result.first ≡ byte_sum saved.now sum_place }
        ensures second { result.second ≡ place_sum saved.now sum_place }
    {
        let mut first = 0;
        let mut second = 0;
        for (i, byte) in saved[..SUM_PLACE].iter().enumerate() {
            let byte = u64::from(*byte);
            first += byte;
            second += (i as u64 + 1) * byte;
        }
        Sums { first, second }
    }

    // The check sum that stands at its place.
    fn read(saved: &Saved) -> Self
        ensures first { result.first ≡ number_at saved.now sum_place word_size }
        ensures second { result.second ≡ number_at saved.now (sum_place + word_size) word_size }
    {
        Sums {
            first: word_at(saved, SUM_PLACE),
            second: word_at(saved, SUM_PLACE + WORD_SIZE),
        }
    }
}

// Puts a service: all that the check sum is of, and behind it the check sum.
pub(crate) fn put_service(saved: &mut Saved, accounts: &AccountWords, ledger: &LedgerWords)
    ensures { saved.new ≡ saved_of (record { accounts = accounts.now; ledger = ledger.now }) }
{
    put_words(saved, 0, &[MAGIC, LAYOUT]);
    put_words(saved, ACCOUNTS_PLACE, accounts);
    put_words(saved, LEDGER_PLACE, ledger);
    let sums = Sums::of(saved);
    put_words(saved, SUM_PLACE, &[sums.first, sums.second]);
}

// Whether the bytes are those of a service.
#[tactic(auto, unfolding(definitions::specs::Saving::loadable))]
pub(crate) fn is_loadable(saved: &Saved) -> bool
    ensures { result ≡ loadable saved.now }
{
    word_at(saved, 0) == MAGIC
        && word_at(saved, LAYOUT_PLACE) == LAYOUT
        && Sums::read(saved) == Sums::of(saved)
}
