// How far the places of the tickets that stay are closed up in a clearing (R7.6).
ghost use Rattle.std.specs.Prelude.{◌≤◌};
ghost use Rattle.definitions.specs.Limits.{ticket_limit};

use crate::words::{LedgerWords, NumberWord, Place, Row, number_in};
use definitions::{NUMBER_BITS, NUMBERS_IN_WORD, PLACE_SIZE, TWO_16, TWO_48};

// How far the places are closed up: how many are kept, and the last four numbers kept, the last of them on top. Those that do not fill a word wait.
// Form: the words are lent to each method and are no field, since what is promised speaks of them before and after, which a field would have lent.
#[derive(Clone, Copy)]
pub(crate) struct Closing {
    pub(crate) kept: usize,
    pub(crate) numbers: u64,
    ghost within: { kept ≤ ticket_limit },
}

// The words of a place set free.
const FREE: Row = [0; PLACE_SIZE];

impl Closing {
    ghost use Rattle.std.specs.Prelude.{◌≡◌, List, ℕ, ◌+◌, ◌-◌, ◌*◌, ◌%◌, ◌<◌, replicate};
    ghost use Rattle.definitions.specs.Limits.{number_bits, numbers_in_word, number_words, numbers_start};
    ghost use Rattle.definitions.specs.Words.{put_lane};
    ghost use Rattle.definitions.specs.LedgerWords.{place_at, put_place};
    ghost use Rattle.definitions.specs.ClearedWords.{free_place, put_places};
    ghost use Rattle.ledger.specs.ClosingUp.{lanes_over, settled, Closed};

    // The places of the first words of numbers kept as they are; no number waits.
    pub(crate) fn whole(k: usize) -> Closing
        requires { k ≤ number_words }
        ensures all { result.kept ≡ numbers_in_word * k }
        ensures none { result.numbers ≡ 0 }
    {
        Closing {
            kept: NUMBERS_IN_WORD * k,
            numbers: 0,
        }
    }

    // Takes in one number more; a word that it fills is put.
    fn push_number(self, words: &mut LedgerWords, number: u16) -> Closing
        requires { self.kept < ticket_limit }
        ensures more { result.kept ≡ self.kept + 1 }
        ensures put { settled words.new result ≡ put_lane number_bits (settled words.old self) numbers_start self.kept number }
    {
        let kept = self.kept + 1;
        let numbers = self.numbers / TWO_16 + TWO_48 * number as u64;
        if kept % NUMBERS_IN_WORD == 0 {
            Place { index: self.kept }.word().swap(words, numbers);
        }
        Closing { kept, numbers }
    }

    // Puts one place more: its four words, and its number.
    fn push(self, words: &mut LedgerWords, number: u16, row: &Row) -> Closing
        requires { self.kept < ticket_limit }
        ensures more { result.kept ≡ self.kept + 1 }
        ensures put { settled words.new result ≡ put_place (settled words.old self) self.kept (record { number = number; row = row.now }) }
    {
        Place { index: self.kept }.put_row(words, row);
        self.push_number(words, number)
    }

    // Goes past a place, whose ticket stays or goes.
    fn pass(self, words: &mut LedgerWords, place: Place, number: u16, clock: u32) -> Closing
        requires { self.kept ≤ place.index }
        ensures within { result.kept ≤ place.index + 1 }
        ensures passed { (w : List ℕ) → number ≡ (place_at w place.index).number → Closed w clock place.index words.old self → Closed w clock (place.index + 1) words.new result }
    {
        if place.stays(words, clock) {
            self.push(words, number, &place.row(words))
        } else {
            self
        }
    }

    // Goes past some places, the first of those whose numbers stand in a word.
    pub(crate) fn pass_word(
        self,
        words: &mut LedgerWords,
        k: NumberWord,
        n: usize,
        clock: u32,
    ) -> Closing
        requires { (self.kept ≤ numbers_in_word * k.index) × (n ≤ numbers_in_word) }
        ensures within { result.kept ≤ numbers_in_word * k.index + n }
        ensures passed { (w : List ℕ) → Closed w clock (numbers_in_word * k.index) words.old self → Closed w clock (numbers_in_word * k.index + n) words.new result }
    {
        let mut closing = self;
        let numbers = k.read(words);
        for lane in 0..n {
            let place = Place {
                index: NUMBERS_IN_WORD * k.index + lane,
            };
            closing = closing.pass(words, place, number_in(numbers, lane), clock);
        }
        closing
    }

    // Sets some places behind those kept free.
    fn free_some(self, words: &mut LedgerWords, n: usize) -> Closing
        requires { self.kept + n ≤ ticket_limit }
        ensures all { result.kept ≡ self.kept + n }
        ensures put { settled words.new result ≡ put_places (settled words.old self) self.kept (replicate n free_place) }
    {
        let mut closing = self;
        for _ in 0..n {
            closing = closing.push(words, 0, &FREE);
        }
        closing
    }

    // Sets the places free whose numbers stand in the words from one on up to another.
    // Form: place by place and no `fill`, by which the clearing of 512 tickets that have all ended took 20,184 instructions, where 4,774 were to be met.
    fn free_words(words: &mut LedgerWords, from: usize, to: usize)
        requires { (from ≤ to) × (to ≤ number_words) }
        ensures { words.new ≡ put_places words.old (numbers_in_word * from) (replicate (numbers_in_word * (to - from)) free_place) }
    {
        for k in from..to {
            Closing::whole(k).free_some(words, NUMBERS_IN_WORD);
        }
    }

    // Sets the places behind those kept free, up to one: one by one those of the word at which the kept end, then by full words, and then those of
    // the last word.
    pub(crate) fn free(self, words: &mut LedgerWords, to: usize) -> Closing
        requires { (self.kept ≤ to) × (to ≤ ticket_limit) }
        ensures all { result.kept ≡ to }
        ensures put { settled words.new result ≡ put_places (settled words.old self) self.kept (replicate (to - self.kept) free_place) }
    {
        let begun = self.kept.div_ceil(NUMBERS_IN_WORD);
        let ended = to / NUMBERS_IN_WORD;
        if ended < begun {
            return self.free_some(words, to - self.kept);
        }
        self.free_some(words, NUMBERS_IN_WORD * begun - self.kept);
        Closing::free_words(words, begun, ended);
        Closing::whole(ended).free_some(words, to % NUMBERS_IN_WORD)
    }

    // A word of numbers, some of its first lanes as the last of those that wait.
    fn lanes_over(self, word: u64, n: usize) -> u64
        requires { (0 < n) × (n < numbers_in_word) }
        ensures { result ≡ lanes_over word self.numbers n }
    {
        let shift = NUMBER_BITS * n;
        ((word >> shift) << shift) + (self.numbers >> (NUMBER_BITS * (NUMBERS_IN_WORD - n)))
    }

    // Puts the numbers that wait.
    #[tactic(auto, unfolding(crate::specs::ClosingUp::settled))]
    pub(crate) fn settle(self, words: &mut LedgerWords)
        ensures { words.new ≡ settled words.old self }
    {
        let n = self.kept % NUMBERS_IN_WORD;
        if n == 0 {
            return;
        }
        let k = Place { index: self.kept }.word();
        let word = self.lanes_over(k.read(words), n);
        k.swap(words, word);
    }
}
