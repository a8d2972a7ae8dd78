// The ledger's words: a header with the count and the next number; the tickets' numbers, four a word; and four words for each place: flags,
// client, service, hops, the origin's tag and the barred mark; start and end; the back numbers; the trail, its first byte lowest (R7.1). Where
// these stand is seen here and nowhere else.
ghost use Rattle.std.specs.Prelude.{◌≡◌, ℕ, ◌+◌, ◌<◌, ◌≤◌, ◌/◌, ◌%◌, get_or, length, set};
ghost use Rattle.definitions.specs.Limits.{ticket_limit, number_bits, count_word, next_word, numbers_in_word, number_words, numbers_start, two56, two4, two32, two16, two48};
ghost use Rattle.definitions.specs.Words.{lane_of, set_lane, put_lane, put_row};
ghost use Rattle.definitions.specs.Clearing.{stays};
ghost use Rattle.definitions.specs.LedgerWords.{place_start, place_at, origin_in, window_in, ticket_on, ticket_at, count_held, next_number, no_ticket_words};

use definitions::{
    BACK_WORD, COUNT_WORD, LEDGER_SIZE, NEXT_WORD, NUMBER_BITS, NUMBERS_IN_WORD, NUMBERS_START,
    Origin, PLACE_SIZE, PLACES_START, TICKET_LIMIT, TRAIL_WORD, TWO_4, TWO_8, TWO_16, TWO_32,
    TWO_40, TWO_48, TWO_56, TWO_60, Ticket, WINDOW_WORD, Window,
};

// The words of the header, of all numbers and of all places.
// Form: an array of words and no Vec or map, since the caller lends fixed memory; the numbers stand beside the places, since a look-up scans them alone.
pub type LedgerWords = [u64; LEDGER_SIZE];

// The four words of a place.
pub(crate) type Row = [u64; PLACE_SIZE];

// How many tickets are held: the stored count, at most all places.
pub fn count_held(words: &LedgerWords) -> usize
    ensures exact { result ≡ count_held words.now }
    ensures bounded { result ≤ ticket_limit }
{
    words[COUNT_WORD].min(TICKET_LIMIT as u64) as usize
}

// The next number, as it is stored.
pub(crate) fn next_number(words: &LedgerWords) -> u64
    ensures { result ≡ next_number words.now }
{
    words[NEXT_WORD]
}

// Puts the count.
// Form: it and the next are two functions, so that each word has its name and no offset is seen.
pub(crate) fn put_count(words: &mut LedgerWords, n: usize)
    ensures { words.new ≡ set words.old count_word n }
{
    words[COUNT_WORD] = n as u64;
}

// Puts the next number.
pub(crate) fn put_next(words: &mut LedgerWords, next: u64)
    ensures { words.new ≡ set words.old next_word next }
{
    words[NEXT_WORD] = next;
}

// A ledger without tickets (R7.2).
pub(crate) fn fresh_ledger(words: &mut LedgerWords)
    ensures { words.new ≡ no_ticket_words }
{
    *words = [0u64; LEDGER_SIZE];
}

// The first words of the numbers, as many as are asked for.
pub(crate) fn first_numbers(words: &LedgerWords, n: usize) -> &[u64]
    requires { n ≤ number_words }
    ensures all { length result.now ≡ n }
    ensures each { (k : ℕ) → k < n → get_or result.now k 0 ≡ get_or words.now (numbers_start + k) 0 }
{
    &words[NUMBERS_START..NUMBERS_START + n]
}

// One of the words of the numbers, each of which has those of four places.
#[derive(Clone, Copy)]
pub(crate) struct NumberWord {
    pub(crate) index: usize,
    ghost there: { index < number_words },
}

impl NumberWord {
    // The four numbers, as they stand.
    pub(crate) fn read(self, words: &LedgerWords) -> u64
        ensures { result ≡ get_or words.now (numbers_start + self.index) 0 }
    {
        words[NUMBERS_START + self.index]
    }

    // Puts it, and answers the one that was there, so that a proof knows that it fits a word.
    pub(crate) fn swap(self, words: &mut LedgerWords, word: u64) -> u64
        ensures answered { result ≡ get_or words.old (numbers_start + self.index) 0 }
        ensures put { words.new ≡ set words.old (numbers_start + self.index) word }
    {
        let old = words[NUMBERS_START + self.index];
        words[NUMBERS_START + self.index] = word;
        old
    }
}

// The number in a lane of a word of numbers.
#[tactic(auto, unfolding(definitions::specs::Words::lane_of))]
pub(crate) fn number_in(word: u64, k: usize) -> u16
    requires { k < numbers_in_word }
    ensures { result ≡ lane_of number_bits word k }
{
    ((word >> (NUMBER_BITS * k)) % TWO_16) as u16
}

// A word of numbers with another number in one of its lanes.
fn with_number(word: u64, k: usize, number: u16) -> u64
    requires { k < numbers_in_word }
    ensures { result ≡ set_lane number_bits word k number }
{
    let shift = NUMBER_BITS * k;
    let old = (word >> shift) % TWO_16;
    word - (old << shift) + ((number as u64) << shift)
}

// The origin of a tag and two back numbers.
// Form: a match over a number and no TryFrom, since the tag is a matter of the ledger's words, and every word is some origin's.
#[tactic(auto, unfolding(definitions::specs::LedgerWords::origin_in))]
fn origin_in(tag: u64, tgt: u16, evidence: u16) -> Origin
    ensures { result ≡ origin_in tag tgt evidence }
{
    match tag {
        0 => Origin::Initial,
        1 => Origin::Direct(tgt),
        2 => Origin::S4U2self(tgt),
        _ => Origin::Delegated(tgt, evidence),
    }
}

// The origin of a place's first and third word.
fn origin_of(first: u64, third: u64) -> Origin
    ensures { result ≡ origin_in (first / two56 % two4) (third / two32 % two16) (third / two48 % two16) }
{
    let tgt = (third / TWO_32 % TWO_16) as u16;
    let evidence = (third / TWO_48 % TWO_16) as u16;
    origin_in(first / TWO_56 % TWO_4, tgt, evidence)
}

// The window of a place's second word.
fn window_in(second: u64) -> Window
    ensures { result ≡ window_in second }
{
    Window {
        start: (second % TWO_32) as u32,
        end: (second / TWO_32 % TWO_32) as u32,
    }
}

// The ticket of a number and a place's four words; any words are some ticket.
#[tactic(auto, unfolding(definitions::specs::LedgerWords::ticket_in, definitions::specs::Words::lanes_of))]
fn ticket_in(number: u16, row: Row) -> Ticket
    ensures { result ≡ ticket_on (record { number = number; row = row }) }
{
    let first = row[0];
    Ticket {
        number,
        flags: (first % TWO_32) as u32,
        client: (first / TWO_32 % TWO_8) as u8,
        service: (first / TWO_40 % TWO_8) as u8,
        window: window_in(row[WINDOW_WORD]),
        origin: origin_of(first, row[BACK_WORD]),
        trail: row[TRAIL_WORD].to_le_bytes(),
        hops: (first / TWO_48 % TWO_8) as u8,
        barred: first / TWO_60 % TWO_4 == 1,
    }
}

// One of the places that the words have, whether or not a ticket is held there.
#[derive(Clone, Copy)]
pub(crate) struct Place {
    pub(crate) index: usize,
    ghost there: { index < ticket_limit },
}

impl Place {
    // The word that has its number.
    pub(crate) fn word(self) -> NumberWord
        ensures { result.index ≡ self.index / numbers_in_word }
    {
        NumberWord {
            index: self.index / NUMBERS_IN_WORD,
        }
    }

    // The number of its ticket.
    #[tactic(auto, unfolding(definitions::specs::LedgerWords::ticket_at, definitions::specs::LedgerWords::ticket_in, definitions::specs::Words::lane_at))]
    fn number(self, words: &LedgerWords) -> u16
        ensures { result ≡ (ticket_at words.now self.index).number }
    {
        number_in(self.word().read(words), self.index % NUMBERS_IN_WORD)
    }

    // Its four words.
    pub(crate) fn row(self, words: &LedgerWords) -> Row
        ensures { result ≡ (place_at words.now self.index).row }
    {
        let start = PLACES_START + PLACE_SIZE * self.index;
        [
            words[start],
            words[start + WINDOW_WORD],
            words[start + BACK_WORD],
            words[start + TRAIL_WORD],
        ]
    }

    // The window of its ticket.
    #[tactic(auto, unfolding(definitions::specs::LedgerWords::ticket_at, definitions::specs::LedgerWords::ticket_in))]
    pub(crate) fn window(self, words: &LedgerWords) -> Window
        ensures { result ≡ (ticket_at words.now self.index).window }
    {
        window_in(self.row(words)[WINDOW_WORD])
    }

    // Whether its ticket stays at a clock reading (R7.6). A window's word has the end on top, so it is compared with the last that has ended.
    // Form: the word and no `ended`, by which the clearing of 512 tickets of which half have ended takes 8,097 instructions, where 7,553 were to be met.
    #[tactic(auto, unfolding(definitions::specs::LedgerWords::ticket_at, definitions::specs::LedgerWords::ticket_in))]
    pub(crate) fn stays(self, words: &LedgerWords, clock: u32) -> bool
        ensures { result ≡ stays clock (ticket_at words.now self.index) }
    {
        self.row(words)[WINDOW_WORD] > TWO_32 * clock as u64 + (TWO_32 - 1)
    }

    // The origin of its ticket.
    #[tactic(auto, unfolding(definitions::specs::LedgerWords::ticket_at, definitions::specs::LedgerWords::ticket_in))]
    pub(crate) fn origin(self, words: &LedgerWords) -> Origin
        ensures { result ≡ (ticket_at words.now self.index).origin }
    {
        let row = self.row(words);
        origin_of(row[0], row[BACK_WORD])
    }

    // Its ticket.
    #[tactic(auto, unfolding(definitions::specs::LedgerWords::ticket_at, definitions::specs::LedgerWords::ticket_in))]
    pub(crate) fn ticket(self, words: &LedgerWords) -> Ticket
        ensures { result ≡ ticket_at words.now self.index }
    {
        ticket_in(self.number(words), self.row(words))
    }

    // Puts its number.
    #[tactic(auto, unfolding(definitions::specs::Words::put_lane))]
    pub(crate) fn put_number(self, words: &mut LedgerWords, number: u16)
        ensures { words.new ≡ put_lane number_bits words.old numbers_start self.index number }
    {
        let k = self.word();
        let word = k.read(words);
        k.swap(
            words,
            with_number(word, self.index % NUMBERS_IN_WORD, number),
        );
    }

    // Puts its four words.
    // Form: one by one and no `copy_from_slice`, by which the clearing of 512 tickets of which half have ended takes 11,957 instructions, where 7,553 were to be met.
    pub(crate) fn put_row(self, words: &mut LedgerWords, row: &Row)
        ensures { words.new ≡ put_row words.old (place_start self.index) row.now }
    {
        let start = PLACES_START + PLACE_SIZE * self.index;
        words[start] = row[0];
        words[start + WINDOW_WORD] = row[WINDOW_WORD];
        words[start + BACK_WORD] = row[BACK_WORD];
        words[start + TRAIL_WORD] = row[TRAIL_WORD];
    }
}
