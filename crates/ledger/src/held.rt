// What the ledger holds: at a place, at a number, and whether a ticket is held (R5.1, R7.1).
ghost use Rattle.std.specs.Prelude.{◌≡◌, option_map};
ghost use Rattle.definitions.specs.HeldTickets.{holds};
ghost use Rattle.definitions.specs.LedgerWords.{ticket_at, count_held, next_number, tickets_of};
ghost use Rattle.ledger.specs.Lookups.{first_held, held_at, moment_at};

use crate::search::{lane_of, passed};
use crate::words::{LedgerWords, NumberWord, Place, count_held, first_numbers, next_number};
use definitions::{LAST_NUMBER, Moment, NUMBERS_IN_WORD, Origin, TICKET_LIMIT, TWO_16, Ticket};

// The tickets held: the ledger's words, and how many tickets these hold.
#[derive(Clone, Copy)]
pub(crate) struct HeldTickets<'a> {
    pub(crate) words: &'a LedgerWords,
    pub(crate) count: usize,
    ghost counted: { count ≡ count_held words.now },
}

impl<'a> HeldTickets<'a> {
    // Those of the words.
    pub(crate) fn of(words: &'a LedgerWords) -> HeldTickets<'a>
        ensures { result.words.now ≡ words.now }
    {
        HeldTickets {
            words,
            count: count_held(words),
        }
    }

    // A place, where a ticket is held there.
    #[tactic(auto, unfolding(crate::specs::Lookups::held_at))]
    fn place(self, i: usize) -> Option<Place>
        ensures { option_map (λ place. ticket_at self.entry.words.now place.index) result ≡ held_at self.entry.words.now i }
    {
        if i < self.count {
            Some(Place { index: i })
        } else {
            None
        }
    }

    // The first place whose ticket has a number: by 64 places, by 16, and then word by word, as the last word always is.
    fn place_of(self, number: u16) -> Option<Place>
        ensures { option_map (λ place. ticket_at self.entry.words.now place.index) result ≡ first_held (tickets_of self.entry.words.now) number }
    {
        let last = self.count.saturating_sub(1) / NUMBERS_IN_WORD;
        let numbers = first_numbers(self.words, last);
        let near = passed::<16>(numbers, number);
        let next = near + passed::<4>(&numbers[near..], number);
        for k in next..self.count.div_ceil(NUMBERS_IN_WORD) {
            if let Some(lane) = lane_of(NumberWord { index: k }.read(self.words), number) {
                return self.place(NUMBERS_IN_WORD * k + lane);
            }
        }
        None
    }

    // The ticket at a place.
    pub(crate) fn at(self, i: usize) -> Option<Ticket>
        ensures { result ≡ held_at self.entry.words.now i }
    {
        self.place(i).map(|place| place.ticket(self.words))
    }

    // The first ticket of a number.
    pub(crate) fn first(self, number: u16) -> Option<Ticket>
        ensures { result ≡ first_held (tickets_of self.entry.words.now) number }
    {
        self.place_of(number).map(|place| place.ticket(self.words))
    }

    // The origin of the first ticket of a number, which alone is read.
    pub(crate) fn origin(self, number: u16) -> Option<Origin>
        ensures { result ≡ option_map (λ ticket. ticket.origin) (first_held (tickets_of self.entry.words.now) number) }
    {
        self.place_of(number).map(|place| place.origin(self.words))
    }

    // Whether a ticket is held: what stands at its number is the very same.
    // Form: a match and no `is_some_and`, to which the ticket goes over by memory: a hop then takes some 13 instructions more.
    pub(crate) fn holds(self, ticket: Ticket) -> bool
        ensures { result ≡ holds (tickets_of self.entry.words.now) ticket }
    {
        match self.first(ticket.number) {
            Some(found) => found == ticket,
            None => false,
        }
    }

    // The moment of a decision at a clock reading. Where no number is left, it is that of a full ledger, at which the same is decided.
    #[tactic(auto, unfolding(crate::specs::Lookups::moment_at))]
    pub(crate) fn moment(self, clock: u32) -> Moment
        ensures { result ≡ moment_at clock (count_held self.entry.words.now) (next_number self.entry.words.now) }
    {
        let stored = next_number(self.words);
        let next = (stored % TWO_16) as u16;
        let count = if stored <= LAST_NUMBER {
            self.count
        } else {
            TICKET_LIMIT
        };
        Moment { clock, count, next }
    }
}

// The ticket at a place of those held.
pub fn held_at(words: &LedgerWords, i: usize) -> Option<Ticket>
    ensures { result ≡ held_at words.now i }
{
    HeldTickets::of(words).at(i)
}

// The first ticket of a number.
pub fn first_held(words: &LedgerWords, number: u16) -> Option<Ticket>
    ensures { result ≡ first_held (tickets_of words.now) number }
{
    HeldTickets::of(words).first(number)
}
