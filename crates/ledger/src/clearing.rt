// Clearing out ended tickets (R7.6). Where none goes, no place is written. Else the places are closed up in one pass, from the four on whose
// numbers stand in one word with that of the first that goes, up to the four with the last that stays and the places of a last word that is not
// full; the numbers kept last wait until their word is full. The places behind those kept are set free, by fours too.
ghost use Rattle.std.specs.Prelude.{◌≡◌, true, false, ◌+◌, ◌*◌, ◌/◌, ◌<◌, ◌≤◌};
ghost use Rattle.definitions.specs.Limits.{ticket_limit, numbers_in_word};
ghost use Rattle.definitions.specs.LedgerWords.{count_held, tickets_of};
ghost use Rattle.definitions.specs.Clearing.{gone};
ghost use Rattle.definitions.specs.ClearedWords.{clear_tickets};
ghost use Rattle.ledger.specs.ClosingUp.{AllStay, AllGo, IsFirstGone, Closed};

use crate::closing::Closing;
use crate::held::HeldTickets;
use crate::words::{LedgerWords, NumberWord, Place, put_count};
use definitions::NUMBERS_IN_WORD;

// Whether the tickets stay at all places whose numbers stand in a word.
// Form: it and `any_stays` are two, since one tells what holds of all four places, and the other what holds of none.
fn all_stay(words: &LedgerWords, k: NumberWord, clock: u32) -> bool
    ensures { result ≡ true → AllStay words.now clock (numbers_in_word * k.index) → AllStay words.now clock (numbers_in_word * (k.index + 1)) }
{
    let first = NUMBERS_IN_WORD * k.index;
    (first..first + NUMBERS_IN_WORD).all(
        |i|
            requires { i < ticket_limit }
        { Place { index: i }.stays(words, clock) },
    )
}

// How many of the full words of numbers come before the first at one of whose places a ticket goes.
// Form: a loop and no `find` with `unwrap_or`, which is no plainer: what holds of the words passed is the loop's invariant, and needs no proof.
fn words_staying(held: HeldTickets, clock: u32) -> usize
    ensures bounded { result ≤ held.entry.count / numbers_in_word }
    ensures passed { AllStay held.entry.words.now clock (numbers_in_word * result) }
{
    let full = held.count / NUMBERS_IN_WORD;
    for k in 0..full {
        if !all_stay(held.words, NumberWord { index: k }, clock) {
            return k;
        }
    }
    full
}

// The first place held whose ticket goes.
fn first_ended(held: HeldTickets, clock: u32) -> Option<usize>
    ensures { IsFirstGone held.entry.words.now clock held.entry.count result }
{
    let from = NUMBERS_IN_WORD * words_staying(held, clock);
    (from..held.count).find(
        |i|
            requires { i.now < ticket_limit }
        { !Place { index: *i }.stays(held.words, clock) },
    )
}

// Whether a ticket stays at one of the places whose numbers stand in a word.
fn any_stays(words: &LedgerWords, k: NumberWord, clock: u32) -> bool
    ensures { result ≡ false → AllGo words.now clock (numbers_in_word * k.index) (numbers_in_word * (k.index + 1)) }
{
    let first = NUMBERS_IN_WORD * k.index;
    (first..first + NUMBERS_IN_WORD).any(
        |i|
            requires { i < ticket_limit }
        { Place { index: i }.stays(words, clock) },
    )
}

// How many of the full words of numbers there are up to the last at one of whose places a ticket stays.
// Form: a loop and no `find` with `map_or`, which is no plainer: what holds of the words passed is the loop's invariant, and needs no proof.
fn end_of_staying(held: HeldTickets, clock: u32) -> usize
    ensures bounded { result ≤ held.entry.count / numbers_in_word }
    ensures passed { AllGo held.entry.words.now clock (numbers_in_word * result) (numbers_in_word * (held.entry.count / numbers_in_word)) }
{
    for k in (0..held.count / NUMBERS_IN_WORD).rev() {
        if any_stays(held.words, NumberWord { index: k }, clock) {
            return k + 1;
        }
    }
    0
}

// Closes up the places held, where all before one stay: by full words of numbers, and then those of the last word.
fn close_up(words: &mut LedgerWords, first: usize, clock: u32) -> Closing
    requires { (first < count_held words.old) × AllStay words.old clock first }
    ensures within { result.kept ≤ count_held words.old }
    ensures closed { Closed words.old clock (count_held words.old) words.new result }
{
    let held = HeldTickets::of(words);
    let n = held.count;
    let from = first / NUMBERS_IN_WORD;
    let end = end_of_staying(held, clock);
    let mut closing = Closing::whole(from);
    for k in from..end {
        closing = closing.pass_word(words, NumberWord { index: k }, NUMBERS_IN_WORD, clock);
    }
    let rest = n % NUMBERS_IN_WORD;
    if rest == 0 {
        return closing;
    }
    let last = NumberWord {
        index: n / NUMBERS_IN_WORD,
    };
    closing.pass_word(words, last, rest, clock)
}

// Clears out the tickets that have ended at a clock reading, and answers how many (R7.6).
pub(crate) fn clear_tickets(words: &mut LedgerWords, clock: u32) -> usize
    ensures cleared { words.new ≡ clear_tickets words.old clock }
    ensures counted { result ≡ gone clock (tickets_of words.old) }
    ensures bounded { result ≤ ticket_limit }
{
    let held = HeldTickets::of(words);
    let n = held.count;
    let Some(first) = first_ended(held, clock) else {
        put_count(words, n);
        return 0;
    };
    let closing = close_up(words, first, clock);
    closing.free(words, n).settle(words);
    let kept = closing.kept;
    put_count(words, kept);
    n - kept
}
