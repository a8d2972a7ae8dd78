// A ticket put behind those held (R7.3).
ghost use Rattle.std.specs.Prelude.{◌≡◌, ◌+◌, ◌*◌, ◌<◌};
ghost use Rattle.definitions.specs.Limits.{ticket_limit};
ghost use Rattle.definitions.specs.LedgerWords.{count_held, next_number, tag_of, ticket_words, store_ticket};

use crate::words::{LedgerWords, Place, Row, put_count, put_next};
use definitions::{Origin, TWO_32, TWO_40, TWO_48, TWO_56, TWO_60, Ticket};
use rules::{evidence_of, tgt_of, trail_word};

// The tag of an origin.
// Form: a match and no From, since the tag is a matter of the ledger's words, and neither type is this crate's.
fn tag_of(o: Origin) -> u64
    ensures exact { result ≡ tag_of o }
    ensures bounded { result < 4 }
{
    match o {
        Origin::Initial => 0,
        Origin::Direct(_) => 1,
        Origin::S4U2self(_) => 2,
        Origin::Delegated(_, _) => 3,
    }
}

// The four words of a ticket: flags, client, service, hops, tag and mark; the window; the back numbers; the trail.
fn row_of(t: Ticket) -> Row
    ensures { result ≡ ticket_words t }
{
    let fields = t.flags as u64
        + TWO_32 * t.client as u64
        + TWO_40 * t.service as u64
        + TWO_48 * t.hops as u64;
    [
        fields + TWO_56 * tag_of(t.origin) + TWO_60 * u64::from(t.barred),
        t.window.start as u64 + TWO_32 * t.window.end as u64,
        TWO_32 * tgt_of(t.origin) as u64 + TWO_48 * evidence_of(t.origin) as u64,
        trail_word(t.trail),
    ]
}

// Stores a ticket, which has the next number, behind those held, of which there are n.
#[tactic(auto, unfolding(definitions::specs::LedgerWords::store_ticket))]
pub(crate) fn store_ticket(words: &mut LedgerWords, n: usize, t: Ticket)
    requires { (n ≡ count_held words.old) × (n < ticket_limit) × (t.number ≡ next_number words.old) }
    ensures { words.new ≡ store_ticket words.old t }
{
    let place = Place { index: n };
    place.put_number(words, t.number);
    place.put_row(words, &row_of(t));
    put_count(words, n + 1);
    put_next(words, t.number as u64 + 1);
}
