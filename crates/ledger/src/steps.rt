// The descent call: the steps from a ticket to its initial one (R7.4, R9.1).
ghost use Rattle.std.specs.Prelude.{◌≡◌, ◌≤◌, IfSome};
ghost use Rattle.definitions.specs.LedgerWords.{tickets_of};
ghost use Rattle.definitions.specs.Descent.{back_of, descent, descended};
ghost use Rattle.ledger.specs.Lookups.{given};

use crate::held::HeldTickets;
use crate::words::LedgerWords;
use definitions::{Error, Origin};

// The number that one step back leads to: the evidence's of a delegated ticket, the TGT's of a direct or a self ticket.
fn back_of(origin: Origin) -> Option<u16>
    ensures { result ≡ given (back_of origin) }
{
    match origin {
        Origin::Initial => None,
        Origin::Direct(tgt) => Some(tgt),
        Origin::S4U2self(tgt) => Some(tgt),
        Origin::Delegated(_, evidence) => Some(evidence),
    }
}

// The steps from a ticket to the initial one, if the way leads there. Each step's number is smaller, so that the recursion ends.
fn steps_from(held: HeldTickets, number: u16) -> Option<u32>
    ensures exact { result ≡ given (descent (tickets_of held.entry.words.now) number) }
    ensures bounded { IfSome result (λ steps. steps ≤ number) }
{
    let origin = held.origin(number)?;
    let Some(next) = back_of(origin) else {
        return Some(0);
    };
    if next < number {
        Some(steps_from(held, next)? + 1)
    } else {
        None
    }
}

// The descent call: the steps from the ticket of a number to its initial ticket, or 41.
pub fn descent(words: &LedgerWords, number: u32) -> Result<u32, Error>
    ensures { result ≡ descended (descent (tickets_of words.now) number) }
{
    let number = u16::try_from(number).or(Err(Error::KRB_AP_ERR_MODIFIED))?;
    steps_from(HeldTickets::of(words), number).ok_or(Error::KRB_AP_ERR_MODIFIED)
}
