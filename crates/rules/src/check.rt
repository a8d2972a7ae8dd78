// The checks of a request, in the order of R6.2; each function answers the first that fails.
ghost use Rattle.std.specs.Prelude.{◌≡◌, [], ◌∷◌, not, ◌&&◌, ◌==◌, ◌<◌, IfOk};
ghost use Rattle.definitions.specs.Limits.{trail_limit};
ghost use Rattle.definitions.specs.Checks.{check, judge};
ghost use Rattle.definitions.specs.Decisions.{is_initial, room_check, window_checks, tgt_checks, evidence_checks, service_check, s4u2self_check, user_checks, hop_checks, last_checks};

use crate::accounts::{Flag, has_flag, is_enabled};
use definitions::{
    Account, Error, LONGEST_RECORD, Moment, Origin, Presented, Principal, TICKET_LIMIT,
    TRAIL_LIMIT, Ticket, Window,
};

// Nothing where a check holds, else its refusal.
pub(crate) fn ensure(holds: bool, error: Error) -> Result<(), Error>
    ensures { result ≡ judge (check holds error ∷ []) }
{
    if holds { Ok(()) } else { Err(error) }
}

// The check of the output's length: 52. The 60 before it is the request reader's.
pub fn check_room(room: usize) -> Result<(), Error>
    ensures { result ≡ judge (room_check room ∷ []) }
{
    ensure(LONGEST_RECORD <= room, Error::KRB_ERR_RESPONSE_TOO_BIG)
}

// Whether a ticket is initial, by its origin.
fn is_initial(origin: Origin) -> bool
    ensures { result ≡ is_initial origin }
{
    matches!(origin, Origin::Initial)
}

// The checks of a presented ticket's window: 33, 32.
fn check_window(window: Window, clock: u32) -> Result<(), Error>
    ensures { result ≡ judge (window_checks clock window) }
{
    ensure(!window.not_yet(clock), Error::KRB_AP_ERR_TKT_NYV)?;
    ensure(!window.ended(clock), Error::KRB_AP_ERR_TKT_EXPIRED)
}

// The checks of the TGT: 41; 35; 33 and 32; 18.
#[tactic(auto, unfolding(definitions::specs::Decisions::tgt_checks))]
pub(crate) fn check_tgt(clock: u32, tgt: &Presented) -> Result<(), Error>
    ensures { result ≡ judge (tgt_checks clock tgt.now) }
{
    ensure(tgt.held, Error::KRB_AP_ERR_MODIFIED)?;
    ensure(is_initial(tgt.ticket.origin), Error::KRB_AP_ERR_NOT_US)?;
    check_window(tgt.ticket.window, clock)?;
    ensure(is_enabled(tgt.client), Error::KDC_ERR_CLIENT_REVOKED)
}

// Whether a ticket was issued to the service of a number; a TGT is no service's.
fn is_issued_to(ticket: &Ticket, number: Principal) -> bool
    ensures { result ≡ (not (is_initial ticket.now.origin) && ticket.now.service == number) }
{
    !is_initial(ticket.origin) && ticket.service == number
}

// The checks of the evidence: 41; 33 and 32; 26; 18. Service 1 has this number.
#[tactic(auto, unfolding(definitions::specs::Decisions::evidence_checks))]
pub(crate) fn check_evidence(
    clock: u32,
    evidence: &Presented,
    number1: Principal,
) -> Result<(), Error>
    ensures { result ≡ judge (evidence_checks clock evidence.now number1) }
{
    ensure(evidence.held, Error::KRB_AP_ERR_MODIFIED)?;
    check_window(evidence.ticket.window, clock)?;
    ensure(
        is_issued_to(&evidence.ticket, number1),
        Error::KDC_ERR_SERVER_NOMATCH,
    )?;
    ensure(is_enabled(evidence.client), Error::KDC_ERR_CLIENT_REVOKED)
}

// The checks of a user: 6, 18.
#[tactic(auto, unfolding(definitions::specs::Decisions::user_checks))]
pub(crate) fn check_user(user: Account) -> Result<(), Error>
    ensures { result ≡ judge (user_checks user) }
{
    ensure(user.known, Error::KDC_ERR_C_PRINCIPAL_UNKNOWN)?;
    ensure(is_enabled(user), Error::KDC_ERR_CLIENT_REVOKED)
}

// The check of a named service: 7.
pub(crate) fn check_service(service: Account) -> Result<(), Error>
    ensures { result ≡ judge (service_check service ∷ []) }
{
    ensure(
        is_enabled(service) && has_flag(service, Flag::Service),
        Error::KDC_ERR_S_PRINCIPAL_UNKNOWN,
    )
}

// The check of Service 1 in kind 3: 7.
pub(crate) fn check_self(service1: Account) -> Result<(), Error>
    ensures { result ≡ judge (s4u2self_check service1 ∷ []) }
{
    ensure(
        has_flag(service1, Flag::Service),
        Error::KDC_ERR_S_PRINCIPAL_UNKNOWN,
    )
}

// The checks of a hop: 13, 61.
#[tactic(auto, unfolding(definitions::specs::Decisions::hop_checks))]
pub(crate) fn check_hop(permitted: bool, evidence: &Ticket) -> Result<(), Error>
    ensures judged { result ≡ judge (hop_checks permitted evidence.now) }
    ensures few { IfOk result (λ held. evidence.now.hops < trail_limit) }
{
    ensure(permitted, Error::KDC_ERR_BADOPTION)?;
    ensure(
        (evidence.hops as usize) < TRAIL_LIMIT,
        Error::KRB_ERR_FIELD_TOOLONG,
    )
}

// The last checks: 11, 29. A moment has a next number of 16 bits, so that one is left; where none is, it comes with all places taken.
#[tactic(auto, unfolding(definitions::specs::Decisions::last_checks))]
pub(crate) fn check_last(moment: Moment, window: Window) -> Result<(), Error>
    ensures { result ≡ judge (last_checks moment window) }
{
    ensure(moment.clock < window.end, Error::KDC_ERR_NEVER_VALID)?;
    ensure(moment.count < TICKET_LIMIT, Error::KDC_ERR_SVC_UNAVAILABLE)
}
