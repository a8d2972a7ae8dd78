// The ticket that a request of each kind is given (R5.4 to R5.6, R5.8), under the next number (R5.10).
ghost use Rattle.std.specs.Prelude.{◌≡◌, ◌<◌};
ghost use Rattle.definitions.specs.Limits.{trail_limit};
ghost use Rattle.definitions.specs.Options.{asks_forwardable};
ghost use Rattle.definitions.specs.NewTickets.{direct_mark, s4u2self_forwardable, initial_ticket, direct_ticket, s4u2self_ticket, s4u2proxy_ticket};

use crate::accounts::{Flag, has_flag};
use crate::options::{Bit, flags_of};
use crate::question::Question;
use crate::routes::Hop;
use definitions::{Named, Origin, Presented, Principal, Ticket, Window};
use record::blank_ticket;

// The mark of a ticket of kind 2: the TGT's, or of its client's bar now.
fn direct_mark(tgt: &Presented) -> bool
    ensures { result ≡ direct_mark tgt.now.client tgt.now.ticket }
{
    tgt.ticket.barred || has_flag(tgt.client, Flag::Barred)
}

// Whether a ticket of kind 3 is FORWARDABLE, if it has no mark.
fn s4u2self_forwardable(tgt: &Presented, asked: bool) -> bool
    ensures { result ≡ s4u2self_forwardable tgt.now.client asked tgt.now.ticket }
{
    has_flag(tgt.client, Flag::Trusted)
        || (tgt.client.send == 0 && asked && Bit::Forwardable.is_in(tgt.ticket.flags))
}

impl Question<'_> {
    // The ticket of kind 1, for a user.
    #[tactic(auto, unfolding(definitions::specs::NewTickets::initial_ticket))]
    pub(crate) fn initial_ticket(&self, user: Named, window: Window) -> Ticket
        ensures { result ≡ initial_ticket self.now.moment.next (asks_forwardable self.now.request.now.options) user window }
    {
        let barred = has_flag(user.account, Flag::Barred);
        Ticket {
            number: self.moment.next,
            flags: flags_of(self.asks_forwardable() && !barred, true),
            client: user.number,
            window,
            barred,
            ..blank_ticket()
        }
    }

    // The ticket of kind 2, to the service of a number.
    #[tactic(auto, unfolding(definitions::specs::NewTickets::direct_ticket))]
    pub(crate) fn direct_ticket(&self, tgt: &Presented, number: Principal, window: Window) -> Ticket
        ensures { result ≡ direct_ticket self.now.moment.next (asks_forwardable self.now.request.now.options) tgt.now.ticket tgt.now.client number window }
    {
        let barred = direct_mark(tgt);
        let forwardable = self.asks_forwardable()
            && Bit::Forwardable.is_in(tgt.ticket.flags)
            && !barred;
        Ticket {
            number: self.moment.next,
            flags: flags_of(forwardable, false),
            client: tgt.ticket.client,
            service: number,
            window,
            origin: Origin::Direct(tgt.ticket.number),
            barred,
            ..blank_ticket()
        }
    }

    // The ticket of kind 3, for a user, to Service 1, the TGT's client.
    #[tactic(auto, unfolding(definitions::specs::NewTickets::s4u2self_ticket))]
    pub(crate) fn s4u2self_ticket(&self, tgt: &Presented, user: Named, window: Window) -> Ticket
        ensures { result ≡ s4u2self_ticket self.now.moment.next (asks_forwardable self.now.request.now.options) tgt.now.ticket tgt.now.client user window }
    {
        let barred = has_flag(user.account, Flag::Barred);
        let forwardable = !barred && s4u2self_forwardable(tgt, self.asks_forwardable());
        Ticket {
            number: self.moment.next,
            flags: flags_of(forwardable, false),
            client: user.number,
            service: tgt.ticket.client,
            window,
            origin: Origin::S4U2self(tgt.ticket.number),
            barred,
            ..blank_ticket()
        }
    }
}

impl Hop<'_> {
    // The ticket of kind 4, to Service 2.
    #[tactic(auto, unfolding(definitions::specs::NewTickets::s4u2proxy_ticket))]
    pub(crate) fn ticket(&self, window: Window) -> Ticket
        requires { self.now.evidence.now.ticket.hops < trail_limit }
        ensures { result ≡ s4u2proxy_ticket self.now.question.now.moment.next self.now.tgt.now.ticket self.now.evidence.now.ticket self.now.service2.number window }
    {
        let tgt = &self.tgt.ticket;
        let evidence = &self.evidence.ticket;
        let mut trail = evidence.trail;
        trail[evidence.hops as usize] = tgt.client;
        Ticket {
            number: self.question.moment.next,
            flags: flags_of(Bit::Forwardable.is_in(evidence.flags), false),
            client: evidence.client,
            service: self.service2.number,
            window,
            origin: Origin::Delegated(tgt.number, evidence.number),
            trail,
            hops: evidence.hops + 1,
            barred: evidence.barred,
        }
    }
}
