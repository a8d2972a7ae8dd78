// The four decisions: which ticket a request is given, or which number refuses it (R5.4 to R5.8, R6.2). Each goes check by check: the tickets that
// are presented, then the name, then the rest.
ghost use Rattle.std.specs.Prelude.{◌≡◌, false};
ghost use Rattle.definitions.specs.AccountWords.{table_of};
ghost use Rattle.definitions.specs.Decisions.{decide_kind};
ghost use Rattle.definitions.specs.declared.request.Kind.TheVariants.{Initial, Direct, S4U2self, S4U2proxy};

use crate::check::{
    check_evidence, check_hop, check_last, check_self, check_service, check_tgt, check_user,
};
use crate::question::Question;
use crate::routes::Hop;
use definitions::{Error, Ticket};

impl Question<'_> {
    // Kind 1, for the user.
    #[tactic(auto, using(crate::proofs::Stages::initial_staged))]
    pub fn decide_initial(&self) -> Result<Ticket, Error>
        ensures { result ≡ decide_kind Initial (table_of self.now.accounts.now) self.now.bytes.now self.now.request.now false false self.now.moment }
    {
        let user = self.user();
        check_user(user.account)?;
        let window = self.initial_window(user.account);
        check_last(self.moment, window)?;
        Ok(self.initial_ticket(user, window))
    }

    // Kind 2, to the service.
    #[tactic(auto, using(crate::proofs::Stages::direct_staged))]
    pub fn decide_direct(&self, tgt_held: bool) -> Result<Ticket, Error>
        ensures { result ≡ decide_kind Direct (table_of self.now.accounts.now) self.now.bytes.now self.now.request.now tgt_held false self.now.moment }
    {
        let tgt = self.tgt(tgt_held);
        check_tgt(self.moment.clock, &tgt)?;
        let service = self.service();
        check_service(service.account)?;
        let window = self.window_of(service.account, &tgt);
        check_last(self.moment, window)?;
        Ok(self.direct_ticket(&tgt, service.number, window))
    }

    // Kind 3, for the user, to the TGT's client, Service 1.
    // Form: not one function with `decide_direct`, though both go by the TGT alone: each looks up, checks and gives what the other doesn't, and what both do are functions already.
    #[tactic(auto, using(crate::proofs::Stages::s4u2self_staged))]
    pub fn decide_s4u2self(&self, tgt_held: bool) -> Result<Ticket, Error>
        ensures { result ≡ decide_kind S4U2self (table_of self.now.accounts.now) self.now.bytes.now self.now.request.now tgt_held false self.now.moment }
    {
        let tgt = self.tgt(tgt_held);
        check_tgt(self.moment.clock, &tgt)?;
        check_self(tgt.client)?;
        let user = self.user();
        check_user(user.account)?;
        let window = self.window_of(tgt.client, &tgt);
        check_last(self.moment, window)?;
        Ok(self.s4u2self_ticket(&tgt, user, window))
    }

    // Kind 4, to the service, Service 2.
    #[tactic(auto, using(crate::proofs::Stages::s4u2proxy_staged))]
    pub fn decide_s4u2proxy(&self, tgt_held: bool, evidence_held: bool) -> Result<Ticket, Error>
        ensures { result ≡ decide_kind S4U2proxy (table_of self.now.accounts.now) self.now.bytes.now self.now.request.now tgt_held evidence_held self.now.moment }
    {
        let tgt = self.tgt(tgt_held);
        check_tgt(self.moment.clock, &tgt)?;
        let evidence = self.evidence(evidence_held);
        check_evidence(self.moment.clock, &evidence, tgt.ticket.client)?;
        let service2 = self.service();
        let hop = Hop {
            question: self,
            tgt: &tgt,
            evidence: &evidence,
            service2,
        };
        check_service(service2.account)?;
        check_hop(hop.is_permitted(), &evidence.ticket)?;
        let window = hop.window();
        check_last(self.moment, window)?;
        Ok(hop.ticket(window))
    }
}
