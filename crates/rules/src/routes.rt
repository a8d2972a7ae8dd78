// What permits a hop of kind 4 (R5.7): no bar of the client, the option, and one of two routes, from Service 1, the TGT's client, to Service 2,
// which the request names.
ghost use Rattle.std.specs.Prelude.{◌≡◌};
ghost use Rattle.definitions.specs.Options.{has_cname_in_addl_tkt, is_resource_based};
ghost use Rattle.definitions.specs.Routes.{classic_route, resource_route, has_route};
ghost use Rattle.definitions.specs.Decisions.{hop_permitted};

use crate::accounts::{Flag, has_flag, in_set};
use crate::options::Bit;
use crate::question::Question;
use definitions::{Named, Presented};

// A hop: the question that asks for it, its TGT, its evidence, and the service that it goes to.
#[derive(Clone, Copy)]
pub(crate) struct Hop<'a> {
    pub(crate) question: &'a Question<'a>,
    pub(crate) tgt: &'a Presented,
    pub(crate) evidence: &'a Presented,
    pub(crate) service2: Named,
}

impl Hop<'_> {
    // Whether the classic route holds.
    #[tactic(auto, unfolding(definitions::specs::Routes::classic_route))]
    fn classic_route(&self) -> bool
        ensures { result ≡ classic_route self.now.tgt.now.client self.now.evidence.now.ticket self.now.service2.number }
    {
        in_set(self.tgt.client.send, self.service2.number as usize)
            && Bit::Forwardable.is_in(self.evidence.ticket.flags)
    }

    // Whether the resource route holds.
    #[tactic(auto, unfolding(definitions::specs::Routes::resource_route))]
    fn resource_route(&self) -> bool
        ensures { result ≡ resource_route self.now.service2.account (is_resource_based self.now.question.now.request.now.pac_options) self.now.tgt.now.ticket.client self.now.evidence.now.ticket }
    {
        Bit::ResourceBased.is_in(self.question.request.pac_options)
            && in_set(
                self.service2.account.receive,
                self.tgt.ticket.client as usize,
            )
            && !self.evidence.ticket.barred
    }

    // Whether the evidence's client is not barred, CNAME-IN-ADDL-TKT stands and a route holds.
    #[tactic(auto, unfolding(definitions::specs::Routes::is_permitted, definitions::specs::Routes::has_route))]
    pub(crate) fn is_permitted(&self) -> bool
        ensures { result ≡ hop_permitted (has_cname_in_addl_tkt self.now.question.now.request.now.options) (is_resource_based self.now.question.now.request.now.pac_options) self.now.tgt.now self.now.evidence.now self.now.service2 }
    {
        !has_flag(self.evidence.client, Flag::Barred)
            && Bit::CnameInAddlTkt.is_in(self.question.request.options)
            && (self.classic_route() || self.resource_route())
    }
}
