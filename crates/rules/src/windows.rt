// The windows of new tickets (R5.9).
ghost use Rattle.std.specs.Prelude.{◌≡◌};
ghost use Rattle.definitions.specs.Windows.{initial_window};
ghost use Rattle.definitions.specs.Decisions.{window_of, hop_window_of};

use crate::question::Question;
use crate::routes::Hop;
use definitions::{Account, Presented, Window};

impl Question<'_> {
    // The window of an initial ticket: from now on for an account's lifetime, at most to the last second, and no longer than till where that is
    // wished.
    #[tactic(auto, unfolding(definitions::specs::Windows::initial_window))]
    pub(crate) fn initial_window(&self, account: Account) -> Window
        ensures { result ≡ initial_window self.now.moment.clock account.lifetime self.now.request.now.till }
    {
        let clock = self.moment.clock;
        let till = self.request.till;
        let full = Window {
            start: clock,
            end: clock.saturating_add(account.lifetime),
        };
        if till == 0 { full } else { full.until(till) }
    }

    // The window of kinds 2 and 3, by the lifetime of the ticket's service: it ends with the TGT too.
    #[tactic(auto, using(crate::proofs::Until::until_initial))]
    pub(crate) fn window_of(&self, service: Account, tgt: &Presented) -> Window
        ensures { result ≡ window_of self.now.moment service self.now.request.now.till tgt.now }
    {
        self.initial_window(service).until(tgt.ticket.window.end)
    }
}

impl Hop<'_> {
    // The window of kind 4: it ends with the evidence too.
    #[tactic(auto, using(crate::proofs::Until::until_grant))]
    pub(crate) fn window(&self) -> Window
        ensures { result ≡ hop_window_of self.now.question.now.moment self.now.service2.account self.now.question.now.request.now.till self.now.tgt.now self.now.evidence.now }
    {
        let tickets = self.question.window_of(self.service2.account, self.tgt);
        tickets.until(self.evidence.ticket.window.end)
    }
}
