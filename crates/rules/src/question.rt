// A question: a request that was read, with what it is decided by, and what it looks up of it (R4.6, R5.1).
ghost use Rattle.std.specs.Prelude.{◌≡◌};
ghost use Rattle.definitions.specs.Requests.{part_of};
ghost use Rattle.definitions.specs.AccountWords.{table_of};
ghost use Rattle.definitions.specs.Options.{asks_forwardable};
ghost use Rattle.definitions.specs.Decisions.{named, presented, user_of, service_of};

use crate::name::find_packed;
use crate::options::Bit;
use crate::words::{AccountWords, account_at};
use definitions::{ACCOUNT_LIMIT, Moment, Named, Presented, Principal, Request, Span, Ticket};
use record::name_in;

// The account that a name in the request's bytes stands for, with its number.
// Form: 64 and no Option, since a decision goes on with an account whatever the name is, and an unknown name is checked as an account that was never set (R2.4, R6.5).
fn find_named(words: &AccountWords, bytes: &[u8], span: Span) -> Named
    ensures { result ≡ named (table_of words.now) (part_of bytes.now span) }
{
    let number = find_packed(words, name_in(bytes, span)).unwrap_or(ACCOUNT_LIMIT);
    Named {
        number: number as Principal,
        account: account_at(words, number),
    }
}

// A request, with what it is decided by: the accounts, the bytes that its names lie in, and the moment.
#[derive(Clone, Copy)]
pub struct Question<'a> {
    pub accounts: &'a AccountWords,
    pub bytes: &'a [u8],
    pub request: &'a Request,
    pub moment: Moment,
}

impl Question<'_> {
    // The account that the user name stands for.
    pub(crate) fn user(&self) -> Named
        ensures { result ≡ user_of (table_of self.now.accounts.now) self.now.bytes.now self.now.request.now }
    {
        find_named(self.accounts, self.bytes, self.request.user)
    }

    // The account that the service name stands for.
    pub(crate) fn service(&self) -> Named
        ensures { result ≡ service_of (table_of self.now.accounts.now) self.now.bytes.now self.now.request.now }
    {
        find_named(self.accounts, self.bytes, self.request.service)
    }

    // A ticket that the request presents, with its client's account.
    fn present(&self, held: bool, ticket: Ticket) -> Presented
        ensures { result ≡ presented (table_of self.now.accounts.now) held ticket }
    {
        Presented {
            ticket,
            held,
            client: account_at(self.accounts, ticket.client as usize),
        }
    }

    // The TGT.
    pub(crate) fn tgt(&self, held: bool) -> Presented
        ensures { result ≡ presented (table_of self.now.accounts.now) held self.now.request.now.tgt }
    {
        self.present(held, self.request.tgt)
    }

    // The evidence.
    pub(crate) fn evidence(&self, held: bool) -> Presented
        ensures { result ≡ presented (table_of self.now.accounts.now) held self.now.request.now.evidence }
    {
        self.present(held, self.request.evidence)
    }

    // Whether it asks for FORWARDABLE.
    pub(crate) fn asks_forwardable(&self) -> bool
        ensures { result ≡ asks_forwardable self.now.request.now.options }
    {
        Bit::Forwardable.is_in(self.request.options)
    }
}
