// The calls: a fresh service, an edit, a request, and a clearing (R6.1, R7.2, R7.3, R7.6).
ghost use Rattle.std.specs.Prelude.{◌≡◌, List, [], ℕ, ◌≤◌, length, IfOk};
ghost use Rattle.definitions.specs.TicketRecords.{record_of};
ghost use Rattle.definitions.specs.Limits.{longest_record, ticket_limit};
ghost use Rattle.definitions.specs.AccountWords.{table_of};
ghost use Rattle.definitions.specs.Edits.{edit_by};
ghost use Rattle.definitions.specs.LedgerWords.{count_held, next_number, tickets_of};
ghost use Rattle.definitions.specs.Answers.{decide_read, decide_request, given, ungranted};
ghost use Rattle.definitions.specs.Answers.{edit as an-edit, request as a-request, clear as a-clearing};
ghost use Rattle.definitions.specs.Services.{fresh_service, perform};
ghost use Rattle.definitions.specs.Demand.{Demand3};
ghost use Rattle.definitions.specs.Requests.{path_of, request_layout};
ghost use Rattle.definitions.specs.Fields.{field_of, map_of};

use crate::clearing::clear_tickets;
use crate::held::HeldTickets;
use crate::storing::store_ticket;
use crate::words::{LedgerWords, fresh_ledger};
use definitions::{Edit, Error, Granted, Kind, Request, Ticket};
use rules::{
    AccountWords, Question, check_room, edit_account, fresh_accounts, read_rest, request_path,
    write_ticket,
};

// A fresh service, with no account set and no ticket held.
pub fn fresh(accounts: &mut AccountWords, ledger: &mut LedgerWords)
    ensures { record { accounts = accounts.new; ledger = ledger.new } ≡ fresh_service }
{
    fresh_accounts(accounts);
    fresh_ledger(ledger);
}

// Sets one account whole, or refuses; whatever the ledger holds, it stays.
pub fn edit(accounts: &mut AccountWords, edit: Edit) -> Result<(), Error>
    ensures { (l : List ℕ) → record { reply = record { answer = ungranted result; output = []; cleared = 0 }; service = record { accounts = accounts.new; ledger = l } } ≡ perform (record { accounts = accounts.old; ledger = l }) (an-edit (edit_by edit.entry)) }
{
    edit_account(accounts, edit)
}

// What a question is answered: by its request's kind, with only that looked up which the kind presents.
// Form: a match and no table of functions, since a kind looks up what it presents and no more.
fn decide_read(question: &Question<'_>, held: HeldTickets) -> Result<Ticket, Error>
    ensures { result ≡ decide_read (table_of question.now.accounts.now) (tickets_of held.entry.words.now) question.now.bytes.now question.now.moment question.now.request.now }
{
    let request = question.request;
    match request.kind {
        Kind::Initial => question.decide_initial(),
        Kind::Direct => question.decide_direct(held.holds(request.tgt)),
        Kind::S4U2self => question.decide_s4u2self(held.holds(request.tgt)),
        Kind::S4U2proxy => {
            question.decide_s4u2proxy(held.holds(request.tgt), held.holds(request.evidence))
        }
    }
}

// What a request of the kind that its first bytes pick is answered: read once, and decided.
// Form: six parameters, since a struct of them would be made for this one call; what is asked is a `Question` only when the request is read.
fn decide_request(
    accounts: &AccountWords,
    held: HeldTickets,
    bytes: &[u8],
    clock: u32,
    room: usize,
    kind: Kind,
) -> Result<Ticket, Error>
    requires { Some kind ≡ path_of (field_of request_layout bytes.now (map_of bytes.now) 0) (map_of bytes.now) }
    ensures { result ≡ decide_request (table_of accounts.now) (tickets_of held.entry.words.now) (next_number held.entry.words.now) bytes.now clock room }
{
    let request = read_rest(bytes, kind)?;
    check_room(room)?;
    let question = Question {
        accounts,
        bytes,
        request: &request,
        moment: held.moment(clock),
    };
    decide_read(&question, held)
}

// Answers a request. A grant stores its ticket and writes its record to the output's start, and leaves the accounts; a refusal changes nothing.
// First bytes that are no request's are refused before anything else is read.
pub fn request(
    accounts: &mut AccountWords,
    ledger: &mut LedgerWords,
    bytes: &[u8],
    clock: u32,
    output: &mut [u8],
) -> Result<Granted, Error>
    ensures performed { record { reply = record { answer = given result; output = output.new; cleared = 0 }; service = record { accounts = accounts.new; ledger = ledger.new } } ≡ perform (record { accounts = accounts.old; ledger = ledger.old }) (a-request bytes.now clock output.old) }
    ensures measured { IfOk result (λ grant. grant.length ≡ length (record_of grant.ticket)) }
    ensures bounded { IfOk result (λ grant. grant.length ≤ longest_record) }
{
    let kind = request_path(bytes).ok_or(Error::KRB_ERR_GENERIC)?;
    let held = HeldTickets::of(ledger);
    let count = held.count;
    let ticket = decide_request(accounts, held, bytes, clock, output.len(), kind)?;
    store_ticket(ledger, count, ticket);
    let length = write_ticket(ticket, output).unwrap();
    Ok(Granted { ticket, length })
}

// Clears out the tickets that have ended at a clock reading, and answers how many; whatever the accounts are, they stay.
pub fn clear(ledger: &mut LedgerWords, clock: u32) -> usize
    ensures performed { (a : List ℕ) → record { reply = record { answer = Ok None; output = []; cleared = result }; service = record { accounts = a; ledger = ledger.new } } ≡ perform (record { accounts = a; ledger = ledger.old }) (a-clearing clock) }
    ensures bounded { result ≤ ticket_limit }
{
    clear_tickets(ledger, clock)
}

// Demand 3 holds of every list of calls, performed one after the other (R10.3).
pub fn demand_3()
    ensures { Demand3 }
{}
