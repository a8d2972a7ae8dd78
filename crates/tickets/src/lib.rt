// The C interface (include/tickets.h): the calls of the service, what reads it, saving and loading, the record layer's readers and writers, and the
// comparison of two words of names.
// Only numbers, words and slices of bytes cross the border. A function takes any words, any bytes and any output.
#![tactic(auto)]

mod saving;

ghost use Rattle.std.specs.Prelude.{◌≡◌, ◌<◌, length, IfOk};
ghost use Rattle.definitions.specs.Limits.{two32, layout_number};
ghost use Rattle.definitions.specs.Errors.{answer_number};
ghost use Rattle.definitions.specs.TicketRecords.{read_ticket};
ghost use Rattle.definitions.specs.Requests.{read_request, kind_number};
ghost use Rattle.definitions.specs.RequestWriting.{request_parts, request_written, request_output};
ghost use Rattle.definitions.specs.ReadBack.{origin_kind, ticket_fields};
ghost use Rattle.definitions.specs.AccountWords.{table_of};
ghost use Rattle.definitions.specs.Names.{words_match, find_name};
ghost use Rattle.definitions.specs.Edits.{edit_of};
ghost use Rattle.definitions.specs.LedgerWords.{tickets_of};
ghost use Rattle.definitions.specs.Totals.{day_total};
ghost use Rattle.definitions.specs.Descent.{descent, descended};
ghost use Rattle.definitions.specs.Services.{fresh_service};
ghost use Rattle.definitions.specs.Saving.{save_answer, save_output, load_answer, load_service};
ghost use Rattle.tickets.specs.Calls.{library_version, value_answer, rewrite_answer, rewrite_output, match_number, request_fields, fields_after, account_answer, account_fields_after, account_name_after, record_at_answer, record_at_output, ticket_at_answer, ticket_at_fields, EditCall, RequestCall, ClearCall};

use definitions::{
    ACCOUNTS_PLACE, Edit, Error, Kind, LAST_ACCOUNT, LAYOUT, LEDGER_PLACE, Origin, Request,
    SAVED_SIZE, Settings, Ticket,
};
use ledger::LedgerWords;
use record::Draft;
use rules::{AccountWords, NameBytes};
use saving::{is_loadable, load_words, put_service};

// What a call answers: the error number, 0 where there is none, and a value, 0 beside an error.
// Form: two numbers and no Result, since the C interface has them (include/tickets.h).
#[repr(C)]
#[derive(Clone, Copy)]
pub struct TicketsAnswer {
    pub error: u32,
    pub value: u32,
}

// The version of the library: 10000 for the major number, 100 for the minor.
pub const VERSION: u32 = 10000;

// The version, as a program finds it at run time.
#[unsafe(no_mangle)]
pub extern "C" fn tickets_version() -> u32
    ensures { result ≡ library_version }
{
    VERSION
}

// The numbers of a request: kind, options, PAC options, till, the TGT's number, the evidence's number, where the user's name lies and its
// length, where the service's name lies and its length.
// Form: an array of numbers and no struct, here and of an account and a ticket, since the C interface has it so; a truth value is 1 or 0 there.
pub type RequestFields = [u64; 10];

// The answer of what gives a number of 32 bits: no error and the number, or a refusal's number and 0.
impl From<Result<u32, Error>> for TicketsAnswer {
    ghost from_gives = { λ number answer. answer ≡ value_answer number };

    fn from(number: Result<u32, Error>) -> TicketsAnswer {
        match number {
            Ok(value) => TicketsAnswer { error: 0, value },
            Err(error) => TicketsAnswer {
                error: u32::from(error),
                value: 0,
            },
        }
    }
}

// The answer of what gives a length, which 32 bits hold.
fn value_answer(number: Result<usize, Error>) -> TicketsAnswer
    requires { IfOk number (λ value. value < two32) }
    ensures { result ≡ value_answer number }
{
    TicketsAnswer::from(number.map(|value| value as u32))
}

// Reads a ticket record, and writes it to the output's start: 60 where the reader refuses, else what the writer answers.
// Form: a match and no `and_then`, whose closure would hold the output that the promise is about.
#[tactic(auto, using(crate::proofs::Calls::read_fits))]
#[unsafe(no_mangle)]
pub extern "C" fn tickets_rewrite(bytes: &[u8], output: &mut [u8]) -> TicketsAnswer
    ensures answer { result ≡ rewrite_answer (read_ticket bytes.now) (length output.old) }
    ensures output { output.new ≡ rewrite_output (read_ticket bytes.now) output.old }
{
    match record::read_ticket(bytes) {
        Ok(ticket) => value_answer(record::write_ticket(ticket, output)),
        Err(error) => TicketsAnswer::from(Err(error)),
    }
}

// The ten numbers of a request.
fn request_fields(request: Request) -> RequestFields
    ensures { result ≡ request_fields request }
{
    [
        u64::from(u8::from(request.kind)),
        u64::from(request.options),
        u64::from(request.pac_options),
        u64::from(request.till),
        u64::from(request.tgt.number),
        u64::from(request.evidence.number),
        request.user.at as u64,
        request.user.len as u64,
        request.service.at as u64,
        request.service.len as u64,
    ]
}

// Reads a request: its ten numbers, or 60.
#[unsafe(no_mangle)]
pub extern "C" fn tickets_read_request(bytes: &[u8], fields: &mut RequestFields) -> u32
    ensures answer { result ≡ answer_number (read_request bytes.now) }
    ensures fields { fields.new ≡ fields_after (read_request bytes.now) fields.old }
{
    match record::read_request(bytes) {
        Ok(request) => {
            *fields = request_fields(request);
            0
        }
        Err(error) => u32::from(error),
    }
}

// Writes the request of these parts to the output's start: its length, 60 where no readable request has them, then 52.
// Form: the parts stand in parameters of their own, since the C interface passes them so.
#[tactic(auto, using(crate::proofs::Calls::request_fits))]
#[unsafe(no_mangle)]
pub extern "C" fn tickets_write_request(
    kind: u32,
    options: u32,
    pac_options: u32,
    till: u32,
    tgt: &[u8],
    evidence: &[u8],
    user: &[u8],
    service: &[u8],
    fields: u32,
    output: &mut [u8],
) -> TicketsAnswer
    ensures answer { result ≡ value_answer (request_written (request_parts kind options pac_options till tgt.now evidence.now user.now service.now fields) (length output.old)) }
    ensures output { output.new ≡ request_output (request_parts kind options pac_options till tgt.now evidence.now user.now service.now fields) output.old }
{
    let draft = Draft {
        kind,
        options,
        pac_options,
        till,
        tgt,
        evidence,
        user,
        service,
        fields,
    };
    value_answer(record::write_request(draft, output))
}

// Whether all eight pairs of bytes of two words match: 1, or 0.
#[unsafe(no_mangle)]
pub extern "C" fn tickets_words_match(a: u64, b: u64) -> u32
    ensures { result ≡ match_number (words_match a b) }
{
    u32::from(rules::words_match(a, b))
}

// ---- The service's calls.

// A fresh service, with no account set and no ticket held.
#[unsafe(no_mangle)]
pub extern "C" fn tickets_fresh(accounts: &mut AccountWords, ledger: &mut LedgerWords)
    ensures { record { accounts = accounts.new; ledger = ledger.new } ≡ fresh_service }
{
    ledger::fresh(accounts, ledger);
}

// Sets one account whole: 0, or the refusal's number.
// Form: what an edit sets stands in parameters of its own, since the C interface passes it so.
#[unsafe(no_mangle)]
pub extern "C" fn tickets_edit(
    accounts: &mut AccountWords,
    number: u32,
    name: &[u8],
    flags: u32,
    send: u64,
    receive: u64,
    lifetime: u32,
) -> u32
    ensures { EditCall accounts.old (edit_of number name.now flags send receive lifetime) result accounts.new }
{
    let settings = Settings {
        flags,
        send,
        receive,
        lifetime,
    };
    let edit = Edit {
        number,
        name,
        settings,
    };
    record::answer_number(ledger::edit(accounts, edit))
}

// The number of the account that a name stands for, 64 where it is unknown.
// Form: 64 and no Option, since the C interface answers a number (R2.11).
#[unsafe(no_mangle)]
pub extern "C" fn tickets_find_name(accounts: &AccountWords, name: &[u8]) -> u32
    ensures { result ≡ find_name (table_of accounts.now) name.now }
{
    rules::find_name(accounts, name) as u32
}

// Answers a request: the length of the record at the output's start, or the refusal's number.
#[unsafe(no_mangle)]
pub extern "C" fn tickets_request(
    accounts: &mut AccountWords,
    ledger: &mut LedgerWords,
    request: &[u8],
    clock: u32,
    output: &mut [u8],
) -> TicketsAnswer
    ensures { RequestCall (record { accounts = accounts.old; ledger = ledger.old }) request.now clock output.old result output.new (record { accounts = accounts.new; ledger = ledger.new }) }
{
    let granted = ledger::request(accounts, ledger, request, clock, output);
    value_answer(granted.map(|grant| grant.length))
}

// Clears out the tickets that have ended at a clock reading: how many it took out. The accounts stay.
#[unsafe(no_mangle)]
pub extern "C" fn tickets_clear(
    accounts: &mut AccountWords,
    ledger: &mut LedgerWords,
    clock: u32,
) -> u32
    ensures { ClearCall (record { accounts = accounts.old; ledger = ledger.old }) clock result (record { accounts = accounts.new; ledger = ledger.new }) }
{
    ledger::clear(ledger, clock) as u32
}

// The steps from the ticket of a number to its initial ticket, or 41.
#[unsafe(no_mangle)]
pub extern "C" fn tickets_descent(ledger: &LedgerWords, number: u32) -> TicketsAnswer
    ensures { result ≡ value_answer (descended (descent (tickets_of ledger.now) number)) }
{
    TicketsAnswer::from(ledger::descent(ledger, number))
}

// The day total, in seconds.
#[unsafe(no_mangle)]
pub extern "C" fn tickets_day_total(ledger: &LedgerWords) -> u64
    ensures { result ≡ day_total (tickets_of ledger.now) }
{
    ledger::day_total(ledger)
}

// ---- Reading a service.

// An account in numbers: whether it is set, its flags, the send set, the receive set, its lifetime, the length of its name.
pub type AccountFields = [u64; 6];

// The numbers of a ticket: those of its record by map bit, with 1 for the barred mark; the kind that made it; the eight places of its trail.
pub type TicketFields = [u64; 19];

// An account: its numbers and its name, or 60.
#[tactic(auto, using(crate::proofs::Calls::flag_number))]
#[unsafe(no_mangle)]
pub extern "C" fn tickets_account(
    accounts: &AccountWords,
    number: u32,
    fields: &mut AccountFields,
    name: &mut NameBytes,
) -> u32
    ensures answer { result ≡ account_answer number }
    ensures fields { fields.new ≡ account_fields_after (table_of accounts.now) number fields.old }
    ensures name { name.new ≡ account_name_after (table_of accounts.now) number name.old }
{
    if LAST_ACCOUNT < number {
        return u32::from(Error::KRB_ERR_GENERIC);
    }
    let n = number as usize;
    let account = rules::account_at(accounts, n);
    let length = rules::read_name(accounts, n, name);
    *fields = [
        u64::from(account.known),
        u64::from(account.flags % 16),
        account.send,
        account.receive,
        u64::from(account.lifetime),
        length as u64,
    ];
    0
}

// How many tickets are held.
#[unsafe(no_mangle)]
pub extern "C" fn tickets_held(ledger: &LedgerWords) -> u32
    ensures { result ≡ length (tickets_of ledger.now) }
{
    ledger::count_held(ledger) as u32
}

// Writes the record of the ticket at a place to the output's start: 41 where none is held there, else what the writer answers.
#[tactic(auto, using(crate::proofs::Calls::held_fits))]
#[unsafe(no_mangle)]
pub extern "C" fn tickets_record_at(
    ledger: &LedgerWords,
    place: u32,
    output: &mut [u8],
) -> TicketsAnswer
    ensures answer { result ≡ record_at_answer (tickets_of ledger.now) place (length output.old) }
    ensures output { output.new ≡ record_at_output (tickets_of ledger.now) place output.old }
{
    let Some(ticket) = ledger::held_at(ledger, place as usize) else {
        return TicketsAnswer::from(Err(Error::KRB_AP_ERR_MODIFIED));
    };
    value_answer(record::write_ticket(ticket, output))
}

// The kind of request that makes a ticket of an origin.
// Form: a match and no From, since the C interface alone tells an origin so, and neither type is this crate's.
fn origin_kind(origin: Origin) -> Kind
    ensures { kind_number result ≡ origin_kind origin }
{
    match origin {
        Origin::Initial => Kind::Initial,
        Origin::Direct(_) => Kind::Direct,
        Origin::S4U2self(_) => Kind::S4U2self,
        Origin::Delegated(_, _) => Kind::S4U2proxy,
    }
}

// The numbers of a ticket.
#[tactic(auto, using(crate::proofs::Calls::flag_number), unfolding(definitions::specs::Fields::run))]
fn ticket_fields(ticket: Ticket) -> TicketFields
    ensures { result ≡ ticket_fields ticket }
{
    let trail = ticket.trail.map(u64::from);
    [
        u64::from(ticket.number),
        u64::from(ticket.flags),
        u64::from(ticket.client),
        u64::from(ticket.service),
        u64::from(ticket.window.start),
        u64::from(ticket.window.end),
        u64::from(record::tgt_of(ticket.origin)),
        u64::from(record::evidence_of(ticket.origin)),
        u64::from(ticket.hops),
        u64::from(ticket.barred),
        u64::from(u8::from(origin_kind(ticket.origin))),
        trail[0],
        trail[1],
        trail[2],
        trail[3],
        trail[4],
        trail[5],
        trail[6],
        trail[7],
    ]
}

// The numbers of the ticket at a place, or 41.
#[unsafe(no_mangle)]
pub extern "C" fn tickets_ticket_at(
    ledger: &LedgerWords,
    place: u32,
    fields: &mut TicketFields,
) -> u32
    ensures answer { result ≡ ticket_at_answer (tickets_of ledger.now) place }
    ensures fields { fields.new ≡ ticket_at_fields (tickets_of ledger.now) place fields.old }
{
    let Some(ticket) = ledger::held_at(ledger, place as usize) else {
        return u32::from(Error::KRB_AP_ERR_MODIFIED);
    };
    *fields = ticket_fields(ticket);
    0
}

// ---- Saving and loading a service.

// The number of the words' layout.
#[unsafe(no_mangle)]
pub extern "C" fn tickets_layout() -> u32
    ensures { result ≡ layout_number }
{
    LAYOUT as u32
}

// Saves the service to the output's start: how many bytes it takes, or 52.
#[tactic(auto, using(crate::proofs::SavedBytes::room_enough), unfolding(definitions::specs::Saving::save_output))]
#[unsafe(no_mangle)]
pub extern "C" fn tickets_save(
    accounts: &AccountWords,
    ledger: &LedgerWords,
    output: &mut [u8],
) -> TicketsAnswer
    ensures answer { result ≡ value_answer (save_answer (length output.old)) }
    ensures output { output.new ≡ save_output (record { accounts = accounts.now; ledger = ledger.now }) output.old }
{
    let Some(saved) = output.first_chunk_mut::<SAVED_SIZE>() else {
        return TicketsAnswer::from(Err(Error::KRB_ERR_RESPONSE_TOO_BIG));
    };
    put_service(saved, accounts, ledger);
    TicketsAnswer::from(Ok(SAVED_SIZE as u32))
}

// Makes the service the one that was saved as these bytes: 0, or 60.
#[tactic(auto, unfolding(definitions::specs::Saving::loadable))]
#[unsafe(no_mangle)]
pub extern "C" fn tickets_load(
    accounts: &mut AccountWords,
    ledger: &mut LedgerWords,
    saved: &[u8],
) -> u32
    ensures answer { result ≡ answer_number (load_answer saved.now) }
    ensures service { record { accounts = accounts.new; ledger = ledger.new } ≡ load_service saved.now (record { accounts = accounts.old; ledger = ledger.old }) }
{
    let Some(saved) = saved.as_array().filter(|saved| is_loadable(saved)) else {
        return u32::from(Error::KRB_ERR_GENERIC);
    };
    load_words(accounts, saved, ACCOUNTS_PLACE);
    load_words(ledger, saved, LEDGER_PLACE);
    0
}
