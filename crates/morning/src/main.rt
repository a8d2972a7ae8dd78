// The morning of R11.3: three accounts, and the requests W1 to W4, made of the records that were answered.
// Prints a line for each request: its kind, the error number (0 granted), and the record in hexadecimal, or `-`.
#![tactic(auto)]

ghost use Rattle.std.specs.Prelude.{◌≤◌};
ghost use Rattle.definitions.specs.Limits.{longest_record};

use definitions::{ACCOUNTS_SIZE, Edit, Error, Kind, LEDGER_SIZE, LONGEST_RECORD, Settings};
use ledger::LedgerWords;
use record::Draft;
use rules::{AccountWords, CNAME_IN_ADDL_TKT};
use std::{fmt, io};

// The bytes that the longest request takes, with a record or a name of 255 bytes in each of its four fields (R4.1).
const LONGEST_REQUEST: usize = 1039;

// The mask of the optional fields of a request whose options stand (R4.8).
const OPTIONS_FIELD: u32 = 2;

// A request of a kind, with nothing in it.
fn blank(kind: Kind) -> Draft<'static> {
    Draft {
        kind: u32::from(u8::from(kind)),
        options: 0,
        pac_options: 0,
        till: 0,
        tgt: b"",
        evidence: b"",
        user: b"",
        service: b"",
        fields: 0,
    }
}

// W1: an account asks for its initial ticket.
fn initial(user: &[u8]) -> Draft<'_> {
    Draft {
        user,
        ..blank(Kind::Initial)
    }
}

// W2: the client of a TGT asks for a ticket of a user to itself.
fn to_itself<'a>(tgt: &'a [u8], user: &'a [u8]) -> Draft<'a> {
    Draft {
        tgt,
        user,
        ..blank(Kind::S4U2self)
    }
}

// W3 and W4: it asks for a ticket of the evidence's client to a service.
fn to_service<'a>(tgt: &'a [u8], evidence: &'a [u8], service: &'a [u8]) -> Draft<'a> {
    Draft {
        options: CNAME_IN_ADDL_TKT,
        tgt,
        evidence,
        service,
        fields: OPTIONS_FIELD,
        ..blank(Kind::S4U2proxy)
    }
}

// The record of a ticket, or no bytes where none was granted. It is written in hexadecimal.
// Form: an array with its length beside it and no Vec, since the program runs without an allocator (D138).
#[derive(Clone, Copy)]
struct Record {
    bytes: [u8; LONGEST_RECORD],
    length: usize,
    ghost within: { length ≤ longest_record },
}

impl Record {
    fn bytes(&self) -> &[u8] {
        &self.bytes[..self.length]
    }
}

impl Default for Record {
    fn default() -> Self {
        Record {
            bytes: [0; LONGEST_RECORD],
            length: 0,
        }
    }
}

impl fmt::Display for Record {
    fn fmt<W: fmt::Write>(&self, f: &mut fmt::Formatter<W>) -> fmt::Result {
        for byte in self.bytes() {
            write!(f, "{byte:02x}")?;
        }
        Ok(())
    }
}

// The service of the morning: the words of its accounts and of its ledger, which are lent to it.
// Form: lent and not its own, since `new` would hand them on by copies: the program then needs up to 80 KB of stack, and so up to 36.
// Form: the console has one of its own; a crate for what the two share, the words and a fresh start, would be no plainer.
#[derive(Drop)]
struct Service<'a> {
    accounts: &'a mut AccountWords,
    ledger: &'a mut LedgerWords,
}

impl<'a> Service<'a> {
    // A fresh service with the three accounts of R11.1.
    fn new(accounts: &'a mut AccountWords, ledger: &'a mut LedgerWords) -> Self {
        ledger::fresh(accounts, ledger);
        let mut service = Service { accounts, ledger };
        service.edit(0, b"tech", 0, 0);
        service.edit(1, b"web", 12, 0x4);
        service.edit(2, b"store", 8, 0);
        service
    }

    // Sets an account that has no receive set, and whose tickets last ten hours.
    // Form: a refusal is let go, so that only a write that fails ends the program; the answers to the requests would show it.
    fn edit(&mut self, number: u32, name: &[u8], flags: u32, send: u64) {
        let settings = Settings {
            flags,
            send,
            receive: 0,
            lifetime: 36000,
        };
        let edit = Edit {
            number,
            name,
            settings,
        };
        let _ = ledger::edit(self.accounts, edit);
    }

    // Makes a request at a clock reading; answers the record of the ticket.
    #[tactic(auto, unfolding(definitions::specs::RequestWriting::request_written))]
    fn request(&mut self, draft: Draft, clock: u32) -> Result<Record, Error> {
        let mut request = [0; LONGEST_REQUEST];
        let size = record::write_request(draft, &mut request)?;
        let mut bytes = [0; LONGEST_RECORD];
        let granted = ledger::request(
            self.accounts,
            self.ledger,
            &request[..size],
            clock,
            &mut bytes,
        )?;
        Ok(Record {
            bytes,
            length: granted.length,
        })
    }

    // Makes a request and prints its line; answers the record of the ticket, where one is granted.
    fn ask(&mut self, rt: &impl Print, draft: Draft, clock: u32) -> io::Result<Option<Record>> {
        match self.request(draft, clock) {
            Ok(record) => {
                println!(rt; "{} 0 {record}", draft.kind)?;
                Ok(Some(record))
            }
            Err(error) => {
                println!(rt; "{} {} -", draft.kind, u32::from(error))?;
                Ok(None)
            }
        }
    }
}

// Where no ticket is granted, the requests that follow have no bytes for its record, so that each of the four has its line.
fn main(rt: HostRuntime) -> io::Result<()> {
    let mut accounts = [0; ACCOUNTS_SIZE];
    let mut ledger = [0; LEDGER_SIZE];
    let mut service = Service::new(&mut accounts, &mut ledger);
    let tgt = service.ask(&rt, initial(b"web"), 1000)?.unwrap_or_default();
    let evidence = service
        .ask(&rt, to_itself(tgt.bytes(), b"tech"), 1010)?
        .unwrap_or_default();
    let hop = to_service(tgt.bytes(), evidence.bytes(), b"store");
    service.ask(&rt, hop, 1020)?;
    service.ask(&rt, hop, 37000)?;
    Ok(())
}
