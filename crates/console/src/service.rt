// The service behind the console: its accounts and its ledger, and the calls that are made of it.
use crate::command::{Command, Form, LONGEST_BYTES, Request};
use crate::failure::Failure;
use crate::value::{Hexadecimal, RecordBytes, Value};
use definitions::{
    ACCOUNT_LIMIT, ACCOUNTS_SIZE, Edit, Error, Kind, LEDGER_SIZE, LONGEST_RECORD, Ticket,
};
use ledger::LedgerWords;
use record::Draft;
use rules::AccountWords;

// The bytes that the longest request takes, with a record or a name of 255 bytes in each of its four fields (R4.1).
const LONGEST_REQUEST: usize = 1039;

// Form: `morning` has one of its own; a crate for what the two share, the words and a fresh start, would be no plainer.
#[derive(Drop)]
pub(crate) struct Service {
    accounts: AccountWords,
    ledger: LedgerWords,
}

impl Service {
    // A fresh service.
    pub(crate) fn new() -> Self {
        let mut accounts = [0; ACCOUNTS_SIZE];
        let mut ledger = [0; LEDGER_SIZE];
        ledger::fresh(&mut accounts, &mut ledger);
        Service { accounts, ledger }
    }

    // Makes the call of a line. A record is written into the output.
    pub(crate) fn call<'a>(
        &'a mut self,
        line: &[u8],
        output: &'a mut RecordBytes,
    ) -> Result<Value<'a>, Failure> {
        self.perform(Command::parse(line)?, output)
    }

    fn perform<'a>(
        &'a mut self,
        command: Command<'_>,
        output: &'a mut RecordBytes,
    ) -> Result<Value<'a>, Failure> {
        match command {
            Command::Fresh => {
                ledger::fresh(&mut self.accounts, &mut self.ledger);
                Ok(Value::Nothing)
            }
            Command::Edit(edit) => self.edit(edit),
            Command::Find(name) => self.find(name),
            Command::Request(request) => self.send(request, output),
            Command::Clear(clock) => {
                Ok(Value::Number(ledger::clear(&mut self.ledger, clock) as u64))
            }
            Command::Descent(number) => {
                Ok(Value::Number(u64::from(ledger::descent(&self.ledger, number)?)))
            }
            Command::Total => Ok(Value::Number(ledger::day_total(&self.ledger))),
            Command::Ledger => Ok(Value::Tickets(&self.ledger)),
            Command::Form(form) => self.send_form(form, output),
        }
    }

    fn edit(&mut self, edit: Edit<'_>) -> Result<Value<'_>, Failure> {
        ledger::edit(&mut self.accounts, edit)?;
        Ok(Value::Nothing)
    }

    // Form: a number that is compared and no Option, since 64 is what R2.11 answers of a name that no account has.
    fn find(&self, name: &[u8]) -> Result<Value<'_>, Failure> {
        let number = rules::find_name(&self.accounts, name);
        if number < ACCOUNT_LIMIT {
            Ok(Value::Number(number as u64))
        } else {
            Err(Failure::Refused(Error::KDC_ERR_C_PRINCIPAL_UNKNOWN))
        }
    }

    // Sends a request that a line spells, with an output that is no longer than the longest record.
    fn send<'a>(
        &'a mut self,
        request: Request<'_>,
        output: &'a mut RecordBytes,
    ) -> Result<Value<'a>, Failure> {
        let mut room = [0; LONGEST_BYTES];
        let bytes = request.bytes(&mut room)?;
        let length = request.room.min(LONGEST_RECORD);
        self.request(bytes, request.clock, &mut output[..length])
    }

    // Sends a request that the console writes.
    fn send_form<'a>(
        &'a mut self,
        form: Form<'_>,
        output: &'a mut RecordBytes,
    ) -> Result<Value<'a>, Failure> {
        let mut room = [0; LONGEST_REQUEST];
        let bytes = self.write(form, &mut room)?;
        self.request(bytes, form.clock, output)
    }

    // Sends the bytes of a request, with this output.
    fn request<'a>(
        &'a mut self,
        bytes: &[u8],
        clock: u32,
        output: &'a mut [u8],
    ) -> Result<Value<'a>, Failure> {
        let granted = ledger::request(&mut self.accounts, &mut self.ledger, bytes, clock, output)?;
        Ok(Value::Record(Hexadecimal(written(output, granted.length))))
    }

    // The record of the ticket of a number, also of one that is not held; no bytes where no ticket is presented.
    fn presented<'a>(
        &self,
        number: Option<u16>,
        output: &'a mut RecordBytes,
    ) -> Result<&'a [u8], Error> {
        match number {
            Some(number) => record_of(self.ticket(number), output),
            None => Ok(&[]),
        }
    }

    // The ticket of a number, or one that no call makes: an initial one without INITIAL.
    fn ticket(&self, number: u16) -> Ticket {
        ledger::first_held(&self.ledger, number).unwrap_or(Ticket {
            number,
            ..record::blank_ticket()
        })
    }

    // The bytes of a request, written into the room.
    fn write<'a>(
        &self,
        form: Form<'_>,
        room: &'a mut [u8; LONGEST_REQUEST],
    ) -> Result<&'a [u8], Error> {
        let mut tgt = [0; LONGEST_RECORD];
        let mut evidence = [0; LONGEST_RECORD];
        let (user, service): (&[u8], &[u8]) = match form.kind {
            Kind::Initial | Kind::S4U2self => (form.name, b""),
            Kind::Direct | Kind::S4U2proxy => (b"", form.name),
        };
        let draft = Draft {
            kind: u32::from(u8::from(form.kind)),
            options: form.options.unwrap_or(0),
            pac_options: form.pac_options.unwrap_or(0),
            till: form.till.unwrap_or(0),
            tgt: self.presented(form.tgt, &mut tgt)?,
            evidence: self.presented(form.evidence, &mut evidence)?,
            user,
            service,
            fields: form.fields(),
        };
        let length = record::write_request(draft, room)?;
        Ok(written(room, length))
    }
}

// The record of a ticket, written into the output.
pub(crate) fn record_of<'a>(
    ticket: Ticket,
    output: &'a mut RecordBytes,
) -> Result<&'a [u8], Error> {
    let length = record::write_ticket(ticket, output)?;
    Ok(written(output, length))
}

// What is written at the start of an output.
// Form: a part of what the caller lends, and no Vec, since the program runs without an allocator (D138).
fn written(output: &[u8], length: usize) -> &[u8] {
    &output[..length.min(output.len())]
}
