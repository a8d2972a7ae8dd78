// What a call gives that is not refused, as it stands in the answer behind the 0.
use definitions::LONGEST_RECORD;
use ledger::LedgerWords;
use std::{fmt, str};

// Room for the record of a ticket.
pub(crate) type RecordBytes = [u8; LONGEST_RECORD];

// The digits of the longest record.
const RECORD_DIGITS: usize = 2 * LONGEST_RECORD;

// Of the tickets that a ledger holds the count stands in the answer; behind it each has its record on a line of its own.
#[derive(Drop)]
pub(crate) enum Value<'a> {
    Nothing,
    Number(u64),
    Record(Hexadecimal<'a>),
    Tickets(&'a LedgerWords),
}

impl fmt::Display for Value<'_> {
    fn fmt<W: fmt::Write>(&self, f: &mut fmt::Formatter<W>) -> fmt::Result {
        match self {
            Value::Nothing => write!(f, "-"),
            Value::Number(number) => write!(f, "{number}"),
            Value::Record(record) => write!(f, "{record}"),
            Value::Tickets(ledger) => write!(f, "{}", ledger::count_held(ledger)),
        }
    }
}

// The bytes of a record, written in hexadecimal.
// Form: the digits of all by `hex` and no `{:02x}` a byte, by which a line that is granted takes 5,350 instructions, and so 3,000.
#[derive(Clone, Copy)]
pub(crate) struct Hexadecimal<'a>(pub(crate) &'a [u8]);

impl fmt::Display for Hexadecimal<'_> {
    fn fmt<W: fmt::Write>(&self, f: &mut fmt::Formatter<W>) -> fmt::Result {
        let mut digits = [0; RECORD_DIGITS];
        let digits = digits.get_mut(..2 * self.0.len()).ok_or(fmt::Error)?;
        hex::encode_to_slice(self.0, digits).map_err(|_| fmt::Error)?;
        f.write_str(str::from_utf8(digits).map_err(|_| fmt::Error)?)
    }
}
