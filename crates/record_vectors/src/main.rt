// Answers vectors over the record layer (R3, R4, and the records of R11.3). Each line of standard input is one vector; standard output has
// the line again, then ` -> ` and the answer.
//
//     ticket RECORD        the ticket reader's number, and after 0 the ticket's fields
//     write SIZE RECORD    the ticket of a record that reads, written to an output of SIZE bytes, 0 to 40, that held 0xee: the record's
//                          length or the refusal's number, and the output
//     value SIZE VALUE     the same for any ticket value
//     same VALUE VALUE     1 where two ticket values are equal, else 0
//     request BYTES        the request reader's number, and after 0 the request's fields
//
// One space parts the words. Those after the first are hexadecimal, in lower case, and `-` is no bytes. SIZE is one byte. A VALUE is 31 bytes:
// number 2, flags 4, client 1, service 1, start 4, end 4, origin 1 (initial 0, direct 1, self 2, delegated 3), TGT 2, evidence 2, hops 1,
// trail 8, barred 1. A digit that is not hexadecimal counts as 0, and one that is missing too. A line of no form is answered by `?`, and an empty
// line ends the input, as its end does; what stands behind it is left to the next reader of the input. The files `stdin` and `stdout` come from a
// second implementation (harness/src/bin/record_vectors.rs).
#![tactic(auto)]

ghost use Rattle.std.specs.Prelude.{◌<◌, ◌≤◌};
ghost use Rattle.record_vectors.specs.declared.TheConstants.{LONGEST_WORD};

use definitions::{Error, Origin, Request, TRAIL_LIMIT, Ticket, Window};
use std::io::Read;
use std::{fmt, io};

// The bytes of the longest line; a longer one is as many lines as it has such parts.
const LONGEST_LINE: usize = 1024;

// The bytes of the longest record or request; those that follow them are not read.
const LONGEST_WORD: usize = 320;

// The bytes of the longest output; there is no answer for a longer one.
const LONGEST_OUTPUT: usize = 40;

// A line of the input.
#[derive(Drop)]
enum Vector {
    Ticket(Word),
    Write(u8, Word),
    Value(u8, Ticket),
    Same(Ticket, Ticket),
    Request(Word),
}

impl Vector {
    // The first letter of a line tells its form, and each form has its words at fixed places.
    fn parse(line: &[u8]) -> Option<Self> {
        Some(match line {
            [b't', ..] => Vector::Ticket(Digits::of(line, 7).bytes()),
            [b'w', ..] => Vector::Write(Digits::of(line, 6).byte(), Digits::of(line, 9).bytes()),
            [b'v', ..] => Vector::Value(Digits::of(line, 6).byte(), Digits::of(line, 9).ticket()),
            [b's', ..] => Vector::Same(Digits::of(line, 5).ticket(), Digits::of(line, 68).ticket()),
            [b'r', ..] => Vector::Request(Digits::of(line, 8).bytes()),
            _ => return None,
        })
    }
}

// The answer to a vector.
#[derive(Drop)]
struct Answer(Vector);

impl fmt::Display for Answer {
    fn fmt<W: fmt::Write>(&self, f: &mut fmt::Formatter<W>) -> fmt::Result {
        match &self.0 {
            Vector::Ticket(record) => {
                let reading = record::read_ticket(record.as_slice());
                write!(f, "{}", Reading(reading.map(TicketFields)))
            }
            Vector::Write(size, record) => {
                let reading = record::read_ticket(record.as_slice());
                let ticket = reading.unwrap_or(record::blank_ticket());
                write!(f, "{}", Written(ticket, *size))
            }
            Vector::Value(size, ticket) => write!(f, "{}", Written(*ticket, *size)),
            Vector::Same(left, right) => write!(f, "{}", u8::from(left == right)),
            Vector::Request(bytes) => {
                let reading = record::read_request(bytes.as_slice());
                write!(f, "{}", Reading(reading.map(RequestFields)))
            }
        }
    }
}

// ---- Words of a line.

// The bytes of a record or a request.
// Form: an array with a length and no Vec, since the program runs without an allocator (D138).
#[derive(Drop)]
struct Word {
    bytes: [u8; LONGEST_WORD],
    length: usize,
    ghost within: { length ≤ LONGEST_WORD },
}

impl Word {
    fn as_slice(&self) -> &[u8] {
        &self.bytes[..self.length]
    }
}

// The digits that a line has from a position on.
#[derive(Clone, Copy)]
struct Digits<'a> {
    rest: &'a [u8],
}

impl<'a> Digits<'a> {
    fn of(line: &'a [u8], position: usize) -> Self {
        Digits {
            rest: line.get(position..).unwrap_or(b""),
        }
    }

    // The byte of the first two digits.
    fn byte(self) -> u8 {
        match self.rest {
            [] => 0,
            [high] => 16 * digit_value(*high),
            [high, low, ..] => 16 * digit_value(*high) + digit_value(*low),
        }
    }

    // The bytes of all digits, two a byte.
    fn bytes(self) -> Word {
        let pairs = self.rest.chunks_exact(2);
        let length = pairs.len().min(LONGEST_WORD);
        let mut bytes = [0; LONGEST_WORD];
        for (byte, rest) in bytes.iter_mut().zip(pairs) {
            *byte = Digits { rest }.byte();
        }
        Word { bytes, length }
    }

    // Takes the digits of some bytes from the front.
    fn take<const N: usize>(&mut self) -> [u8; N] {
        let mut bytes = [0; N];
        for byte in &mut bytes {
            *byte = self.byte();
            *self = Digits::of(self.rest, 2);
        }
        bytes
    }

    // The ticket of a value.
    fn ticket(mut self) -> Ticket {
        let number = u16::from_be_bytes(self.take());
        let flags = u32::from_be_bytes(self.take());
        let [client, service] = self.take::<2>();
        let start = u32::from_be_bytes(self.take());
        let end = u32::from_be_bytes(self.take());
        let [origin] = self.take::<1>();
        let tgt = u16::from_be_bytes(self.take());
        let evidence = u16::from_be_bytes(self.take());
        let [hops] = self.take::<1>();
        let trail = self.take();
        let [barred] = self.take::<1>();
        Ticket {
            number,
            flags,
            client,
            service,
            window: Window { start, end },
            // Form: a match and no TryFrom, since a number is no origin without its back numbers, and every number above 2 is the last one.
            origin: match origin {
                0 => Origin::Initial,
                1 => Origin::Direct(tgt),
                2 => Origin::S4U2self(tgt),
                _ => Origin::Delegated(tgt, evidence),
            },
            trail,
            hops,
            barred: barred == 1,
        }
    }
}

// The value of a hexadecimal digit in lower case, 0 of another byte.
// Form: a match by hand, since any other byte counts as 0 in these lines, and `to_digit` and the crate `hex` take capitals and refuse the rest.
fn digit_value(digit: u8) -> u8
    ensures { result < 16 }
{
    match digit {
        b'0'..=b'9' => digit - b'0',
        b'a'..=b'f' => digit - b'a' + 10,
        _ => 0,
    }
}

// ---- Words of an answer.

// Bytes, two digits each, or `-` where there is none.
#[derive(Clone, Copy)]
struct Spelled<'a>(&'a [u8]);

impl fmt::Display for Spelled<'_> {
    fn fmt<W: fmt::Write>(&self, f: &mut fmt::Formatter<W>) -> fmt::Result {
        if self.0.is_empty() {
            return write!(f, "-");
        }
        for byte in self.0 {
            write!(f, "{byte:02x}")?;
        }
        Ok(())
    }
}

// What a reader answers: the refusal's number, or 0 and the fields of what it reads.
#[derive(Clone, Copy)]
struct Reading<T>(Result<T, Error>);

impl<T: fmt::Display> fmt::Display for Reading<T> {
    fn fmt<W: fmt::Write>(&self, f: &mut fmt::Formatter<W>) -> fmt::Result {
        match &self.0 {
            Ok(fields) => write!(f, "0 {fields}"),
            Err(error) => write!(f, "{}", u32::from(*error)),
        }
    }
}

// The fields of a ticket: back numbers that there are none of as 0, and of the trail its accounts.
#[derive(Clone, Copy)]
struct TicketFields(Ticket);

impl fmt::Display for TicketFields {
    fn fmt<W: fmt::Write>(&self, f: &mut fmt::Formatter<W>) -> fmt::Result {
        let ticket = self.0;
        let origin = match ticket.origin {
            Origin::Initial => "initial",
            Origin::Direct(_) => "direct",
            Origin::S4U2self(_) => "self",
            Origin::Delegated(_, _) => "delegated",
        };
        let accounts = &ticket.trail[..usize::from(ticket.hops).min(TRAIL_LIMIT)];
        write!(
            f,
            "number={} flags={:08x} client={} service={} start={} end={} origin={origin} tgt={} evidence={} trail={} barred={}",
            ticket.number,
            ticket.flags,
            ticket.client,
            ticket.service,
            ticket.window.start,
            ticket.window.end,
            record::tgt_of(ticket.origin),
            record::evidence_of(ticket.origin),
            Spelled(accounts),
            u8::from(ticket.barred)
        )
    }
}

// What the writer answers of a ticket for an output of so many bytes, and the output after it.
#[derive(Clone, Copy)]
struct Written(Ticket, u8);

impl fmt::Display for Written {
    fn fmt<W: fmt::Write>(&self, f: &mut fmt::Formatter<W>) -> fmt::Result {
        let Written(ticket, size) = *self;
        let mut space = [0xEE; LONGEST_OUTPUT];
        let Some(output) = space.get_mut(..usize::from(size)) else {
            return Ok(());
        };
        match record::write_ticket(ticket, output) {
            Ok(length) => write!(f, "{length} {}", Spelled(output)),
            Err(error) => write!(f, "{} {}", u32::from(error), Spelled(output)),
        }
    }
}

// The fields of a request: a ticket by its number, a name by where it starts and how many bytes it has.
#[derive(Clone, Copy)]
struct RequestFields(Request);

impl fmt::Display for RequestFields {
    fn fmt<W: fmt::Write>(&self, f: &mut fmt::Formatter<W>) -> fmt::Result {
        let Request {
            kind,
            options,
            pac_options,
            till,
            tgt,
            evidence,
            user,
            service,
        } = self.0;
        write!(
            f,
            "kind={} options={options:08x} pac={pac_options:08x} till={till} tgt={} evidence={} user={}+{} service={}+{}",
            u8::from(kind),
            tgt.number,
            evidence.number,
            user.at,
            user.len,
            service.at,
            service.len
        )
    }
}

// ---- Lines.

// Takes the next byte of the input, if there is one, and none behind it.
// Form: by hand, since a buffer reads ahead (D153), and `bytes` and `read_until` try a read again that a signal interrupts (D58).
fn next_byte(input: &mut impl Read) -> io::Result<Option<u8>> {
    let mut byte = [0];
    let read = input.read(&mut byte)?;
    Ok((read > 0).then_some(byte[0]))
}

// Reads a line into a space, without the byte that ends it; it is empty where the input has ended.
// Form: the space is lent and no Vec is made, since the program runs without an allocator (D138).
fn read_line<'a>(input: &mut impl Read, space: &'a mut [u8; LONGEST_LINE]) -> io::Result<&'a [u8]> {
    for (at, place) in space.iter_mut().enumerate() {
        match next_byte(input)? {
            None | Some(b'\n') => return Ok(&space[..at]),
            Some(byte) => *place = byte,
        }
    }
    Ok(space)
}

// Prints a line and its answer.
fn answer_line(rt: &impl Print, line: &[u8]) -> io::Result<()> {
    rt.write_all(line)?;
    match Vector::parse(line) {
        Some(vector) => println!(rt; " -> {}", Answer(vector)),
        None => println!(rt; " -> ?"),
    }
}

// Form: the turns are counted, since nothing says that an input ends, and every loop has to.
fn main(rt: HostRuntime) -> io::Result<()> {
    let mut input = rt.reader();
    let mut space = [0; LONGEST_LINE];
    for _ in 0..u64::MAX {
        let line = read_line(&mut input, &mut space)?;
        if line.is_empty() {
            break;
        }
        answer_line(&rt, line)?;
    }
    Ok(())
}
