// The calls that a line can make, and how they are read from its words.
use crate::failure::Wrong;
use crate::lines::LONGEST_LINE;
use definitions::{Edit, Kind, Settings};
use rules::CNAME_IN_ADDL_TKT;
use std::num::TryFromIntError;
use std::{array, str};

// The length of the longest name that a request has room for.
pub(crate) const LONGEST_NAME: usize = 255;

// The bytes that the longest line has room for, each of two digits.
pub(crate) const LONGEST_BYTES: usize = LONGEST_LINE / 2;

// The words behind a command that are looked at: as many as the longest call has, and one by which a line has too many.
const ARGUMENTS: usize = 8;

#[derive(Drop)]
pub(crate) enum Command<'a> {
    Fresh,
    Edit(Edit<'a>),
    Find(&'a [u8]),
    Request(Request<'a>),
    Clear(u32),
    Descent(u32),
    Total,
    Ledger,
    Form(Form<'a>),
}

impl<'a> Command<'a> {
    // The call of a line.
    pub(crate) fn parse(line: &'a [u8]) -> Result<Self, Wrong> {
        if line.len() > LONGEST_LINE {
            return Err(Wrong::Long);
        }
        let mut words = Words(Some(line));
        match words.next() {
            Some(b"fresh") => Command::Fresh.alone(&mut words),
            Some(b"edit") => Ok(Command::Edit(edit(&mut words)?)),
            Some(b"find") => Ok(Command::Find(only(&mut words)?)),
            Some(b"request") => Ok(Command::Request(Request::parse(&mut words)?)),
            Some(b"clear") => Ok(Command::Clear(number(only(&mut words)?)?)),
            Some(b"descent") => Ok(Command::Descent(number(only(&mut words)?)?)),
            Some(b"total") => Command::Total.alone(&mut words),
            Some(b"ledger") => Command::Ledger.alone(&mut words),
            Some(b"initial") => Ok(Command::Form(Form::parse(Kind::Initial, &mut words)?)),
            Some(b"direct") => Ok(Command::Form(Form::parse(Kind::Direct, &mut words)?)),
            Some(b"self") => Ok(Command::Form(Form::parse(Kind::S4U2self, &mut words)?)),
            Some(b"proxy") => Ok(Command::Form(Form::parse(Kind::S4U2proxy, &mut words)?)),
            _ => Err(Wrong::Command),
        }
    }

    // A call that has no arguments.
    fn alone(self, words: &mut Words<'_>) -> Result<Self, Wrong> {
        match words.next() {
            None => Ok(self),
            Some(_) => Err(Wrong::Words),
        }
    }
}

// The words of a line that are not yet taken: what is left of it, where anything is.
#[derive(Drop)]
struct Words<'a>(Option<&'a [u8]>);

impl<'a> Words<'a> {
    // Takes the next word.
    fn next(&mut self) -> Option<&'a [u8]> {
        let mut parts = self.0?.splitn(2, |byte| *byte == b' ');
        let word = parts.next();
        self.0 = parts.next();
        word
    }

    // Takes the words that are looked at, each where it is there.
    // Form: an array of them and no Vec, since the program runs without an allocator (D138).
    fn arguments(&mut self) -> [Option<&'a [u8]>; ARGUMENTS] {
        array::from_fn(|_| self.next())
    }
}

// A request as it is sent, still spelled in hexadecimal, and the length of its output.
#[derive(Clone, Copy)]
pub(crate) struct Request<'a> {
    pub(crate) clock: u32,
    pub(crate) room: usize,
    spelled: &'a [u8],
}

impl<'a> Request<'a> {
    fn parse(words: &mut Words<'a>) -> Result<Self, Wrong> {
        let [Some(clock), Some(room), Some(spelled), None, ..] = words.arguments() else {
            return Err(Wrong::Words);
        };
        Ok(Request {
            clock: number(clock)?,
            room: number(room)?,
            spelled,
        })
    }

    // The bytes that are spelled, written into the room.
    pub(crate) fn bytes<'b>(self, room: &'b mut [u8; LONGEST_BYTES]) -> Result<&'b [u8], Wrong> {
        match self.spelled {
            b"" => Err(Wrong::Bytes),
            b"-" => Ok(&[]),
            spelled => {
                let bytes = room.get_mut(..spelled.len() / 2).ok_or(Wrong::Bytes)?;
                hex::decode_to_slice(spelled, bytes).map_err(|_| Wrong::Bytes)?;
                Ok(bytes)
            }
        }
    }
}

// A request that the console writes: its tickets by their numbers, the options that were given, and the name of the user or of the service.
#[derive(Clone, Copy)]
pub(crate) struct Form<'a> {
    pub(crate) kind: Kind,
    pub(crate) clock: u32,
    pub(crate) tgt: Option<u16>,
    pub(crate) evidence: Option<u16>,
    pub(crate) options: Option<u32>,
    pub(crate) pac_options: Option<u32>,
    pub(crate) till: Option<u32>,
    pub(crate) name: &'a [u8],
}

impl<'a> Form<'a> {
    // A request of a kind. Behind the name stand words that need not be there: a hop's PAC options are between its options and its till.
    fn parse(kind: Kind, words: &mut Words<'a>) -> Result<Self, Wrong> {
        let arguments = words.arguments();
        let (clock, tgt, evidence, name, options, pac_options, till) = match (kind, arguments) {
            (Kind::Initial, [Some(clock), Some(user), options, till, None, ..]) => {
                (clock, None, None, user, options, None, till)
            }
            (
                Kind::Direct | Kind::S4U2self,
                [
                    Some(clock),
                    tgt @ Some(_),
                    Some(name),
                    options,
                    till,
                    None,
                    ..
                ],
            ) => (clock, tgt, None, name, options, None, till),
            (
                Kind::S4U2proxy,
                [
                    Some(clock),
                    tgt @ Some(_),
                    evidence @ Some(_),
                    Some(service),
                    options,
                    pac_options,
                    till,
                    None,
                ],
            ) => (clock, tgt, evidence, service, options, pac_options, till),
            _ => return Err(Wrong::Words),
        };
        let usual = match kind {
            Kind::S4U2proxy => Some(CNAME_IN_ADDL_TKT),
            _ => None,
        };
        Ok(Form {
            kind,
            clock: number(clock)?,
            tgt: optional(tgt)?,
            evidence: optional(evidence)?,
            options: optional(options)?.or(usual),
            pac_options: optional(pac_options)?,
            till: optional(till)?,
            name: short(name)?,
        })
    }

    // The map bits of the options that were given.
    pub(crate) fn fields(self) -> u32 {
        u32::from(self.options.is_some()) << 1
            | u32::from(self.pac_options.is_some()) << 2
            | u32::from(self.till.is_some()) << 3
    }
}

// The edit of an account.
fn edit<'a>(words: &mut Words<'a>) -> Result<Edit<'a>, Wrong> {
    let [
        Some(account),
        Some(name),
        Some(flags),
        Some(send),
        Some(receive),
        Some(lifetime),
        None,
        ..
    ] = words.arguments()
    else {
        return Err(Wrong::Words);
    };
    Ok(Edit {
        number: number(account)?,
        name,
        settings: Settings {
            flags: number(flags)?,
            send: number(send)?,
            receive: number(receive)?,
            lifetime: number(lifetime)?,
        },
    })
}

// The one argument of a call.
fn only<'a>(words: &mut Words<'a>) -> Result<&'a [u8], Wrong> {
    match (words.next(), words.next()) {
        (Some(argument), None) => Ok(argument),
        _ => Err(Wrong::Words),
    }
}

// The number that a word is.
fn number<T: TryFrom<u64, Error = TryFromIntError>>(word: &[u8]) -> Result<T, Wrong> {
    whole(word)
        .and_then(|number| T::try_from(number).ok())
        .ok_or(Wrong::Number)
}

// The number that a word is, of any size that there is.
fn whole(word: &[u8]) -> Option<u64> {
    let text = str::from_utf8(word).ok()?;
    let (digits, radix) = match text.strip_prefix("0x") {
        Some(digits) => (digits, 16),
        None => (text, 10),
    };
    if digits.starts_with('+') {
        return None;
    }
    u64::from_str_radix(digits, radix).ok()
}

// The number of a word that need not be there.
fn optional<T: TryFrom<u64, Error = TryFromIntError>>(
    word: Option<&[u8]>,
) -> Result<Option<T>, Wrong> {
    word.map(|word| number(word)).transpose()
}

// A name that a request has room for.
fn short(name: &[u8]) -> Result<&[u8], Wrong> {
    if name.len() <= LONGEST_NAME {
        Ok(name)
    } else {
        Err(Wrong::Name)
    }
}
