// The request reader: any bytes to a request, or 60 (R4.3).
ghost use Rattle.std.specs.Prelude.{◌≡◌, ◌==◌, if◌then◌else◌, ◌+◌, ◌≤◌, ◌<◌, length};
ghost use Rattle.definitions.specs.Fields.{map_of, end_of, field_of};
ghost use Rattle.record.specs.Cursor.{parts_of};
ghost use Rattle.definitions.specs.Requests.{request_layout, kind_number, needed_bits, map_fits, path_if, path_of, embedded_in, request_for, read_request};

use crate::form::Form;
use crate::reader::read_ticket;
use crate::ticket::blank_ticket;
use crate::{map_of, present};
use definitions::{Error, Field, Kind, Request, Span, Ticket};

// The map bits that a request of a kind needs, and those that it may have (R4.2).
#[derive(Clone, Copy)]
struct Maps {
    needed: u16,
    allowed: u16,
}

// Those of each kind, in the order of the kinds.
const MAPS: [Maps; 4] = [
    Maps {
        needed: 0x41,
        allowed: 0x4B,
    }, // initial
    Maps {
        needed: 0x91,
        allowed: 0x9B,
    }, // direct
    Maps {
        needed: 0x51,
        allowed: 0x5B,
    }, // S4U2self
    Maps {
        needed: 0xB3,
        allowed: 0xBF,
    }, // S4U2proxy
];

// The fields of a request, by map bit (R4.1).
pub(crate) const LAYOUT: [Field; 8] = [
    Field { head: 1, unit: 0 }, // kind
    Field { head: 4, unit: 0 }, // options
    Field { head: 4, unit: 0 }, // PAC options
    Field { head: 4, unit: 0 }, // till
    Field { head: 1, unit: 1 }, // TGT
    Field { head: 1, unit: 1 }, // evidence
    Field { head: 1, unit: 1 }, // name of the user
    Field { head: 1, unit: 1 }, // name of the service
];

// The map bits that a kind needs.
pub(crate) fn needed_bits(kind: Kind) -> u16
    ensures { result ≡ needed_bits (kind_number kind) }
{
    MAPS[kind as usize].needed
}

// Whether a map has the bits that a kind needs, and none beyond those that it may have.
#[tactic(auto, unfolding(definitions::specs::Requests::map_fits))]
fn map_fits(kind: Kind, map: u16) -> bool
    ensures { result ≡ map_fits (kind_number kind) map }
{
    let maps = MAPS[kind as usize];
    maps.needed & map == maps.needed && maps.allowed & map == map
}

// A kind where the table has the map.
fn path_if(kind: Kind, map: u16) -> Option<Kind>
    ensures { result ≡ path_if (map_fits (kind_number kind) map) kind }
{
    map_fits(kind, map).then_some(kind)
}

// A kind where the map is of it. A range also holds maps that are not of the kind, so the table decides.
// Form: not the table alone, since a rule of the project asks for kind and ranges of maps to be matched (D48).
#[tactic(auto, using(definitions::proofs::Requests::path_table, definitions::proofs::Requests::path_below, definitions::proofs::Requests::path_above))]
pub(crate) fn path_of(kind: Kind, map: u16) -> Option<Kind>
    ensures { result ≡ path_of (kind_number kind) map }
{
    match kind {
        Kind::Initial => match map {
            0x41..=0x4B => path_if(kind, map),
            _ => None,
        },
        Kind::Direct => match map {
            0x91..=0x9B => path_if(kind, map),
            _ => None,
        },
        Kind::S4U2self => match map {
            0x51..=0x5B => path_if(kind, map),
            _ => None,
        },
        Kind::S4U2proxy => match map {
            0xB3..=0xBF => path_if(kind, map),
            _ => None,
        },
    }
}

// The numbers and the parts of a request.
#[derive(Clone, Copy)]
struct Parts {
    options: u32,
    pac_options: u32,
    till: u32,
    tgt: Span,
    evidence: Span,
    user: Span,
    service: Span,
}

// The fields of a request, front to back, each taken once; none where the bytes are too few or too many.
fn parts_of(bytes: &[u8], map: u16) -> Option<Parts>
    ensures { result ≡ (if length bytes.now == end_of request_layout bytes.now map then Some (parts_of bytes.now map) else None) }
{
    let form = Form {
        layout: &LAYOUT,
        map,
    };
    let mut at = 2;
    form.take(bytes, 0, &mut at);
    let options = form.take(bytes, 1, &mut at);
    let pac_options = form.take(bytes, 2, &mut at);
    let till = form.take(bytes, 3, &mut at);
    let tgt = form.take_counted(bytes, 4, &mut at);
    let evidence = form.take_counted(bytes, 5, &mut at);
    let user = form.take_counted(bytes, 6, &mut at);
    let service = form.take_counted(bytes, 7, &mut at);
    (bytes.len() == at).then_some(Parts {
        options,
        pac_options,
        till,
        tgt,
        evidence,
        user,
        service,
    })
}

// The ticket of a part of the request, a blank one where the map has none, or 60.
// Form: the bit is a number with a `requires`, as the methods of `Form` take it: an enum of the fields would be the same number again.
fn embedded_in(bytes: &[u8], map: u16, bit: usize, span: Span) -> Result<Ticket, Error>
    requires { (bit < 8) × (span.at + span.len ≤ length bytes.now) }
    ensures { result ≡ embedded_in bytes.now map bit span }
{
    if present(map, bit) {
        read_ticket(&bytes[span.at..span.at + span.len])
    } else {
        Ok(blank_ticket())
    }
}

// The kind that the first bytes pick; where they pick none, the request is refused.
#[tactic(auto, using(definitions::proofs::Requests::path_no_kind, definitions::proofs::Requests::kind_read))]
pub fn request_path(bytes: &[u8]) -> Option<Kind>
    ensures { result ≡ path_of (field_of request_layout bytes.now (map_of bytes.now) 0) (map_of bytes.now) }
{
    let map = map_of(bytes);
    let form = Form {
        layout: &LAYOUT,
        map,
    };
    let mut at = 2;
    let number = form.take(bytes, 0, &mut at);
    let kind = Kind::try_from(number).ok()?;
    path_of(kind, map)
}

// The request of the bytes, of the kind that they pick, or 60.
pub fn read_rest(bytes: &[u8], kind: Kind) -> Result<Request, Error>
    ensures { result ≡ request_for bytes.now (map_of bytes.now) (Some kind) }
{
    let map = map_of(bytes);
    let parts = parts_of(bytes, map).ok_or(Error::KRB_ERR_GENERIC)?;
    let tgt = embedded_in(bytes, map, 4, parts.tgt)?;
    let evidence = embedded_in(bytes, map, 5, parts.evidence)?;
    Ok(Request {
        kind,
        options: parts.options,
        pac_options: parts.pac_options,
        till: parts.till,
        tgt,
        evidence,
        user: parts.user,
        service: parts.service,
    })
}

// The request of the bytes, or 60.
pub fn read_request(bytes: &[u8]) -> Result<Request, Error>
    ensures { result ≡ read_request bytes.now }
{
    let kind = request_path(bytes).ok_or(Error::KRB_ERR_GENERIC)?;
    read_rest(bytes, kind)
}
