// The request writer: the parts of a request and any output to the request's bytes, 60 or 52 (R4.8).
ghost use Rattle.std.specs.Prelude.{◌≡◌, [], ◌∷◌, ◌^◌, ◌≤◌, ◌<◌, length};
ghost use Rattle.definitions.specs.Fields.{field_at, bytes_to};
ghost use Rattle.definitions.specs.Requests.{request_layout};
ghost use Rattle.definitions.specs.RequestWriting.{drafted, part_values, number_fits, numbers_fit, record_fits, request_written, request_output};
ghost use Rattle.record.specs.Cursor.{map_with, parts_fit, writable_map, Wrote};
ghost use Rattle.record.specs.Drafts.{size_of, ShortParts};

use crate::form::Form;
use crate::present;
use crate::reader::read_ticket;
use crate::request::{LAYOUT, needed_bits, path_of};
use crate::writer::put;
use definitions::{Draft, Error, Kind, TWO_8, TWO_32};

// The map of a kind with a mask of fields, if there is one.
#[tactic(auto, using(crate::proofs::Cursor::map_no_kind, crate::proofs::Cursor::map_above), unfolding(crate::specs::Cursor::map_with))]
fn map_with(kind: u32, fields: u32) -> Option<u16>
    ensures { result ≡ map_with kind fields }
{
    let kind = Kind::try_from(kind).ok()?;
    let fields = u8::try_from(fields).ok()?;
    let map = needed_bits(kind) | u16::from(fields);
    path_of(kind, map)?;
    Some(map)
}

// Whether a number, or a length, has room in the head of its field, or is 0 where the field does not stand.
// Form: the bit is a number with a `requires`, here and in `record_fits`, as the methods of `Form` take it: an enum of the fields would be the same number again.
#[tactic(auto, unfolding(definitions::specs::RequestWriting::number_fits))]
fn number_fits(map: u16, bit: usize, room: u64, number: u64) -> bool
    requires { (bit < length request_layout) × (room ≡ 256 ^ (field_at request_layout bit).head) }
    ensures { result ≡ number_fits request_layout map bit number }
{
    if present(map, bit) {
        number < room
    } else {
        number == 0
    }
}

// Whether the numbers and the lengths of a draft fit.
#[tactic(auto, unfolding(definitions::specs::RequestWriting::numbers_fit))]
fn numbers_fit(map: u16, draft: Draft) -> bool
    ensures { result ≡ numbers_fit request_layout map (part_values (drafted draft.entry)) 8 }
{
    number_fits(map, 0, TWO_8, draft.kind as u64)
        && number_fits(map, 1, TWO_32, draft.options as u64)
        && number_fits(map, 2, TWO_32, draft.pac_options as u64)
        && number_fits(map, 3, TWO_32, draft.till as u64)
        && number_fits(map, 4, TWO_8, draft.tgt.len() as u64)
        && number_fits(map, 5, TWO_8, draft.evidence.len() as u64)
        && number_fits(map, 6, TWO_8, draft.user.len() as u64)
        && number_fits(map, 7, TWO_8, draft.service.len() as u64)
}

// Whether the ticket reader takes the record of a field that stands.
#[tactic(auto, unfolding(definitions::specs::RequestWriting::record_fits))]
fn record_fits(map: u16, bit: usize, bytes: &[u8]) -> bool
    requires { bit < length request_layout }
    ensures { result ≡ record_fits map bit bytes.now }
{
    !present(map, bit) || read_ticket(bytes).is_ok()
}

// Whether the parts of a draft fit the fields of a map.
fn draft_fits(map: u16, draft: Draft) -> bool
    ensures { result ≡ parts_fit map (drafted draft.entry) }
{
    numbers_fit(map, draft) && record_fits(map, 4, draft.tgt) && record_fits(map, 5, draft.evidence)
}

// The map of a draft that a readable request has.
fn writable_map(draft: Draft) -> Option<u16>
    ensures { result ≡ writable_map (drafted draft.entry) }
{
    let map = map_with(draft.kind, draft.fields)?;
    draft_fits(map, draft).then_some(map)
}

// The bytes of a draft with a map.
fn request_size(map: u16, draft: Draft) -> usize
    requires { ShortParts (drafted draft) }
    ensures { result ≡ size_of map (drafted draft.entry) }
{
    let form = Form {
        layout: &LAYOUT,
        map,
    };
    2 + form.size(0, 0)
        + form.size(1, 0)
        + form.size(2, 0)
        + form.size(3, 0)
        + form.size(4, draft.tgt.len())
        + form.size(5, draft.evidence.len())
        + form.size(6, draft.user.len())
        + form.size(7, draft.service.len())
}

// Puts the request of a draft that fits, front to back, and returns its length.
fn put_request(out: &mut [u8], map: u16, draft: Draft) -> usize
    requires short { ShortParts (drafted draft) }
    requires room { size_of map (drafted draft) ≤ length out.old }
    ensures { Wrote out.old 0 (bytes_to request_layout map (part_values (drafted draft.entry)) 8) out.new result }
{
    let form = Form {
        layout: &LAYOUT,
        map,
    };
    let mut at = 0;
    put(out, &mut at, 2, map as u32);
    form.put(out, &mut at, 0, draft.kind, b"");
    form.put(out, &mut at, 1, draft.options, b"");
    form.put(out, &mut at, 2, draft.pac_options, b"");
    form.put(out, &mut at, 3, draft.till, b"");
    form.put(out, &mut at, 4, draft.tgt.len() as u32, draft.tgt);
    form.put(out, &mut at, 5, draft.evidence.len() as u32, draft.evidence);
    form.put(out, &mut at, 6, draft.user.len() as u32, draft.user);
    form.put(out, &mut at, 7, draft.service.len() as u32, draft.service);
    at
}

// The request of a draft, at the start of the output; 60 where no readable request has its parts, then 52 to an output shorter than it.
pub fn write_request(draft: Draft, out: &mut [u8]) -> Result<usize, Error>
    ensures answer { result ≡ request_written (drafted draft.entry) (length out.old) }
    ensures output { out.new ≡ request_output (drafted draft.entry) out.old }
{
    let map = writable_map(draft).ok_or(Error::KRB_ERR_GENERIC)?;
    if out.len() < request_size(map, draft) {
        return Err(Error::KRB_ERR_RESPONSE_TOO_BIG);
    }
    Ok(put_request(out, map, draft))
}
