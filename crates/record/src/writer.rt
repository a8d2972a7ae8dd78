// The ticket writer: any ticket value and any output to the ticket's record, 60 or 52 (R3.6, R3.7).
ghost use Rattle.std.specs.Prelude.{◌≡◌, ◌+◌, ◌≤◌, ◌<◌, length, drop};
ghost use Rattle.definitions.specs.Limits.{longest_record, trail_limit};
ghost use Rattle.definitions.specs.Fields.{big_endian};
ghost use Rattle.definitions.specs.TicketRecords.{map_for, all_zero, service_fits, well_formed, record_as};
ghost use Rattle.definitions.specs.Output.{written_of, output_of};
ghost use Rattle.record.specs.Cursor.{Wrote};

use crate::form::Form;
use crate::present;
use crate::reader::{LAYOUT, hops_fit};
use crate::ticket::{evidence_of, origin_map, tgt_of, trail_word};
use definitions::{Error, LONGEST_RECORD, Origin, Principal, TRAIL_LIMIT, Ticket};

// The map of an origin, with or without the barred mark.
fn map_for(origin: Origin, barred: bool) -> u16
    ensures { result ≡ map_for origin barred }
{
    let map = origin_map(origin);
    if barred { map + 0x0200 } else { map }
}

// Whether nothing stands behind so many accounts of a trail.
fn zero_behind(trail: [Principal; TRAIL_LIMIT], hops: u8) -> bool
    ensures { result ≡ all_zero (drop hops trail) }
{
    TRAIL_LIMIT <= hops as usize || trail_word(trail) >> (8 * hops as u32) == 0
}

// Whether a service stands only where the map has one.
#[tactic(auto, unfolding(definitions::specs::TicketRecords::service_fits))]
fn service_fits(map: u16, service: u8) -> bool
    ensures { result ≡ service_fits map service }
{
    present(map, 3) || service == 0
}

// Whether the reader can give this ticket.
#[tactic(auto, unfolding(definitions::specs::TicketRecords::well_formed))]
fn well_formed(t: Ticket, map: u16) -> bool
    ensures { result ≡ well_formed t map }
{
    service_fits(map, t.service) && hops_fit(map, t.hops) && zero_behind(t.trail, t.hops)
}

// Puts a number at the cursor, big-endian, in so many bytes.
// Form: output and cursor stand apart and in no struct, here and in `copy`, since the contracts speak of the output before and after, which a struct would have lent.
pub(crate) fn put(out: &mut [u8], at: &mut usize, width: usize, number: u32)
    requires { (at.old + width ≤ length out.old) × (width ≤ 4) }
    ensures put { Wrote out.old at.old (big_endian width number) out.new at.new }
    ensures past { at.new ≡ at.old + width }
{
    let end = *at + width;
    out[*at..end].copy_from_slice(&number.to_be_bytes()[4 - width..]);
    *at = end;
}

// Puts the bytes of a slice at the cursor.
// Form: byte by byte and no `copy_from_slice`, for which the archive for C would need `memmove` from outside, where it needs `memcpy` and `memset`.
pub(crate) fn copy(out: &mut [u8], at: &mut usize, src: &[u8])
    requires { at.old + length src.now ≤ length out.old }
    ensures put { Wrote out.old at.old src.now out.new at.new }
    ensures past { at.new ≡ at.old + length src.now }
{
    let start = *at;
    for (i, byte) in src.iter().enumerate() {
        out[start + i] = *byte;
    }
    *at = start + src.len();
}

// Puts the record of a ticket with a map, front to back, and returns its length.
fn put_record(out: &mut [u8], t: Ticket, map: u16) -> usize
    requires { (longest_record ≤ length out.old) × (t.hops ≤ trail_limit) }
    ensures put { Wrote out.old 0 (record_as t map) out.new result }
    ensures bounded { result ≤ longest_record }
{
    let form = Form {
        layout: &LAYOUT,
        map,
    };
    let mut at = 0;
    put(out, &mut at, 2, map as u32);
    form.put(out, &mut at, 0, t.number as u32, b"");
    form.put(out, &mut at, 1, t.flags, b"");
    form.put(out, &mut at, 2, t.client as u32, b"");
    form.put(out, &mut at, 3, t.service as u32, b"");
    form.put(out, &mut at, 4, t.window.start, b"");
    form.put(out, &mut at, 5, t.window.end, b"");
    form.put(out, &mut at, 6, tgt_of(t.origin) as u32, b"");
    form.put(out, &mut at, 7, evidence_of(t.origin) as u32, b"");
    form.put(out, &mut at, 8, t.hops as u32, &t.trail[..t.hops as usize]);
    at
}

// The record of a ticket, at the start of the output; 60 to a ticket that has none, then 52 to an output shorter than the longest record.
pub fn write_ticket(t: Ticket, out: &mut [u8]) -> Result<usize, Error>
    ensures answer { result ≡ written_of t (length out.old) }
    ensures output { out.new ≡ output_of t out.old }
{
    let map = map_for(t.origin, t.barred);
    if !well_formed(t, map) {
        return Err(Error::KRB_ERR_GENERIC);
    }
    if out.len() < LONGEST_RECORD {
        return Err(Error::KRB_ERR_RESPONSE_TOO_BIG);
    }
    Ok(put_record(out, t, map))
}
