// The ticket reader: any bytes to a ticket, or 60 (R3.5).
ghost use Rattle.std.specs.Prelude.{◌≡◌, ◌-◌, ◌≤◌, length};
ghost use Rattle.definitions.specs.Limits.{trail_limit};
ghost use Rattle.definitions.specs.TicketRecords.{known_map, hops_fit, origin_as, trail_of, read_ticket};

use crate::form::Form;
use crate::packing::pack;
use crate::{map_of, present};
use definitions::{Error, Field, Origin, Principal, TRAIL_LIMIT, Ticket, Window};

// How many fields a ticket's record has.
const FIELDS: usize = 11;

// Its fields, by map bit (R3.2).
pub(crate) const LAYOUT: [Field; FIELDS] = [
    Field { head: 2, unit: 0 }, // number
    Field { head: 4, unit: 0 }, // flags
    Field { head: 1, unit: 0 }, // client
    Field { head: 1, unit: 0 }, // service
    Field { head: 4, unit: 0 }, // start
    Field { head: 4, unit: 0 }, // end
    Field { head: 2, unit: 0 }, // TGT's number
    Field { head: 2, unit: 0 }, // evidence's number
    Field { head: 1, unit: 1 }, // trail
    Field { head: 0, unit: 0 }, // barred mark
    Field { head: 0, unit: 0 }, // self mark
];

// Whether a map is one of the eight (R3.3).
fn known_map(map: u16) -> bool
    ensures { result ≡ known_map map }
{
    matches!(
        map,
        0x0037 | 0x007F | 0x01FF | 0x0237 | 0x027F | 0x03FF | 0x047F | 0x067F
    )
}

// Whether a trail has 1 to 8 accounts where the map has one, and else none.
#[tactic(auto, unfolding(definitions::specs::TicketRecords::hops_fit))]
pub(crate) fn hops_fit(map: u16, hops: u8) -> bool
    ensures { result ≡ hops_fit map hops }
{
    if present(map, 8) {
        1 <= hops && hops as usize <= TRAIL_LIMIT
    } else {
        hops == 0
    }
}

// The origin that a map stands for, with the back numbers of the record.
#[tactic(auto, unfolding(definitions::specs::TicketRecords::origin_as))]
fn origin_as(map: u16, tgt: u16, evidence: u16) -> Origin
    ensures { result ≡ origin_as map tgt evidence }
{
    if present(map, 10) {
        Origin::S4U2self(tgt)
    } else if present(map, 7) {
        Origin::Delegated(tgt, evidence)
    } else if present(map, 6) {
        Origin::Direct(tgt)
    } else {
        Origin::Initial
    }
}

// The trail as a ticket holds it: its accounts, which are the last bytes of the record, then zeros.
fn trail_of(bytes: &[u8], hops: u8) -> [Principal; TRAIL_LIMIT]
    requires { (hops ≤ trail_limit) × (hops ≤ length bytes.now) }
    ensures { result ≡ trail_of bytes.now (length bytes.now - hops) hops }
{
    pack(bytes, bytes.len() - hops as usize).to_le_bytes()
}

// The ticket of a record, or 60: its fields, front to back, each taken once, with the marks, which have no bytes.
pub fn read_ticket(bytes: &[u8]) -> Result<Ticket, Error>
    ensures { result ≡ read_ticket bytes.now }
{
    let map = map_of(bytes);
    if !known_map(map) {
        return Err(Error::KRB_ERR_GENERIC);
    }
    let form = Form {
        layout: &LAYOUT,
        map,
    };
    let mut at = 2;
    let number = form.take(bytes, 0, &mut at);
    let flags = form.take(bytes, 1, &mut at);
    let client = form.take(bytes, 2, &mut at);
    let service = form.take(bytes, 3, &mut at);
    let start = form.take(bytes, 4, &mut at);
    let end = form.take(bytes, 5, &mut at);
    let tgt = form.take(bytes, 6, &mut at);
    let evidence = form.take(bytes, 7, &mut at);
    let hops = form.take(bytes, 8, &mut at) as u8;
    form.take(bytes, 9, &mut at);
    form.take(bytes, 10, &mut at);
    if !hops_fit(map, hops) || bytes.len() != at {
        return Err(Error::KRB_ERR_GENERIC);
    }
    Ok(Ticket {
        number: number as u16,
        flags,
        client: client as u8,
        service: service as u8,
        window: Window { start, end },
        origin: origin_as(map, tgt as u16, evidence as u16),
        trail: trail_of(bytes, hops),
        hops,
        barred: present(map, 9),
    })
}
