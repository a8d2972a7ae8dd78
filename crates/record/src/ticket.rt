// What a ticket value tells: the map and the back numbers of its origin, and its trail as a word; and the blank ticket (R3.2, R3.3).
ghost use Rattle.std.specs.Prelude.{◌≡◌, ◌<◌, length};
ghost use Rattle.definitions.specs.Limits.{trail_limit, byte_bits};
ghost use Rattle.definitions.specs.Fields.{Bytes};
ghost use Rattle.definitions.specs.Words.{pack_at};
ghost use Rattle.definitions.specs.TicketRecords.{origin_map, tgt_of, evidence_of, blank_ticket};

use definitions::{Origin, Principal, TRAIL_LIMIT, Ticket, Window};

// The map of an origin, without the barred mark.
pub(crate) fn origin_map(origin: Origin) -> u16
    ensures exact { result ≡ origin_map origin }
    ensures bounded { result < 0x0800 }
{
    match origin {
        Origin::Initial => 0x0037,
        Origin::Direct(_) => 0x007F,
        Origin::S4U2self(_) => 0x047F,
        Origin::Delegated(_, _) => 0x01FF,
    }
}

// The number of the TGT that a ticket rests on, 0 of an initial ticket.
// Form: 0 and no Option, here and of the evidence, since a back number that the origin does not have is 0 (R7.7).
pub fn tgt_of(origin: Origin) -> u16
    ensures { result ≡ tgt_of origin }
{
    match origin {
        Origin::Initial => 0,
        Origin::Direct(tgt) => tgt,
        Origin::S4U2self(tgt) => tgt,
        Origin::Delegated(tgt, _) => tgt,
    }
}

// The number of the evidence that a ticket rests on, 0 where there is none.
pub fn evidence_of(origin: Origin) -> u16
    ensures { result ≡ evidence_of origin }
{
    match origin {
        Origin::Initial => 0,
        Origin::Direct(_) => 0,
        Origin::S4U2self(_) => 0,
        Origin::Delegated(_, evidence) => evidence,
    }
}

// The places of a trail as one word, the first in its lowest byte.
#[tactic(auto, using(crate::proofs::Copied::word_eight))]
pub fn trail_word(trail: [Principal; TRAIL_LIMIT]) -> u64
    ensures exact { result ≡ pack_at byte_bits trail 0 trail_limit }
    ensures places { (trail_limit ≡ length trail) × Bytes trail }
{
    u64::from_le_bytes(trail)
}

// The ticket that stands where there is none.
pub fn blank_ticket() -> Ticket
    ensures { result ≡ blank_ticket }
{
    let trail = [0u8; TRAIL_LIMIT];
    Ticket {
        number: 0,
        flags: 0,
        client: 0,
        service: 0,
        window: Window { start: 0, end: 0 },
        origin: Origin::Initial,
        trail,
        hops: 0,
        barred: false,
    }
}
