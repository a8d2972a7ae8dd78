// Layer 1, the record layer: ticket records and requests (R3, R4).
// This file holds what both records are made of: a 16-bit map, and the numbers in the heads of its fields.
#![tactic(auto)]

mod errors;
mod form;
mod packing;
mod reader;
mod request;
mod request_writer;
mod spelling;
mod ticket;
mod writer;

ghost use Rattle.std.specs.Prelude.{◌≡◌, ◌&&◌, ◌≤◌, ◌<◌, get_or, length, leb};
ghost use Rattle.definitions.specs.Fields.{has_bit, map_of};
ghost use Rattle.record.specs.Cursor.{cursor_most, Numbered};

pub use definitions::Draft;
pub use errors::answer_number;
pub use packing::{name_in, pack_name};
pub use reader::read_ticket;
pub use request::{read_request, read_rest, request_path};
pub use request_writer::write_request;
pub use spelling::{good_name, set_length};
pub use ticket::{blank_ticket, evidence_of, tgt_of, trail_word};
pub use writer::write_ticket;

// The byte at a position, 0 past the end.
// Form: 0 and no Option, since reading is total, and one test of the length behind the last field decides (R3.5, R4.3).
pub fn byte(bytes: &[u8], at: usize) -> u8
    ensures { result ≡ get_or bytes.now at 0 }
{
    bytes.get(at).copied().unwrap_or(0)
}

// Whether a word has a bit; a bit above 63 stands in no word.
pub fn has_bit(word: u64, k: usize) -> bool
    ensures { result ≡ (leb k 63 && has_bit word k) }
{
    k < 64 && (word >> k) & 1 == 1
}

// Whether a map has a bit.
fn present(map: u16, bit: usize) -> bool
    requires { bit < 16 }
    ensures { result ≡ has_bit map bit }
{
    has_bit(map as u64, bit)
}

// The map in front of a record.
fn map_of(bytes: &[u8]) -> u16
    ensures { result ≡ map_of bytes.now }
{
    u16::from_be_bytes([byte(bytes, 0), byte(bytes, 1)])
}

// The big-endian number of some bytes, 0 where one of them is missing.
// Form: 0 and no Option, since one test of the length behind the last field decides (R3.5, R4.3).
fn number(bytes: &[u8], at: usize, width: usize) -> u32
    requires { (at ≤ cursor_most 16) × (width ≤ 4) }
    ensures { Numbered bytes.now at width result }
{
    if bytes.len() < at + width {
        return 0;
    }
    let mut head = [0u8; 4];
    head[4 - width..].copy_from_slice(&bytes[at..at + width]);
    u32::from_be_bytes(head)
}
