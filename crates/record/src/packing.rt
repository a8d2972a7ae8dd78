// Bytes packed into words, eight a word, as names and trails are stored.
ghost use Rattle.std.specs.Prelude.{◌≡◌, ◌+◌, ◌^◌, ◌≤◌, ◌<◌, length};
ghost use Rattle.definitions.specs.Limits.{byte_bits};
ghost use Rattle.definitions.specs.Words.{pack_at};
ghost use Rattle.definitions.specs.Requests.{part_of};
ghost use Rattle.definitions.specs.Names.{name_of};

use definitions::{Name, Span};

// So many bytes from a position on as a word, the first lowest.
fn pack_some(bytes: &[u8], from: usize, count: usize) -> u64
    requires { (count ≤ 8) × (from + count ≤ length bytes.now) }
    ensures exact { result ≡ pack_at byte_bits bytes.now from count }
    ensures bounded { result < 256 ^ count }
{
    let mut word = [0u8; 8];
    word[..count].copy_from_slice(&bytes[from..from + count]);
    u64::from_le_bytes(word)
}

// Eight bytes from a position on as a word, where bytes past the end count as 0. Of eight bytes that end with the last one those before the
// position are shifted out.
pub(crate) fn pack(bytes: &[u8], from: usize) -> u64
    ensures { result ≡ pack_at byte_bits bytes.now from 8 }
{
    let end = bytes.len();
    if end <= from {
        return 0;
    }
    let rest = end - from;
    if 8 <= rest {
        return pack_some(bytes, from, 8);
    }
    if 8 <= end {
        return pack_some(bytes, end - 8, 8) >> (64 - 8 * rest);
    }
    pack_some(bytes, from, rest)
}

// A name in words.
pub fn pack_name(bytes: &[u8]) -> Name
    ensures { result ≡ name_of bytes.now }
{
    Name {
        length: bytes.len(),
        first: pack(bytes, 0),
        second: pack(bytes, 8),
        third: pack(bytes, 16),
    }
}

// The name that a part of a request's bytes is, in words.
pub fn name_in(bytes: &[u8], span: Span) -> Name
    ensures { result ≡ name_of (part_of bytes.now span) }
{
    let end = bytes.len();
    if end <= span.at {
        return pack_name(&bytes[end..]);
    }
    if span.len < end - span.at {
        pack_name(&bytes[span.at..span.at + span.len])
    } else {
        pack_name(&bytes[span.at..])
    }
}
