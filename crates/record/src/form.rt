// The form of a record or a request: which fields it may have, and the map of those that it has (R3.1, R4.1). Reader and writer go through the
// bytes by it, field by field, with a cursor.
ghost use Rattle.std.specs.Prelude.{◌≡◌, true, ◌+◌, ◌^◌, ◌≤◌, ◌<◌, length};
ghost use Rattle.definitions.specs.Fields.{field_at, field_bytes, offset_of};
ghost use Rattle.record.specs.Cursor.{all_small, cursor_most, field_size, Taken, Counted, Wrote};

use crate::writer::{copy, put};
use crate::{number, present};
use definitions::{Field, Span};

// The fields by map bit, each with few bytes, and the map.
#[derive(Clone, Copy)]
pub(crate) struct Form<'a> {
    pub(crate) layout: &'a [Field],
    pub(crate) map: u16,
    ghost few: { length layout.now ≤ 16 },
    ghost small: { all_small layout.now ≡ true },
}

impl<'a> Form<'a> {
    // Takes the field of a map bit at the cursor: the number in its head, 0 where it does not stand.
    // Form: the bit is a number with a `requires`, here and below: one form serves two tables of fields, and an enum of each would be the same number again, made at each call.
    #[tactic(auto, using(crate::proofs::Cursor::small_at, crate::proofs::Cursor::units_few))]
    pub(crate) fn take(self, bytes: &[u8], bit: usize, at: &mut usize) -> u32
        requires row { bit < length self.layout.now }
        requires start { at.old ≡ offset_of self.layout.now bytes.now self.map bit }
        requires bounded { at.old ≤ cursor_most bit }
        ensures { Taken self.entry.layout.now bytes.now self.entry.map bit result at.new }
    {
        if !present(self.map, bit) {
            return 0;
        }
        let field = self.layout[bit];
        let value = number(bytes, *at, field.head);
        *at = *at + field.head + field.unit * (value % 256) as usize;
        value
    }

    // Takes it, and tells where the bytes lie that it counts behind its head.
    #[tactic(auto, using(crate::proofs::Cursor::small_at, crate::proofs::Cursor::units_few))]
    pub(crate) fn take_counted(self, bytes: &[u8], bit: usize, at: &mut usize) -> Span
        requires row { bit < length self.layout.now }
        requires start { at.old ≡ offset_of self.layout.now bytes.now self.map bit }
        requires bounded { at.old ≤ cursor_most bit }
        ensures { Counted self.entry.layout.now bytes.now self.entry.map bit result at.new }
    {
        let start = *at;
        let count = self.take(bytes, bit, at);
        if !present(self.map, bit) {
            return Span { at: 0, len: 0 };
        }
        let field = self.layout[bit];
        Span {
            at: start + field.head,
            len: field.unit * (count % 256) as usize,
        }
    }

    // The bytes of the field of a map bit that counts so many behind its head, 0 where it does not stand.
    #[tactic(auto, using(crate::proofs::Cursor::small_at))]
    pub(crate) fn size(self, bit: usize, many: usize) -> usize
        requires row { bit < length self.layout.now }
        requires few { many < 256 }
        ensures exact { result ≡ field_size self.entry.layout.now self.entry.map bit many }
        ensures bounded { result < 260 }
    {
        if present(self.map, bit) {
            self.layout[bit].head + many
        } else {
            0
        }
    }

    // Puts the field of a map bit at the cursor, if it stands: the number in its head, and the bytes behind it.
    // Form: output and cursor stand apart and in no struct, since the contract speaks of the output before and after, which a struct would have lent.
    #[tactic(auto, using(crate::proofs::Cursor::small_at))]
    pub(crate) fn put(self, out: &mut [u8], at: &mut usize, bit: usize, number: u32, behind: &[u8])
        requires row { bit < length self.layout.now }
        requires room { at.old + field_size self.layout.now self.map bit (length behind.now) ≤ length out.old }
        ensures put { Wrote out.old at.old (field_bytes self.entry.layout.now self.entry.map bit (record { number = number; counted = behind.now })) out.new at.new }
        ensures past { at.new ≡ at.old + field_size self.entry.layout.now self.entry.map bit (length behind.now) }
        ensures most { at.new ≤ at.old + (field_at self.entry.layout.now bit).head + length behind.now }
    {
        if present(self.map, bit) {
            put(out, at, self.layout[bit].head, number);
            copy(out, at, behind);
        }
    }
}
