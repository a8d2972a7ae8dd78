// The name of an account as bytes, read out of its row's words (R2.13).
ghost use Rattle.std.specs.Prelude.{◌≡◌, ◌<◌, ◌≤◌, length};
ghost use Rattle.definitions.specs.Limits.{name_limit, byte_bits};
ghost use Rattle.definitions.specs.Words.{lane_at};
ghost use Rattle.definitions.specs.Accounts.{row_of};
ghost use Rattle.definitions.specs.AccountWords.{row_start, name_at, table_of};
ghost use Rattle.definitions.specs.ReadBack.{padded_name};

use crate::words::{AccountWords, Row, set_row};
use definitions::NAME_LIMIT;

// The bytes that a name has room in, 0 behind it.
// Form: an array with a length answered beside it, and no slice, since the C interface lends just this room, and all of it is written.
pub type NameBytes = [u8; NAME_LIMIT];

impl Row<'_> {
    // A byte of the row's name.
    #[tactic(auto, unfolding(definitions::specs::Words::lane_at, definitions::specs::Words::lane_of))]
    fn name_byte(self, i: usize) -> u8
        requires { i < name_limit }
        ensures { result ≡ lane_at byte_bits self.entry.words.now (row_start self.entry.number) i }
    {
        ((self.word(i / 8) >> (8 * (i % 8))) % 256) as u8
    }

    // The first bytes of the row's name, and 0 behind them.
    fn spell(self, count: usize, name: &mut NameBytes)
        requires { count ≤ name_limit }
        ensures { name.new ≡ padded_name (name_at self.entry.words.now (row_start self.entry.number) count) }
    {
        *name = [0u8; NAME_LIMIT];
        for (i, byte) in name[..count].iter_mut().enumerate() {
            *byte = self.name_byte(i);
        }
    }
}

// Puts the name of an account, 0 behind it, and answers its length; an account that was never set has none.
// Form: no Option, since the name of an account that was never set is the empty one (R2.4), whose length is 0.
pub fn read_name(words: &AccountWords, number: usize, name: &mut NameBytes) -> usize
    ensures length { result ≡ length (row_of (table_of words.now) number).name }
    ensures name { name.new ≡ padded_name (row_of (table_of words.now) number).name }
{
    let Some(row) = set_row(words, number) else {
        *name = [0u8; NAME_LIMIT];
        return 0;
    };
    let count = row.length() as usize;
    row.spell(count, name);
    count
}
