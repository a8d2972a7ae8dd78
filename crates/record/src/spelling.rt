// Which names are good (R2.5).
ghost use Rattle.std.specs.Prelude.{◌≡◌};
ghost use Rattle.definitions.specs.AccountWords.{set_length};
ghost use Rattle.definitions.specs.Names.{good_byte, good_name};

use definitions::NAME_LIMIT;

// Whether a length is that of a name.
pub fn set_length(length: usize) -> bool
    ensures { result ≡ set_length length }
{
    1 <= length && length <= NAME_LIMIT
}

// Whether a byte may stand in a name.
fn good_byte(c: u8) -> bool
    ensures { result ≡ good_byte c }
{
    0x21 <= c && c <= 0x7E && c != 0x40
}

// Whether a name is good: not empty, not too long, all bytes good.
pub fn good_name(name: &[u8]) -> bool
    ensures { result ≡ good_name name.now }
{
    set_length(name.len()) && name.iter().all(|c| good_byte(*c))
}
