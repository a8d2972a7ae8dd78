// Whether two words, eight bytes of a name each, match (R2.12).
ghost use Rattle.std.specs.Prelude.{◌≡◌};
ghost use Rattle.definitions.specs.Names.{words_match};
ghost use Rattle.rules.specs.LetterCase.{keep_of};

// The bits of a word that count beside another word: all but 0x20 in each byte that is a letter. Under 0x5F a letter is 0x41 to 0x5A, so that the one
// sum sets its 0x80 and the other does not; no sum leaves its byte, since 0x5F + 0x3F is below 0x100.
#[tactic(auto, unfolding(crate::specs::LetterCase::keep_in, crate::specs::LetterCase::letters_in, crate::specs::Lanes::all_lanes))]
fn keep(word: u64) -> u64
    ensures { result ≡ keep_of word }
{
    let lettered = word & 0x5F5F5F5F5F5F5F5F;
    let from_a = lettered + 0x3F3F3F3F3F3F3F3F;
    let past_z = lettered + 0x2525252525252525;
    let letters = ((from_a ^ past_z) & (word ^ 0x8080808080808080)) & 0x8080808080808080;
    !(letters >> 2)
}

// Whether the bytes of two words match at each of the eight places.
pub fn words_match(a: u64, b: u64) -> bool
    ensures { result ≡ words_match a b }
{
    let mask = keep(b);
    a & mask == b & mask
}
