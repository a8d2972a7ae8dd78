// Which account a name stands for (R2.6, R2.7, R2.11). Names are compared as words.
ghost use Rattle.std.specs.Prelude.{◌≡◌, true, false, ◌<◌, ◌≤◌, MatchOption, IfSome, unwrap_or};
ghost use Rattle.definitions.specs.Limits.{account_limit};
ghost use Rattle.definitions.specs.AccountWords.{row_start, row_word, row_at, name_at, set_length, table_of};
ghost use Rattle.definitions.specs.Names.{agree, matches, find_name, name_taken};
ghost use Rattle.rules.specs.NameSearch.{bytes_of, words_agree, first_bytes, cut_word, first_match};

use crate::letters::words_match;
use crate::words::{AccountWords, Row};
use definitions::{ACCOUNT_LIMIT, Name};
use record::{pack_name, set_length};

// Whether the bytes of two words agree, with letter case ignored or not.
// Form: a flag and no closure, since the definitions have the flag, and a closure would need its own contract at each of the two callers of `Row::same_name`.
fn words_agree(ignore: bool, a: u64, b: u64) -> bool
    ensures { result ≡ words_agree ignore a b }
{
    if ignore { words_match(a, b) } else { a == b }
}

// All bits of the first bytes of a word, as many as are counted, or of all eight.
#[tactic(auto, using(crate::proofs::NameSearch::bytes_shifted))]
fn first_bytes(count: usize) -> u64
    requires { 0 < count }
    ensures { result ≡ first_bytes count }
{
    u64::MAX >> (8 * 8usize.saturating_sub(count))
}

// A name of a length that names have.
#[derive(Clone, Copy)]
pub(crate) struct SetName {
    pub(crate) name: Name,
    ghost set: { set_length name.length ≡ true },
}

impl SetName {
    // The name, where its length is that of one.
    fn of(name: Name) -> Option<SetName>
        ensures { MatchOption result (set_length name.length ≡ false) (λ it. it.name ≡ name) }
    {
        if set_length(name.length) {
            Some(SetName { name })
        } else {
            None
        }
    }
}

impl Row<'_> {
    // Whether a word of the row agrees with that of a name of a length, as far as the name goes, which may end before that word.
    fn same_word(self, k: usize, ignore: bool, word: u64, length: usize) -> bool
        requires { k < 3 }
        ensures { result ≡ words_agree ignore (cut_word length k (row_word self.entry.words.now self.entry.number k)) (cut_word length k word) }
    {
        if length <= 8 * k {
            return true;
        }
        let mask = first_bytes(length - 8 * k);
        words_agree(ignore, self.word(k) & mask, word & mask)
    }

    // Whether the row, whose length is that of a name, has its bytes, with letter case ignored or not. The last word comes first: names of one length
    // mostly differ at their end.
    pub(crate) fn same_name(self, ignore: bool, name: SetName) -> bool
        ensures { result ≡ agree ignore (name_at self.entry.words.now (row_start self.entry.number) name.name.length) (bytes_of name.name) name.name.length }
    {
        let name = name.name;
        self.same_word(2, ignore, name.third, name.length)
            && self.same_word(1, ignore, name.second, name.length)
            && self.same_word(0, ignore, name.first, name.length)
    }

    // Whether the row is set and matches a name. Of most rows only the length is looked at, which is a byte and is compared as one.
    fn matches(self, name: SetName) -> bool
        ensures { result ≡ matches (row_at self.entry.words.now self.entry.number) (bytes_of name.name) }
    {
        self.length() == name.name.length as u8 && self.same_name(true, name)
    }
}

// The lowest account, other than one that may be given, that is set and matches a name.
fn first_match(words: &AccountWords, name: SetName, except: Option<usize>) -> Option<usize>
    ensures exact { result ≡ first_match words.now (bytes_of name.name) except }
    ensures bounded { IfSome result (λ number. number < account_limit) }
{
    (0..ACCOUNT_LIMIT).find(
        |&number|
            requires { number < account_limit }
        { Row { words, number }.matches(name) && except != Some(number) },
    )
}

// The lowest account that is set and matches a name in words. A length that no name has is found nowhere.
#[tactic(auto, using(crate::proofs::NameSearch::first_found))]
pub(crate) fn find_packed(words: &AccountWords, name: Name) -> Option<usize>
    ensures exact { unwrap_or result account_limit ≡ find_name (table_of words.now) (bytes_of name) }
    ensures bounded { IfSome result (λ number. number < account_limit) }
{
    first_match(words, SetName::of(name)?, None)
}

// The account that a name stands for, one past the last where it is unknown.
// Form: 64 and no Option, since R2.11 answers an unknown name so, and the C interface passes that number on.
pub fn find_name(words: &AccountWords, bytes: &[u8]) -> usize
    ensures exact { result ≡ find_name (table_of words.now) bytes.now }
    ensures bounded { result ≤ account_limit }
{
    find_packed(words, pack_name(bytes)).unwrap_or(ACCOUNT_LIMIT)
}

// Whether another account than a given one is set and matches a name.
#[tactic(auto, using(crate::proofs::NameSearch::first_taken))]
pub(crate) fn name_taken(words: &AccountWords, number: usize, name: SetName) -> bool
    ensures { result ≡ name_taken number 0 (table_of words.now) (bytes_of name.name) }
{
    first_match(words, name, Some(number)).is_some()
}
