// The accounts' words: a header, and a row of eight words for each account, of which an edit sets six. Offsets are seen here and nowhere else.
ghost use Rattle.std.specs.Prelude.{◌≡◌, ◌<◌, true, MatchOption};
ghost use Rattle.definitions.specs.Limits.{account_limit, row_size};
ghost use Rattle.definitions.specs.Accounts.{never_set, account_at, no_row, row_of};
ghost use Rattle.definitions.specs.Words.{put_row};
ghost use Rattle.definitions.specs.AccountWords.{row_start, row_word, table_of, length_at, set_length, account_in, no_account_words};

use definitions::{
    ACCOUNT_LIMIT, ACCOUNTS_SIZE, Account, DETAIL_WORD, RECEIVE_WORD, ROW_SIZE, ROWS_START,
    SEND_WORD, TWO_8, TWO_32,
};
use record::set_length;

// The words of the header and of all rows.
// Form: an array and no Vec of rows, since the caller lends the memory, and the service has no heap.
pub type AccountWords = [u64; ACCOUNTS_SIZE];

// The row of an account's number.
#[derive(Clone, Copy)]
pub(crate) struct Row<'a> {
    pub(crate) words: &'a AccountWords,
    pub(crate) number: usize,
    ghost within: { number < account_limit },
}

impl Row<'_> {
    // A word of the row; the first three are the name's.
    pub(crate) fn word(self, k: usize) -> u64
        requires { k < row_size }
        ensures { result ≡ row_word self.entry.words.now self.entry.number k }
    {
        self.words[ROWS_START + ROW_SIZE * self.number + k]
    }

    // The stored length of the row's name.
    pub(crate) fn length(self) -> u8
        ensures { result ≡ length_at self.entry.words.now self.entry.number }
    {
        (self.word(DETAIL_WORD) % TWO_8) as u8
    }

    // The account of the row, which is set.
    fn account(self) -> Account
        ensures { result ≡ account_in self.entry.words.now self.entry.number }
    {
        let detail = self.word(DETAIL_WORD);
        Account {
            known: true,
            flags: (detail / TWO_8 % TWO_8) as u8,
            send: self.word(SEND_WORD),
            receive: self.word(RECEIVE_WORD),
            lifetime: (detail / TWO_32 % TWO_32) as u32,
        }
    }
}

// An account that was never set (R2.4).
fn never_set() -> Account
    ensures { result ≡ never_set }
{
    Account {
        known: false,
        flags: 1,
        send: 0,
        receive: 0,
        lifetime: 0,
    }
}

// The row of a number, where there is one and its account is set (R2.4).
pub(crate) fn set_row(words: &AccountWords, number: usize) -> Option<Row<'_>>
    ensures { MatchOption result (row_of (table_of words.now) number ≡ no_row) (λ row. (row.words.now ≡ words.now) × (row.number ≡ number) × (set_length (length_at words.now number) ≡ true)) }
{
    if ACCOUNT_LIMIT <= number {
        return None;
    }
    let row = Row { words, number };
    if set_length(row.length() as usize) {
        Some(row)
    } else {
        None
    }
}

// The account of a number, one never set where there is no such row (R2.4).
pub fn account_at(words: &AccountWords, number: usize) -> Account
    ensures { result ≡ account_at (table_of words.now) number }
{
    match set_row(words, number) {
        Some(row) => row.account(),
        None => never_set(),
    }
}

// Puts the six words of a row that an edit sets.
pub(crate) fn put_row(words: &mut AccountWords, number: usize, row: [u64; 6])
    requires { number < account_limit }
    ensures { words.new ≡ put_row words.old (row_start number) row }
{
    let at = ROWS_START + ROW_SIZE * number;
    words[at..at + 6].copy_from_slice(&row);
}

// A table with no account set (R7.2).
// Form: a line of its own beside the ledger's, since each array has its crate and its definition.
pub fn fresh_accounts(words: &mut AccountWords)
    ensures { words.new ≡ no_account_words }
{
    *words = [0u64; ACCOUNTS_SIZE];
}
