// Edits of accounts (R2.8, R2.9).
ghost use Rattle.std.specs.Prelude.{◌≡◌, true, false, ◌<◌, ◌≤◌, MatchOption};
ghost use Rattle.definitions.specs.Limits.{account_limit, all_flags};
ghost use Rattle.definitions.specs.AccountWords.{table_of, store_row, stored_by};
ghost use Rattle.definitions.specs.Names.{name_of};
ghost use Rattle.rules.specs.NameSearch.{bytes_of};
ghost use Rattle.definitions.specs.Edits.{edit_by, readable_edit, keeps_name, edit_answer, edit_row, edited};

use crate::check::ensure;
use crate::name::{SetName, name_taken};
use crate::words::{AccountWords, Row, put_row};
use definitions::{ALL_FLAGS, Edit, Error, LAST_ACCOUNT, Settings, TWO_8, TWO_32};
use record::{good_name, pack_name, set_length};

// An edit that is readable: it has an account's number, a good name, in words, and no other flags than the four.
#[derive(Clone, Copy)]
struct GoodEdit {
    number: usize,
    name: SetName,
    settings: Settings,
    ghost within: { number < account_limit },
    ghost packed: { name_of (bytes_of name.name) ≡ name.name },
    ghost flagged: { settings.flags ≤ all_flags },
}

impl GoodEdit {
    ghost use Rattle.rules.specs.GoodEdits.{edit_in};

    // The edit, if it is readable. What is not is known before its name is packed.
    fn read(edit: Edit) -> Option<GoodEdit>
        ensures { let brought = edit_by edit.entry in MatchOption result (readable_edit brought ≡ false) (λ good. (edit_in good ≡ brought) × (readable_edit brought ≡ true)) }
    {
        if edit.number <= LAST_ACCOUNT && good_name(edit.name) && edit.settings.flags <= ALL_FLAGS {
            let name = SetName {
                name: pack_name(edit.name),
            };
            return Some(GoodEdit {
                number: edit.number as usize,
                name,
                settings: edit.settings,
            });
        }
        None
    }

    // Whether the account is not set yet, or has this name, byte for byte.
    fn keeps_name(self, words: &AccountWords) -> bool
        ensures { result ≡ keeps_name (table_of words.now) (edit_in self) }
    {
        let row = Row {
            words,
            number: self.number,
        };
        let stored = row.length();
        if stored == self.name.name.length as u8 {
            row.same_name(false, self.name)
        } else {
            !set_length(stored as usize)
        }
    }

    // Stores the row; an edit leaves the last two of its words alone.
    fn store(self, words: &mut AccountWords)
        ensures { words.new ≡ store_row words.old self.number (edit_row (edit_in self)) }
    {
        let name = self.name.name;
        let set = self.settings;
        let detail = name.length as u64 + TWO_8 * set.flags as u64 + TWO_32 * set.lifetime as u64;
        let row = [
            name.first,
            name.second,
            name.third,
            detail,
            set.send,
            set.receive,
        ];
        put_row(words, self.number, row);
    }
}

// Sets one account whole, or refuses.
#[tactic(auto, unfolding(definitions::specs::Edits::edit_checks))]
pub fn edit_account(words: &mut AccountWords, edit: Edit) -> Result<(), Error>
    ensures answer { result ≡ edit_answer (table_of words.old) (edit_by edit.entry) }
    ensures words { words.new ≡ stored_by result words.old (edit_by edit.entry) }
    ensures table { table_of words.new ≡ edited (table_of words.old) (edit_by edit.entry) }
{
    let edit = GoodEdit::read(edit).ok_or(Error::KRB_ERR_GENERIC)?;
    ensure(edit.keeps_name(words), Error::KDC_ERR_POLICY)?;
    ensure(
        !name_taken(words, edit.number, edit.name),
        Error::KDC_ERR_PRINCIPAL_NOT_UNIQUE,
    )?;
    edit.store(words);
    Ok(())
}
