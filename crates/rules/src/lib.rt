// Layer 2, the rules: accounts and names in words that the caller lends, edits, the checks and the four decisions (R2, R5, R6). What layer 3
// needs of records and requests comes through here.
#![tactic(auto)]

mod accounts;
mod check;
mod decision;
mod edit;
mod letters;
mod name;
mod options;
mod question;
mod routes;
mod spelt;
mod tickets;
mod windows;
mod words;

pub use check::check_room;
pub use edit::edit_account;
pub use letters::words_match;
pub use name::find_name;
pub use options::CNAME_IN_ADDL_TKT;
pub use question::Question;
pub use record::{
    blank_ticket, evidence_of, read_rest, request_path, tgt_of, trail_word, write_ticket,
};
pub use spelt::{NameBytes, read_name};
pub use words::{AccountWords, account_at, fresh_accounts};
