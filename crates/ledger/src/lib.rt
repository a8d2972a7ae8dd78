// Layer 3, the ledger: the tickets held, in words that the caller lends; the calls, descent and day total (R7).
#![tactic(auto)]

mod call;
mod clearing;
mod closing;
mod held;
mod search;
mod steps;
mod storing;
mod total;
mod words;

pub use call::{clear, demand_3, edit, fresh, request};
pub use held::{first_held, held_at};
pub use steps::descent;
pub use total::day_total;
pub use words::{LedgerWords, count_held};
