// The day total (R7.5).
ghost use Rattle.std.specs.Prelude.{◌≡◌, ◌<◌};
ghost use Rattle.definitions.specs.Limits.{ticket_limit, two32};
ghost use Rattle.definitions.specs.LedgerWords.{ticket_at, tickets_of};
ghost use Rattle.definitions.specs.Totals.{seconds_of, day_total};

use crate::words::{LedgerWords, Place, count_held};

impl Place {
    // How long it is from the start to the end of its ticket, 0 where its end is not later.
    fn seconds(self, words: &LedgerWords) -> u64
        ensures exact { result ≡ seconds_of (ticket_at words.now self.index).window }
        ensures bounded { result < two32 }
    {
        let window = self.window(words);
        u64::from(window.end.saturating_sub(window.start))
    }
}

// The day total: how long it is from start to end, of all tickets held together.
pub fn day_total(words: &LedgerWords) -> u64
    ensures { result ≡ day_total (tickets_of words.now) }
{
    (0..count_held(words))
        .map(
            |i|
                requires { i < ticket_limit }
            { Place { index: i }.seconds(words) },
        )
        .sum()
}
