// The flags of an account, and the sets of accounts (R2.2, R2.3).
ghost use Rattle.std.specs.Prelude.{◌≡◌};
ghost use Rattle.definitions.specs.Accounts.{is_enabled, in_set};
ghost use Rattle.rules.specs.Flags.{has_flag};

use definitions::Account;
use record::has_bit;

// A flag of an account, with its bit (R2.2).
#[derive(Clone, Copy)]
pub(crate) enum Flag {
    Disabled = 0,
    Barred = 1,
    Trusted = 2,
    Service = 3,
}

// Whether an account has a flag.
pub(crate) fn has_flag(account: Account, flag: Flag) -> bool
    ensures { result ≡ has_flag account flag }
{
    has_bit(account.flags as u64, flag as usize)
}

// Whether an account is not disabled.
pub(crate) fn is_enabled(account: Account) -> bool
    ensures { result ≡ is_enabled account }
{
    !has_flag(account, Flag::Disabled)
}

// Whether a set has an account's number.
pub(crate) fn in_set(set: u64, number: usize) -> bool
    ensures { result ≡ in_set set number }
{
    has_bit(set, number)
}
