// The bits of ticket flags, options and PAC options, each by its name (R3.4, R4.4).
ghost use Rattle.std.specs.Prelude.{◌≡◌, cond};
ghost use Rattle.definitions.specs.Options.{flags_of};
ghost use Rattle.rules.specs.Flags.{has_option, mask_of};

use record::has_bit;

// A bit of a ticket's flags, of a request's options or of its PAC options.
#[derive(Clone, Copy)]
pub(crate) enum Bit {
    CnameInAddlTkt = 17,
    Initial = 22,
    ResourceBased = 28,
    Forwardable = 30,
}

// The option that a request's evidence names the client.
pub const CNAME_IN_ADDL_TKT: u32 = 1 << Bit::CnameInAddlTkt as u32;

impl Bit {
    // Whether it stands in flags or options.
    pub(crate) fn is_in(self, bits: u32) -> bool
        ensures { result ≡ has_option self bits }
    {
        has_bit(bits as u64, self as usize)
    }

    // The flags that have it alone, or none.
    fn given(self, stands: bool) -> u32
        ensures { result ≡ cond stands (mask_of self) 0 }
    {
        (stands as u32) << self as u32
    }
}

// The flags of a new ticket.
pub(crate) fn flags_of(forwardable: bool, initial: bool) -> u32
    ensures { result ≡ flags_of forwardable initial }
{
    Bit::Forwardable.given(forwardable) + Bit::Initial.given(initial)
}
