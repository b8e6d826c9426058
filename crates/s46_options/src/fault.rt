ghost use Rattle.std.specs.Prelude.{◌≡◌};
ghost use Rattle.s46_options.specs.declared.fault.OptionFault.TheVariants.{NoMemory as OutOfMemory};

use octets::NoMemory;
use std::alloc::{AllocError, AllocFailed};
use thiserror::Error;

/// Why octets are no container: the first fault from the left. A number is a place in octets, from 0.
#[derive(Clone, Copy, Debug, PartialEq, Eq, Hash, Error)]
pub enum OptionFault {
    /// Fewer than 4 octets, or fewer than the container announces. The number is how many there are.
    #[error("it has only {0} octets")]
    Short(u32),
    /// The code isn't 95, S46_CONT_MAPT. The number is the code.
    #[error("its code is {0}")]
    NotMapt(u16),
    /// The length field at the place doesn't fit what stands around it or in it.
    #[error("the length at {0} does not fit")]
    BadLength(u32),
    /// A reserved flag is set.
    #[error("a reserved flag at {0} is set")]
    Reserved(u32),
    /// A prefix length, an EA length, an offset or a PSID length is over its bound.
    #[error("the number at {0} is over its bound")]
    BadPrefixLen(u32),
    /// The first octet with a bit set past a prefix or a PSID.
    #[error("the octet at {0} has a bit set past its prefix")]
    Padding(u32),
    /// The port parameters that start here are the second ones of their rule.
    #[error("the port parameters at {0} are the second ones")]
    SecondParams(u32),
    /// The default mapping rule that starts here is the second one.
    #[error("the default mapping rule at {0} is the second one")]
    SecondDmr(u32),
    /// The rule that starts here is the 257th.
    #[error("the rule at {0} is one too many")]
    TooManyRules(u32),
    /// There is no rule.
    #[error("it has no rule")]
    NoRule,
    /// There is no default mapping rule.
    #[error("it has no default mapping rule")]
    NoDmr,
    /// Memory ran out.
    #[error("out of memory")]
    NoMemory,
}

impl OptionFault {
    ghost use Rattle.s46_options.specs.Digits.{fault_place};

    /// The place of the fault in a text of so many octets: 0 where the code is another one, and the end where
    /// there is no rule or no default mapping rule.
    pub fn place(self, len: u32) -> u32
        ensures { result ≡ fault_place self len }
    {
        match self {
            OptionFault::Short(at)
            | OptionFault::BadLength(at)
            | OptionFault::Reserved(at)
            | OptionFault::BadPrefixLen(at)
            | OptionFault::Padding(at)
            | OptionFault::SecondParams(at)
            | OptionFault::SecondDmr(at)
            | OptionFault::TooManyRules(at) => at,
            OptionFault::NoRule | OptionFault::NoDmr => len,
            OptionFault::NotMapt(_) | OptionFault::NoMemory => 0,
        }
    }
}

impl From<NoMemory> for OptionFault {
    ghost from_gives = { λ _ e. e ≡ OutOfMemory };

    fn from(_: NoMemory) -> Self {
        OptionFault::NoMemory
    }
}

impl From<AllocError> for OptionFault {
    ghost from_gives = { λ _ e. e ≡ OutOfMemory };

    fn from(_: AllocError) -> Self {
        OptionFault::NoMemory
    }
}

impl<T: Drop> From<AllocFailed<T>> for OptionFault {
    ghost from_gives = { λ _ e. e ≡ OutOfMemory };

    fn from(_: AllocFailed<T>) -> Self {
        OptionFault::NoMemory
    }
}
