ghost use Rattle.std.specs.Prelude.{◌≡◌};
ghost use Rattle.setup_tables.specs.declared.fault.SetupFault.TheVariants.{NoMemory as OutOfMemory};

use crate::sentence::Sentence;
use octets::NoMemory;
use std::alloc::{AllocError, AllocFailed};
use thiserror::Error;

/// What is wrong with a configuration, in the order in which it is tested: the first cause over the whole
/// file is told, with its least place. A place is the index of a table in its list, from 0.
#[derive(Clone, Copy, Debug, PartialEq, Eq, Hash)]
pub enum SetupCause {
    /// The text is no TOML. Place 0.
    NotToml,
    /// More than 256 rules, edges or forwards, or more than 64 changes. Place 0.
    TooMany,
    /// `[domain]` isn't as it should be, or a top-level name is unknown. Place 0.
    BadDomain,
    /// A key of this rule isn't as it should be.
    BadRule,
    /// A key of this edge isn't as it should be.
    BadEdge,
    /// A key of this forward isn't as it should be.
    BadForward,
    /// A key of this change isn't as it should be.
    BadChange,
    /// `options` are no hexadecimal octets.
    BadHex,
    /// `options` are no container that is accepted.
    BadContainer,
    /// This rule breaks a shape rule.
    RuleShape,
    /// The IPv4 prefix of this rule overlaps that of an earlier one.
    Overlap4,
    /// The IPv6 prefix of this rule overlaps that of an earlier one.
    Overlap6,
    /// The IPv6 prefix of this rule overlaps that of the default mapping rule.
    OverlapDmr,
    /// This edge has the name of an earlier one.
    EdgeName,
    /// The prefix of this edge is longer than 64 bits or overlaps that of an earlier one.
    EdgeOverlap,
    /// The prefix of this edge overlaps that of the default mapping rule.
    EdgeOverDmr,
    /// No edge has the name that this forward gives.
    ForwardEdge,
    /// The port of this forward isn't claimable at its edge.
    ForwardPort,
    /// An earlier forward has the port or the host's end of this one.
    ForwardTwice,
    /// This change comes before the one that is listed before it.
    ChangeOrder,
    /// The rules refuse this change.
    ChangeRefused,
    /// The generation that was asked for is above the number of changes.
    NoGeneration,
}

/// Why there is no setup. Its text is a sentence that names the element at the place.
#[derive(Clone, Copy, Debug, PartialEq, Eq, Hash, Error)]
pub enum SetupFault {
    /// The configuration is refused for this cause at this place.
    #[error("{sentence}", sentence = Sentence {cause: *.0, place: *.1})]
    Refused(SetupCause, u32),
    /// Memory ran out.
    #[error("out of memory")]
    NoMemory,
}

impl From<NoMemory> for SetupFault {
    ghost from_gives = { λ _ e. e ≡ OutOfMemory };

    fn from(_: NoMemory) -> Self {
        SetupFault::NoMemory
    }
}

impl From<AllocError> for SetupFault {
    ghost from_gives = { λ _ e. e ≡ OutOfMemory };

    fn from(_: AllocError) -> Self {
        SetupFault::NoMemory
    }
}

impl<T: Drop> From<AllocFailed<T>> for SetupFault {
    ghost from_gives = { λ _ e. e ≡ OutOfMemory };

    fn from(_: AllocFailed<T>) -> Self {
        SetupFault::NoMemory
    }
}
