use crate::SetupCause;
use std::fmt;

/// Why a configuration or an option file is refused, as a sentence that names the element at its place.
#[derive(Clone, Copy, Debug)]
pub(crate) struct Sentence {
    pub cause: SetupCause,
    pub place: u32,
}

impl fmt::Display for Sentence {
    fn fmt<W: fmt::Write>(&self, f: &mut fmt::Formatter<W>) -> fmt::Result {
        let (cause, place) = (self.cause, self.place);
        match cause {
            SetupCause::NotToml => write!(f, "the configuration is no TOML"),
            SetupCause::TooMany => write!(f, "the configuration has too many tables of a kind"),
            SetupCause::BadDomain => write!(
                f,
                "the domain of the configuration, or a name at its top, is not as it should be"
            ),
            SetupCause::BadRule => write!(f, "rule {place} is not as it should be"),
            SetupCause::BadEdge => write!(f, "edge {place} is not as it should be"),
            SetupCause::BadForward => write!(f, "forward {place} is not as it should be"),
            SetupCause::BadChange => write!(f, "change {place} is not as it should be"),
            SetupCause::BadHex => write!(
                f,
                "the options are no hexadecimal octets from character {place} on"
            ),
            SetupCause::BadContainer => write!(
                f,
                "the options are no container that is accepted, by octet {place}"
            ),
            SetupCause::RuleShape => write!(
                f,
                "the lengths and the offset of rule {place} do not go together"
            ),
            SetupCause::Overlap4 => write!(
                f,
                "the IPv4 prefix of rule {place} overlaps that of an earlier rule"
            ),
            SetupCause::Overlap6 => write!(
                f,
                "the IPv6 prefix of rule {place} overlaps that of an earlier rule"
            ),
            SetupCause::OverlapDmr => write!(
                f,
                "the IPv6 prefix of rule {place} overlaps that of the default mapping rule"
            ),
            SetupCause::EdgeName => write!(f, "edge {place} has the name of an earlier edge"),
            SetupCause::EdgeOverlap => write!(
                f,
                "the prefix of edge {place} is longer than 64 bits or overlaps that of an earlier edge"
            ),
            SetupCause::EdgeOverDmr => write!(
                f,
                "the prefix of edge {place} overlaps that of the default mapping rule"
            ),
            SetupCause::ForwardEdge => write!(f, "forward {place} names no edge"),
            SetupCause::ForwardPort => write!(
                f,
                "the port of forward {place} is not claimable at its edge"
            ),
            SetupCause::ForwardTwice => write!(
                f,
                "forward {place} has the port or the host end of an earlier forward"
            ),
            SetupCause::ChangeOrder => {
                write!(
                    f,
                    "change {place} comes before the one that is listed before it"
                )
            }
            SetupCause::ChangeRefused => write!(f, "the rules refuse change {place}"),
            SetupCause::NoGeneration => write!(f, "the configuration has no generation {place}"),
        }
    }
}
