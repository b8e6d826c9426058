use crate::FragKey;
use l4_headers::Ports;
use octets::Parcels;

/// What is known of one packet's fragments.
#[derive(Debug, Drop)]
pub struct Note {
    pub key: FragKey,
    /// When the note goes, in microseconds. It is set when the note is made and never moves.
    pub deadline: u64,
    /// The ports of the first fragment, once it has come.
    pub ports: Option<Ports>,
    /// The later fragments that wait for the first one, in the order in which they came.
    pub held: Parcels,
}
