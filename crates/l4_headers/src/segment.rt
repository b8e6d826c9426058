use crate::L4;
use octets::Proto;

/// What a packet of TCP or UDP carries, once it was read: its transport header, which a later fragment lacks, and all octets
/// behind the headers of IP.
#[derive(Clone, Copy, Debug)]
pub struct Segment<'a> {
    pub proto: Proto,
    pub header: Option<L4>,
    pub payload: &'a [u8],
}
