use crate::exit::Exit;
use octets::Mtus;

/// How a node answers a packet that it drops: with an error from this address, which tells of its MTUs, has this
/// identification where it is one over IPv4, and leaves here.
#[derive(Clone, Copy, Debug)]
pub struct Answering<A> {
    pub mtus: Mtus,
    pub src: A,
    pub id: u16,
    pub exit: Exit,
}
