ghost use Rattle.std.specs.Prelude.{◌≡◌, IfSome};

use crate::ports::{NO_PORTS, Ports};

/// The addresses and ports that a translated packet gets: its own, and those of the packet that an error embeds, whose ports
/// these are then. Of a query the source port is the identifier; only an error has inner addresses.
#[derive(Clone, Copy, Debug, PartialEq, Eq, Hash)]
pub struct Ends<A> {
    pub src: A,
    pub dst: A,
    pub inner_src: A,
    pub inner_dst: A,
    pub ports: Ports,
}

impl<A: Copy> Ends<A> {
    /// The ends of a packet of TCP or UDP, which has no inner ones that mean anything, and where it is a later fragment no ports.
    pub fn between(src: A, dst: A, ports: Option<Ports>) -> Ends<A>
        ensures source { result.src ≡ src }
        ensures destination { result.dst ≡ dst }
        ensures ports { IfSome ports (λ given. result.ports ≡ given) }
    {
        Ends {
            src,
            dst,
            inner_src: src,
            inner_dst: dst,
            ports: ports.unwrap_or(NO_PORTS),
        }
    }
}
