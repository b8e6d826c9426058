ghost use Rattle.std.specs.Prelude.{◌≡◌};

use crate::{FragAsk, FragKey};
use l4_headers::Ports;
use octets::Bytes;

/// A fragment that a node asks about, whose octets stay where they lie. Only where it has to wait are they copied.
#[derive(Clone, Copy, Debug)]
pub enum Fragment<'a> {
    /// The first fragment of a packet, with the ports that stand in it.
    First(FragKey, Ports),
    /// A later fragment, with its octets as the node took it.
    Later(FragKey, &'a Bytes),
}

impl FragAsk {
    ghost use Rattle.frag_table.specs.Fragment.{frag_ask};

    /// The fragment that is asked about.
    pub fn fragment(&self) -> Fragment<'_>
        ensures { frag_ask result ≡ self.now }
    {
        match self {
            FragAsk::First(key, ports) => Fragment::First(*key, *ports),
            FragAsk::Later(key, octets) => Fragment::Later(*key, octets),
        }
    }
}
