use edge_node::Way;

/// Where a packet stands before a node takes it.
#[derive(Clone, Copy, Debug, PartialEq, Eq, Hash)]
pub enum Stand {
    /// At the edge of this number in the order of the setup, by the way that it came there.
    Edge { number: u32, way: Way },
    /// At the relay: a packet of IPv6 from the access network, or else one of IPv4.
    Relay { six: bool },
}

impl Stand {
    ghost use Rattle.std.specs.Prelude.{◌≡◌};
    ghost use Rattle.journeys.specs.Waiting.{turned_at};

    /// Where a packet stands that the node turned which took one here.
    pub fn turned(self) -> Stand
        ensures { result ≡ turned_at self }
    {
        match self {
            Stand::Edge { number, .. } => Stand::Edge {
                number,
                way: Way::Turned,
            },
            Stand::Relay { .. } => Stand::Relay { six: false },
        }
    }
}
