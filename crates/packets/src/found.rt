use octets::Cause;

/// Octets as a node finds them, read once: a packet that it takes, or one that every node drops before it looks at a rule.
#[derive(Debug, Drop)]
pub enum Found<P, H> {
    /// This packet.
    Taken(P),
    /// No header that a node takes, for this cause.
    Unreadable(Cause),
    /// A packet of these headers, with this cause behind them.
    Dropped(Cause, H),
}
