use nat_model::Binding;
use octets::List;

/// A forward of a configuration: a binding that an edge has from the start.
#[derive(Clone, Copy, Debug, PartialEq, Eq)]
pub struct ForwardLine {
    /// The place of the edge among the edges, from 0.
    pub edge: u32,
    /// It is kept and not live, and has the time in microseconds at which it ends.
    pub binding: Binding,
}

/// Forwards in their order.
pub type Forwards = List<ForwardLine>;
