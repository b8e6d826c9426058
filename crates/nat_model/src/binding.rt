ghost use Rattle.std.specs.Prelude.{◌≡◌, ◌<◌, ◌^◌};

use crate::End4;
use crate::timer::timer;
use map_rules::EdgeId;
use octets::{Addr4, List, Proto};

/// A binding: packets of the protocol from this host and port leave from the outside port, and packets to the
/// outside port arrive there (RFC 4787, section 2; RFC 6146, section 3.1).
#[derive(Clone, Copy, Debug, PartialEq, Eq, Hash)]
pub struct Binding {
    pub proto: Proto,
    /// The inside address.
    pub host: Addr4,
    /// The inside port, or the identifier of ICMP queries.
    pub host_port: u16,
    /// The outside port, or identifier.
    pub port: u16,
    /// The time at which it ends, in microseconds.
    pub deadline: u64,
    /// An established connection of TCP.
    pub live: bool,
    /// It outlives a change of the edge's address or ports where its own port may still be claimed.
    pub kept: bool,
}

/// Bindings in the order in which they were made.
pub type Bindings = List<Binding>;

impl Binding {
    ghost use Rattle.rule_book.specs.Holder.{holder_in};
    ghost use Rattle.nat_model.specs.Binding.{is_of_host, is_of_port, is_unexpired, outlives, refreshed, entered, kept_until};

    /// Whether it is of this protocol and host end.
    pub(crate) fn is_of_host(&self, proto: Proto, near: End4) -> bool
        ensures { result ≡ is_of_host proto near self.now }
    {
        self.proto == proto && self.host == near.addr && self.host_port == near.port
    }

    /// Whether it is of this protocol and outside port.
    pub(crate) fn is_of_port(&self, proto: Proto, port: u16) -> bool
        ensures { result ≡ is_of_port proto port self.now }
    {
        self.proto == proto && self.port == port
    }

    /// Whether its deadline is still to come.
    pub(crate) fn is_unexpired(&self, clock: u64) -> bool
        ensures { result ≡ is_unexpired clock self.now }
    {
        clock < self.deadline
    }

    /// Whether it outlives a change to what this edge holds.
    pub(crate) fn outlives(&self, edge: &EdgeId) -> bool
        ensures { result ≡ outlives (holder_in edge.now) self.now }
    {
        self.kept && edge.ports.claimable(self.port)
    }

    /// It, refreshed by a flow at this time.
    pub(crate) fn refreshed(self, clock: u64) -> Binding
        requires { clock < 2 ^ 63 }
        ensures { result ≡ refreshed clock self }
    {
        let deadline = clock + timer(self.proto, self.live);
        Binding {
            deadline: self.deadline.max(deadline),
            ..self
        }
    }

    /// It after an inward packet at this time: a flow of TCP makes it live and refreshes it, and an error or
    /// another flow leaves it as it is.
    pub(crate) fn entered(self, fault: bool, clock: u64) -> Binding
        requires { clock < 2 ^ 63 }
        ensures { result ≡ entered fault clock self }
    {
        if fault || self.proto != Proto::Tcp {
            return self;
        }
        let live = Binding { live: true, ..self };
        live.refreshed(clock)
    }

    /// It, kept at least until then.
    pub(crate) fn kept_until(self, until: u64) -> Binding
        ensures { result ≡ kept_until until self }
    {
        Binding {
            deadline: self.deadline.max(until),
            kept: true,
            ..self
        }
    }
}
