//! What the relay makes of packets from each of its sides.
ghost use Rattle.std.specs.Prelude.{◌≡◌, OnOk, List, ℕ};
ghost use Rattle.std.specs.Option.{option_map};
ghost use Rattle.hops.specs.Gains.{Gains};

use crate::relay::Relay;
use hops::{Answering, Carries, Emission, Side};
use l4_headers::Ports;
use octets::NoMemory;
use rule_book::RuleView;

/// A side of the relay: the access network, or IPv4.
pub(crate) trait RelaySide<V: RuleView>: Side {
    ghost use Rattle.octets.specs.declared.cause.Cause.{Cause as AnyCause};
    ghost use Rattle.l4_headers.specs.declared.ports.Ports.{Ports as AnyPorts};
    ghost use Rattle.hops.specs.declared.answering.Answering.{Answering as AnsweringOf};
    ghost use Rattle.hops.specs.declared.hop.Hop.{Hop as AnyHop};
    ghost use Rattle.relay_node.specs.Relay.{Relay as AnyRelay};

    /// What the packet in these octets becomes where its flow has these ports.
    ghost Becomes: { AnyRelay → Self.Packet → List ℕ → AnyPorts → AnyHop → Type 0 };

    /// How the relay answers a packet of this header that it drops.
    ghost answering: { AnyRelay → Self.Head → AnsweringOf Self.Addr };

    /// The hop carries the packet in these octets too, of a flow with these ports.
    fn carry(
        relay: &Relay<'_, V>,
        packet: &Self::Packet,
        octets: &[u8],
        ports: Ports,
        hop: &mut Emission,
    ) -> Result<(), NoMemory>
        requires { Self.IsPacket packet.now octets.now }
        ensures { OnOk result (Gains (Becomes relay.now packet.now octets.now ports) hop.old hop.new) };

    /// How it answers a packet of this header that it drops.
    fn answering(relay: &Relay<'_, V>, head: &Self::Head) -> Answering<Self::Addr>
        ensures { result ≡ answering relay.now head.now };
}

/// Packets of a flow with these ports at the relay.
#[derive(Drop)]
pub(crate) struct AtRelay<'a, V: RuleView> {
    pub(crate) relay: &'a Relay<'a, V>,
    pub(crate) ports: Ports,
}

impl<V: RuleView, S: RelaySide<V>> Carries<S> for AtRelay<'_, V> {
    ghost Becomes = { λ at p octets hop. S.Becomes at.relay.now p octets at.ports hop };

    fn carry(&self, packet: &S::Packet, octets: &[u8], hop: &mut Emission) -> Result<(), NoMemory> {
        S::carry(self.relay, packet, octets, self.ports, hop)
    }
}
