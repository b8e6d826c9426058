//! The relay as one hop finds it, and the addresses that its book gives.
ghost use Rattle.std.specs.Prelude.{◌≡◌};
ghost use Rattle.std.specs.Option.{option_map};
ghost use Rattle.relay_node.specs.Relay.{relay_at, embedded_in, extracted, source_addr, own_of, exit_of};

use crate::RelayParams;
use hops::Exit;
use octets::{Addr4, Addr6, Mtus};
use rule_book::{FarOf, RuleView};
use std::marker::Model;

/// The relay as one hop finds it: the rules of one view, its own address and MTUs, and the identification of packets that
/// have none of their own.
#[derive(Drop)]
pub struct Relay<'a, V: RuleView> {
    view: &'a V,
    params: RelayParams,
    id: u16,
}

impl<'a, V: RuleView> Model for Relay<'a, V> {
    ghost use Rattle.relay_node.specs.Relay.{Relay as RelayType, relay_at};

    ghost Value = { RelayType };

    ghost view = { λ relay. relay_at (V.rules relay.view.now) (V.default_rule relay.view.now) relay.params relay.id };
}

impl<'a, V: RuleView> Relay<'a, V> {
    /// The relay with these rules, parameters and identification.
    pub fn new(view: &'a V, params: &RelayParams, id: u16) -> Relay<'a, V>
        ensures { result ≡ relay_at (V.rules view.now) (V.default_rule view.now) params.now id }
    {
        Relay {
            view,
            params: *params,
            id,
        }
    }

    /// The greatest packets of its two sides.
    pub(crate) fn mtus(&self) -> Mtus
        ensures { result ≡ self.now.params.mtus }
    {
        self.params.mtus
    }

    /// Its own IPv4 address.
    pub(crate) fn addr4(&self) -> Addr4
        ensures { result ≡ self.now.params.relay4 }
    {
        self.params.relay4
    }

    /// Its own address, embedded under the default mapping rule.
    pub(crate) fn addr6(&self) -> Addr6
        ensures { result ≡ embedded_in self.now.dmr self.now.params.relay4 }
    {
        self.view.dmr().embed(self.params.relay4)
    }

    /// The identification of packets that have none of their own.
    pub(crate) fn id(&self) -> u16
        ensures { result ≡ self.now.id }
    {
        self.id
    }

    /// An IPv4 address, embedded under the default mapping rule.
    pub(crate) fn embedded(&self, addr: Addr4) -> Addr6
        ensures { result ≡ embedded_in self.now.dmr addr }
    {
        self.view.dmr().embed(addr)
    }

    /// The IPv4 address that is embedded in this one under the default mapping rule, if one is.
    pub(crate) fn extracted(&self, addr: Addr6) -> Option<Addr4>
        ensures { option_map (λ inner. inner.0) result ≡ extracted self.now.dmr addr }
    {
        self.view.dmr().extract(addr)
    }

    /// The IPv4 address of which this is a rule's MAP address for the port. One inside the default mapping rule is in no
    /// rule, and has none.
    pub(crate) fn source(&self, addr: Addr6, port: u16) -> Option<Addr4>
        ensures { result ≡ source_addr self.now addr port }
    {
        if self.view.dmr().prefix.has(addr) {
            return None;
        }
        match self.view.far4(addr, port) {
            FarOf::Addr(addr) => Some(addr),
            FarOf::Spoofed | FarOf::NotDefault => None,
        }
    }

    /// The MAP address of this IPv4 address and port, if a rule gives one.
    pub(crate) fn owner(&self, addr: Addr4, port: u16) -> Option<Addr6>
        ensures { option_map (λ own. own.0) result ≡ own_of self.now addr port }
    {
        self.view.owner(addr, port)
    }

    /// Where an IPv4 packet to this destination goes: once more to the relay where a rule's IPv4 prefix has it, and else out
    /// into the core.
    pub(crate) fn exit_to(&self, addr: Addr4) -> Exit
        ensures { result ≡ exit_of self.now.rules addr }
    {
        if self.view.covers4(addr) {
            Exit::ToItself
        } else {
            Exit::ToCore
        }
    }
}
