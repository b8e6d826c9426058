ghost use Rattle.std.specs.Prelude.{◌≡◌, ◌<◌, ◌^◌, ℕ, length, slice_set, Some, None, MatchOption, vec_len, vec_capacity};
ghost use Rattle.std.specs.List.{list_any, position};
ghost use Rattle.rule_book.specs.Holder.{holder_in};
ghost use Rattle.nat_model.specs.declared.binding.Binding.{Binding as BindingType};
ghost use Rattle.nat_model.specs.Binding.{is_of_host, is_of_port};

use crate::timer::timer;
use crate::{Binding, End4};
use map_rules::EdgeId;
use octets::Proto;

/// A host end that wants a binding of this protocol, by preference with this outside port.
#[derive(Clone, Copy, Debug)]
pub(crate) struct Wish {
    pub(crate) proto: Proto,
    pub(crate) near: End4,
    pub(crate) port: u16,
}

/// A binding and its place among the others.
#[derive(Clone, Copy, Debug)]
pub(crate) struct Placed {
    pub(crate) at: usize,
    pub(crate) binding: Binding,
}

/// The place of the binding of this protocol and host end.
pub(crate) fn place_of_host(bindings: &[Binding], proto: Proto, near: End4) -> Option<usize>
    ensures { result ≡ position (is_of_host proto near) bindings.now }
{
    bindings.iter().position(|b| b.is_of_host(proto, near))
}

/// The place of the binding of this protocol and outside port.
pub(crate) fn place_of_port(bindings: &[Binding], proto: Proto, port: u16) -> Option<usize>
    ensures { result ≡ position (is_of_port proto port) bindings.now }
{
    bindings.iter().position(|b| b.is_of_port(proto, port))
}

impl Wish {
    ghost use Rattle.nat_model.specs.Claim.{is_free, least_below, claimed_port, claim, bound, Bound};
    ghost use Rattle.nat_model.specs.Inside.{wish_in};

    /// The binding of the protocol and host end, or else a claim, which is added at the end; `None` where no port
    /// is free. `clock` is the time of the claim.
    pub(crate) fn placed(
        self,
        edge: &EdgeId,
        clock: u64,
        bindings: &mut Vec<Binding>,
    ) -> Option<Placed>
        requires room { vec_len bindings.old < vec_capacity bindings.old }
        requires clock { clock < 2 ^ 63 }
        ensures none { MatchOption result
            ((change : BindingType → BindingType) → bound (holder_in edge.now) clock (wish_in self) change bindings.old.items ≡ None)
            (λ p. p.at < length bindings.new.items) }
        ensures some { MatchOption result
            (bindings.new.items ≡ bindings.old.items)
            (λ p. (change : BindingType → BindingType)
            → bound (holder_in edge.now) clock (wish_in self) change bindings.old.items
            ≡ Some (record { binding = change p.binding; bindings = slice_set bindings.new.items p.at (change p.binding) })) }
    {
        if let Some(at) = place_of_host(bindings, self.proto, self.near) {
            let binding = bindings[at];
            return Some(Placed { at, binding });
        }
        let Some(port) = self.claimed_port(edge, bindings) else {
            return None;
        };
        let at = bindings.len();
        let binding = self.claimed(port, clock);
        bindings.push_reserved(binding);
        Some(Placed { at, binding })
    }

    /// The port of a claim: the one that is wished, where it is free, and else the least that is.
    #[tactic(auto, unfolding(crate::specs::Claim::claimed_port))]
    fn claimed_port(&self, edge: &EdgeId, bindings: &[Binding]) -> Option<u16>
        ensures { result ≡ claimed_port (holder_in edge.now) (wish_in self.now) bindings.now }
    {
        if self.is_free(edge, bindings, self.port) {
            return Some(self.port);
        }
        self.least_free(edge, bindings)
    }

    /// The least port that is free.
    fn least_free(&self, edge: &EdgeId, bindings: &[Binding]) -> Option<u16>
        ensures { result ≡ least_below (is_free (holder_in edge.now) self.now.proto bindings.now) 65536 }
    {
        for i in 0..edge.ports.count() {
            if let Some(port) = edge.ports.at(i) {
                if self.is_free(edge, bindings, port) {
                    return Some(port);
                }
            }
        }
        None
    }

    /// Whether the edge may claim the port, and no binding of the protocol has it.
    fn is_free(&self, edge: &EdgeId, bindings: &[Binding], port: u16) -> bool
        ensures { result ≡ is_free (holder_in edge.now) self.now.proto bindings.now port }
    {
        edge.ports.claimable(port) && !self.is_taken(bindings, port)
    }

    /// Whether a binding of the protocol has the port.
    fn is_taken(&self, bindings: &[Binding], port: u16) -> bool
        ensures { result ≡ list_any (is_of_port self.now.proto port) bindings.now }
    {
        bindings.iter().any(|b| b.is_of_port(self.proto, port))
    }

    /// A claim of this port at this time.
    fn claimed(&self, port: u16, clock: u64) -> Binding
        requires { clock < 2 ^ 63 }
        ensures { result ≡ claim clock (wish_in self.now) port }
    {
        Binding {
            proto: self.proto,
            host: self.near.addr,
            host_port: self.near.port,
            port,
            deadline: clock + timer(self.proto, false),
            live: false,
            kept: false,
        }
    }
}
