ghost use Rattle.std.specs.Prelude.{◌≡◌, ◌<◌, ◌≤◌, ◌^◌, List, IfOk, OnOk, OnErr, vec_len, vec_capacity};
ghost use Rattle.frag_table.specs.declared.note.Note.{Note as NoteType};
ghost use Rattle.nat_model.specs.declared.binding.Binding.{Binding as BindingType};
ghost use Rattle.rule_book.specs.Holder.{holder_in};
ghost use Rattle.nat_model.specs.State.{generation_in, state_at};
ghost use Rattle.nat_model.specs.Fragment.{part_of, ports_of, frag_ask_of};
ghost use Rattle.nat_model.specs.Inside.{wish_in, remote_in};

use crate::claim::{Wish, place_of_host, place_of_port};
use crate::fragment::{fragment_of, ports_of};
use crate::remote::{Remote, far_port, remote_of, sent};
use crate::{Answer, Ask, Binding, End4};
use frag_table::{FragAnswer, FragTable};
use l4_headers::Ports;
use map_rules::EdgeId;
use octets::{Cause, NoMemory, Parcels, Proto};
use rule_book::Book;
use std::alloc::Global;

/// What a step goes by: what the edge holds, the rules, the time in microseconds, and where lists take memory.
#[derive(Drop)]
pub(crate) struct Standing<'a> {
    pub(crate) edge: EdgeId,
    pub(crate) book: &'a Book,
    pub(crate) clock: u64,
    pub(crate) alloc: Global,
}

/// An inward packet: whether it is an error, its protocol and its ports, which its fragment step may have told.
#[derive(Clone, Copy)]
struct Inbound {
    fault: bool,
    proto: Proto,
    ports: Ports,
}

/// A packet, and all that it frees, is dropped.
pub(crate) fn refused(cause: Cause, freed: Parcels) -> Answer
    ensures { result ≡ Answer.Refused cause freed }
{
    Answer::Refused { cause, freed }
}

impl Standing<'_> {
    ghost use Rattle.nat_model.specs.Machine.{sent_from, sent_flow, sent_error, received, keeps, passed, told, gathered};

    /// An outward flow goes by the binding of its protocol and near end or claims one, and refreshes it.
    #[tactic(auto, unfolding(crate::specs::Machine::sent_flow))]
    fn sent_flow(
        &self,
        wish: Wish,
        far: End4,
        freed: Parcels,
        bindings: &mut Vec<Binding>,
    ) -> Answer
        requires room { vec_len bindings.old < vec_capacity bindings.old }
        requires clock { self.now.clock < 2 ^ 63 }
        ensures { (notes : List NoteType)
            → sent_flow (holder_in self.now.edge)
            (state_at (generation_in self.now.book.now) self.now.clock bindings.old.items notes) (wish_in wish) far freed
            ≡ record { after = state_at (generation_in self.now.book.now) self.now.clock bindings.new.items notes; answer = result } }
    {
        let Some(placed) = wish.placed(&self.edge, self.clock, bindings) else {
            return refused(Cause::NoPort, freed);
        };
        let binding = placed.binding.refreshed(self.clock);
        bindings[placed.at] = binding;
        self.sent_from(&binding, far, freed)
    }

    /// A port is kept: the binding of the protocol and host end, or else a claim.
    #[tactic(auto, unfolding(crate::specs::Machine::keeps))]
    fn keeps(&self, wish: Wish, until: u64, bindings: &mut Vec<Binding>) -> Answer
        requires room { vec_len bindings.old < vec_capacity bindings.old }
        requires clock { self.now.clock < 2 ^ 63 }
        ensures { (notes : List NoteType)
            → keeps (holder_in self.now.edge)
            (state_at (generation_in self.now.book.now) self.now.clock bindings.old.items notes) (wish_in wish) until
            ≡ record { after = state_at (generation_in self.now.book.now) self.now.clock bindings.new.items notes; answer = result } }
    {
        let Some(placed) = wish.placed(&self.edge, self.clock, bindings) else {
            return refused(Cause::NoPort, Parcels::new(self.alloc));
        };
        let binding = placed.binding.kept_until(until);
        bindings[placed.at] = binding;
        Answer::Kept {
            port: binding.port,
            until: binding.deadline,
        }
    }

    /// An outward error goes by the binding of its flow, and changes none.
    #[tactic(auto, unfolding(crate::specs::Machine::sent_error))]
    fn sent_error(&self, wish: Wish, far: End4, freed: Parcels, bindings: &[Binding]) -> Answer
        ensures { (notes : List NoteType)
            → sent_error (holder_in self.now.edge)
            (state_at (generation_in self.now.book.now) self.now.clock bindings.now notes) (wish_in wish) far freed
            ≡ record { after = state_at (generation_in self.now.book.now) self.now.clock bindings.now notes; answer = result } }
    {
        let Some(at) = place_of_host(bindings, wish.proto, wish.near) else {
            return refused(Cause::NoBinding, freed);
        };
        let binding = bindings[at];
        self.sent_from(&binding, far, freed)
    }

    /// What is sent from a binding to the far end.
    fn sent_from(&self, binding: &Binding, far: End4, freed: Parcels) -> Answer
        ensures { (bs : List BindingType) (notes : List NoteType)
            → result ≡ sent_from (holder_in self.now.edge)
            (state_at (generation_in self.now.book.now) self.now.clock bs notes) binding.now far freed }
    {
        let to = End4 {
            addr: far.addr,
            port: far_port(binding.proto, far.port, binding.port),
        };
        sent(&self.edge, self.book, binding.port, to, freed)
    }

    /// An inward packet goes by the binding of its protocol and outside port, and enters it.
    #[tactic(auto, unfolding(crate::specs::Machine::received))]
    fn received(
        &self,
        inbound: Inbound,
        freed: Parcels,
        remote: Remote,
        bindings: &mut Vec<Binding>,
    ) -> Answer
        requires clock { self.now.clock < 2 ^ 63 }
        ensures { (notes : List NoteType)
            → received (state_at (generation_in self.now.book.now) self.now.clock bindings.old.items notes)
            inbound.fault inbound.proto (record { ports = inbound.ports; freed = freed }) (remote_in remote)
            ≡ record { after = state_at (generation_in self.now.book.now) self.now.clock bindings.new.items notes; answer = result } }
    {
        let Some(at) = place_of_port(bindings, inbound.proto, inbound.ports.dst) else {
            return refused(Cause::NoBinding, freed);
        };
        let binding = bindings[at];
        bindings[at] = binding.entered(inbound.fault, self.clock);
        Answer::In {
            to: binding.host,
            port: binding.host_port,
            from: remote.from,
            peer: remote.peer,
            freed,
        }
    }

    /// What becomes of a packet whose ports are known: an inward one is for the flow with its remote addresses, and
    /// each goes by its binding.
    pub(crate) fn passed(
        &self,
        ask: &Ask,
        ports: Ports,
        freed: Parcels,
        bindings: &mut Vec<Binding>,
    ) -> Answer
        requires room { vec_len bindings.old < vec_capacity bindings.old }
        requires clock { self.now.clock < 2 ^ 63 }
        ensures { (notes : List NoteType)
            → passed (holder_in self.now.edge) (state_at (generation_in self.now.book.now) self.now.clock bindings.old.items notes)
            ask.now (record { ports = ports; freed = freed })
            ≡ record { after = state_at (generation_in self.now.book.now) self.now.clock bindings.new.items notes; answer = result } }
    {
        match ask {
            Ask::Outward {
                fault,
                proto,
                near,
                far,
                ..
            } => {
                let near = End4 {
                    addr: near.addr,
                    port: ports.src,
                };
                let wish = Wish {
                    proto: *proto,
                    near,
                    port: ports.src,
                };
                let far = End4 {
                    addr: far.addr,
                    port: ports.dst,
                };
                if *fault {
                    self.sent_error(wish, far, freed, bindings)
                } else {
                    self.sent_flow(wish, far, freed, bindings)
                }
            }
            Ask::Inward {
                fault,
                proto,
                far,
                ..
            } => match remote_of(self.book, far, ports.src) {
                Ok(remote) => {
                    let inbound = Inbound {
                        fault: *fault,
                        proto: *proto,
                        ports,
                    };
                    self.received(inbound, freed, remote, bindings)
                }
                Err(cause) => refused(cause, freed),
            },
            Ask::Keep {
                proto,
                host,
                host_port,
                port,
                until,
            } => {
                let near = End4 {
                    addr: *host,
                    port: *host_port,
                };
                let wish = Wish {
                    proto: *proto,
                    near,
                    port: *port,
                };
                self.keeps(wish, *until, bindings)
            }
        }
    }

    /// What becomes of a fragment, by what its fragment step answers.
    pub(crate) fn told(&self, ask: &Ask, answer: FragAnswer, bindings: &mut Vec<Binding>) -> Answer
        requires room { vec_len bindings.old < vec_capacity bindings.old }
        requires clock { self.now.clock < 2 ^ 63 }
        ensures { (notes : List NoteType)
            → told (holder_in self.now.edge)
            (state_at (generation_in self.now.book.now) self.now.clock bindings.old.items notes) ask.now answer
            ≡ record { after = state_at (generation_in self.now.book.now) self.now.clock bindings.new.items notes; answer = result } }
    {
        let (ports, freed) = match answer {
            FragAnswer::Noted => (ports_of(ask), Parcels::new(self.alloc)),
            FragAnswer::Known(ports) => (ports, Parcels::new(self.alloc)),
            FragAnswer::Released(parcels) => (ports_of(ask), parcels),
            FragAnswer::Held => return Answer::Held,
            FragAnswer::Full => return refused(Cause::FragmentsFull, Parcels::new(self.alloc)),
        };
        self.passed(ask, ports, freed, bindings)
    }

    /// What becomes of a packet: a fragment takes its fragment step first, under the place of this one. After want of
    /// memory the notes are as they were.
    pub(crate) fn gathered(
        &self,
        place: u64,
        ask: &Ask,
        bindings: &mut Vec<Binding>,
        notes: &mut FragTable,
    ) -> Result<Answer, NoMemory>
        requires room { vec_len bindings.old < vec_capacity bindings.old }
        requires clock { self.now.clock < 2 ^ 63 }
        requires notes { notes.old.clock ≤ self.now.clock }
        ensures gathered { IfOk result (λ answer.
            gathered (holder_in self.now.edge)
            (state_at (generation_in self.now.book.now) self.now.clock bindings.old.items notes.old.notes)
            place ask.now (frag_ask_of (part_of ask.now) (ports_of ask.now))
            ≡ record {
              after = state_at (generation_in self.now.book.now) self.now.clock bindings.new.items notes.new.notes;
              answer = answer;
            }) }
        ensures clock { OnOk result (notes.new.clock ≤ self.now.clock) }
        ensures err { OnErr result (notes.new ≡ notes.old) }
    {
        let Some(fragment) = fragment_of(ask) else {
            let (ports, freed) = (ports_of(ask), Parcels::new(self.alloc));
            return Ok(self.passed(ask, ports, freed, bindings));
        };
        let answer = notes.take(self.clock, place, &fragment)?;
        Ok(self.told(ask, answer, bindings))
    }
}
