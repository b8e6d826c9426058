//! Hops at edges.
ghost use Rattle.std.specs.Prelude.{◌<◌, length, IfOk};
ghost use Rattle.mapt_setup.specs.Valid.{IsValidSetup};
ghost use Rattle.journeys.specs.declared.stand.Stand.TheVariants.{Edge};
ghost use Rattle.journeys.specs.Waiting.{at_stand};
ghost use Rattle.domain_run.specs.Machines.{AreReady, IsMadeOne};

use crate::machines::Machines;
use crate::packet::Packet;
use domain_core::HopNote;
use edge_node::{EdgeParams, Node, Taken, Way};
use journeys::{MadeHop, Stand};
use nat_model::Answer;
use octets::{Fault, NoMemory, Parcels};

impl Machines {
    /// Makes the hop of a packet at the edge of this number.
    pub(crate) fn make_at_edge(
        &mut self,
        packet: &Packet<'_>,
        number: u32,
        way: Way,
    ) -> Result<MadeHop, NoMemory>
        requires valid { IsValidSetup packet.now.setup.now }
        requires stands { number < length packet.now.setup.now.edges }
        requires ready { AreReady packet.now.setup.now packet.now.taking.now self.old }
        ensures { IfOk result (λ made. IsMadeOne packet.now.setup.now packet.now.taking.now packet.now.hop
            (at_stand packet.now.octets.now (Edge number way)) made self.old self.new) }
    {
        let line = &packet.setup.edges.as_slice()[number as usize];
        let node = Node {
            params: EdgeParams {
                lan: line.lan,
                mtus: packet.setup.mtus,
            },
            id: packet.id(),
        };
        let taken = Taken::read(packet.alloc, way, packet.octets)?;
        let mut note = HopNote {
            node: number,
            seen: packet.taking.seen,
            stripe: None,
            place: None,
        };
        let stand = Stand::Edge { number, way };
        let ask = match taken.ask(packet.alloc, packet.octets) {
            Ok(ask) => ask,
            Err(Fault::Drop(cause)) => {
                let freed = Parcels::new(packet.alloc);
                let answer = Answer::Refused { cause, freed };
                let hop = taken.emit(packet.alloc, &node, &answer, packet.octets)?;
                return Ok(MadeHop { stand, note, hop });
            }
            Err(Fault::NoMemory) => return Err(NoMemory),
        };
        let edge = &mut self.edges[number as usize];
        note.place = Some(edge.history().len() as u64);
        let answer = edge.step(packet.who(), packet.taking.time, &self.book, &ask)?;
        let hop = taken.emit(packet.alloc, &node, &answer, packet.octets)?;
        Ok(MadeHop { stand, note, hop })
    }
}
