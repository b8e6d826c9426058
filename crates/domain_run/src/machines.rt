//! The machines of a domain, which make the hops of one worker.
ghost use Rattle.domain_run.specs.Machines.{AreReady, MakesOne};

use crate::packet::Packet;
use edge_core::{EdgeState, StripeState};
use journeys::{MadeHop, MakesHops, Stand, Taking};
use mapt_setup::Setup;
use octets::NoMemory;
use rule_book::Book;
use std::alloc::Global;

/// The machines of a domain: the rules of the present generation, each edge in the order of the setup, and each of the relay's 16
/// stripes.
#[derive(Drop)]
pub struct Machines {
    pub(crate) book: Book,
    pub(crate) edges: Vec<EdgeState>,
    pub(crate) stripes: Vec<StripeState>,
}

impl MakesHops for Machines {
    ghost IsReady = { AreReady };

    ghost Makes = { MakesOne };

    ghost stays = { λ setup taking step before after made. made.1 };

    fn make(
        &mut self,
        alloc: Global,
        setup: &Setup,
        taking: &Taking,
        hop: u64,
        stand: Stand,
        octets: &[u8],
    ) -> Result<MadeHop, NoMemory> {
        let packet = Packet {
            alloc,
            setup,
            taking,
            hop,
            octets,
        };
        match stand {
            Stand::Edge { number, way } => self.make_at_edge(&packet, number, way),
            Stand::Relay { six } => self.make_at_relay(&packet, six),
        }
    }
}
