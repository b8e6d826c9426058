//! Hops at the relay.
ghost use Rattle.std.specs.Prelude.{◌≡◌, IfOk, Some};
ghost use Rattle.relay_node.specs.Asked.{AsksFrom};
ghost use Rattle.relay_node.specs.Taken.{is_six, IsRead};
ghost use Rattle.journeys.specs.declared.stand.Stand.TheVariants.{Relay as AtRelay};
ghost use Rattle.journeys.specs.OneThread.{key_of, AsksNothing};
ghost use Rattle.journeys.specs.Waiting.{at_stand};
ghost use Rattle.domain_run.specs.Machines.{AreReady, IsMadeOne};

use crate::machines::Machines;
use crate::packet::Packet;
use domain_core::{HopNote, RELAY};
use frag_table::{FragAsk, FragKey};
use journeys::{MadeHop, Stand};
use octets::{Fault, NoMemory};
use relay_node::{Relay, Taken, stripe_of};

/// What the fragments of an ask's packet are known by.
fn key_of(ask: &FragAsk) -> &FragKey
    ensures { result.now ≡ key_of ask.now }
{
    match ask {
        FragAsk::First(key, _) | FragAsk::Later(key, _) => key,
    }
}

impl Machines {
    /// Makes the hop of a packet about which the relay asks nothing: it is no fragment, or is dropped before.
    fn make_untold(
        &self,
        packet: &Packet<'_>,
        six: bool,
        taken: &Taken,
    ) -> Result<MadeHop, NoMemory>
        requires ready { AreReady packet.now.setup.now packet.now.taking.now self.now }
        requires read { IsRead packet.now.octets.now taken.now }
        requires six { is_six taken.now ≡ six }
        requires unasked { AsksNothing six packet.now.octets.now }
        ensures { IfOk result (λ made. IsMadeOne packet.now.setup.now packet.now.taking.now packet.now.hop
            (at_stand packet.now.octets.now (AtRelay six)) made self.now self.now) }
    {
        let relay = Relay::new(&self.book, &packet.relay_params(), packet.id());
        let hop = taken.hop(packet.alloc, &relay, packet.octets, None)?;
        let note = HopNote {
            node: RELAY,
            seen: packet.taking.seen,
            stripe: None,
            place: None,
        };
        let stand = Stand::Relay { six };
        Ok(MadeHop { stand, note, hop })
    }

    /// Makes the hop of a fragment by what the notes of its stripe tell of it.
    fn make_told(
        &mut self,
        packet: &Packet<'_>,
        six: bool,
        taken: &Taken,
        ask: &FragAsk,
    ) -> Result<MadeHop, NoMemory>
        requires ready { AreReady packet.now.setup.now packet.now.taking.now self.old }
        requires read { IsRead packet.now.octets.now taken.now }
        requires six { is_six taken.now ≡ six }
        requires asked { AsksFrom six packet.now.octets.now (Some ask.now) }
        ensures { IfOk result (λ made. IsMadeOne packet.now.setup.now packet.now.taking.now packet.now.hop
            (at_stand packet.now.octets.now (AtRelay six)) made self.old self.new) }
    {
        let stripe = stripe_of(key_of(ask));
        let table = &mut self.stripes[stripe as usize];
        let place = table.history().len() as u64;
        let answer = table.step(packet.who(), packet.taking.time, ask)?;
        let relay = Relay::new(&self.book, &packet.relay_params(), packet.id());
        let hop = taken.hop(packet.alloc, &relay, packet.octets, Some(&answer))?;
        let note = HopNote {
            node: RELAY,
            seen: packet.taking.seen,
            stripe: Some(stripe),
            place: Some(place),
        };
        let stand = Stand::Relay { six };
        Ok(MadeHop { stand, note, hop })
    }

    /// Makes the hop of a packet at the relay, from the access network or else from IPv4.
    pub(crate) fn make_at_relay(
        &mut self,
        packet: &Packet<'_>,
        six: bool,
    ) -> Result<MadeHop, NoMemory>
        requires ready { AreReady packet.now.setup.now packet.now.taking.now self.old }
        ensures { IfOk result (λ made. IsMadeOne packet.now.setup.now packet.now.taking.now packet.now.hop
            (at_stand packet.now.octets.now (AtRelay six)) made self.old self.new) }
    {
        let taken = Taken::read(packet.alloc, six, packet.octets)?;
        match taken.ask(packet.alloc, packet.octets) {
            Ok(Some(ask)) => self.make_told(packet, six, &taken, &ask),
            Ok(None) => self.make_untold(packet, six, &taken),
            Err(Fault::Drop(_)) => self.make_untold(packet, six, &taken),
            Err(Fault::NoMemory) => Err(NoMemory),
        }
    }
}
