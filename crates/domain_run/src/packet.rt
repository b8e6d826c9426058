ghost use Rattle.std.specs.Prelude.{◌≡◌, ◌%◌, ◌^◌};

use journeys::Taking;
use mapt_setup::Setup;
use nat_model::Who;
use relay_node::RelayParams;
use std::alloc::Global;

/// The one worker.
pub(crate) const WORKER: u32 = 0;

/// A packet that a hop is to take: its octets, the hop's number in its record, and what it is taken with.
#[derive(Clone, Copy)]
pub(crate) struct Packet<'a> {
    pub(crate) alloc: Global,
    pub(crate) setup: &'a Setup,
    pub(crate) taking: &'a Taking,
    pub(crate) hop: u64,
    pub(crate) octets: &'a [u8],
}

impl<'a> Packet<'a> {
    /// Who takes it.
    pub(crate) fn who(&self) -> Who
        ensures worker { result.worker ≡ 0 }
        ensures rec { result.rec ≡ self.now.taking.now.rec }
        ensures hop { result.hop ≡ self.now.hop }
    {
        Who {
            worker: WORKER,
            rec: self.taking.rec,
            hop: self.hop,
        }
    }

    /// The identification of packets that have none of their own: the record's number, of which 16 bits fit.
    pub(crate) fn id(&self) -> u16
        ensures { result ≡ self.now.taking.now.rec % 2 ^ 16 }
    {
        (self.taking.rec % 65536) as u16
    }

    /// What the relay goes by beside its rules.
    pub(crate) fn relay_params(&self) -> RelayParams
        ensures { result ≡ record { relay4 = self.now.setup.now.relay; mtus = self.now.setup.now.mtus } }
    {
        RelayParams {
            relay4: self.setup.relay,
            mtus: self.setup.mtus,
        }
    }
}
