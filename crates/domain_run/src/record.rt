//! A record of a script, taken through the domain.
ghost use Rattle.std.specs.Prelude.{IfOk, OnOk, IsTrue};
ghost use Rattle.mapt_setup.specs.Fit.{is_side_of};
ghost use Rattle.mapt_setup.specs.Valid.{IsValidSetup};
ghost use Rattle.journeys.specs.Waiting.{start_of};
ghost use Rattle.journeys.specs.Run.{first_waiting};
ghost use Rattle.domain_run.specs.Machines.{AreReady, IsTakenRecord};

use crate::machines::Machines;
use journeys::{MadeHops, Taking, first_stand, walk};
use mapt_setup::{Setup, Side};
use octets::NoMemory;
use std::alloc::Global;

impl Machines {
    /// Takes a record of this side through the domain: its own packet where it starts, and all that its hops send on to nodes, first in
    /// first out. A record of the access network whose destination is at no node has no hop. The hops are kept with what they sent.
    pub fn take_record(
        &mut self,
        alloc: Global,
        setup: &Setup,
        taking: &Taking,
        side: Side,
        octets: &[u8],
    ) -> Result<MadeHops, NoMemory>
        requires valid { IsValidSetup setup.now }
        requires side { IsTrue (is_side_of setup.now side) }
        requires ready { AreReady setup.now taking.now self.old }
        ensures hops { IfOk result (IsTakenRecord setup.now taking.now
            (first_waiting (start_of setup.now side octets.now)) self.old self.new) }
        ensures ready { OnOk result (AreReady setup.now taking.now self.new) }
    {
        let first = first_stand(setup, side, octets);
        walk(alloc, setup, taking, self, first, octets)
    }
}
