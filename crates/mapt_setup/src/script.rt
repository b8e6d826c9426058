ghost use Rattle.std.specs.Prelude.{◌≡◌, IfOk};
ghost use Rattle.mapt_setup.specs.Fit.{FitsSetup};
ghost use Rattle.mapt_setup.specs.Script.{IsScript, BelongsTo};
ghost use Rattle.mapt_setup.specs.Valid.{IsValidSetup};

use crate::capture::{Capture, Side};
use crate::items::in_order;
use crate::setup::Setup;
use octets::{Bytes, NoMemory};
use std::alloc::Global;
use std::marker::Model;

/// An item of a script.
#[derive(Debug, Drop)]
pub enum ScriptItem {
    /// A record of a capture: where it was captured, when, in microseconds, and its IP packet.
    Rec { side: Side, time: u64, bytes: Bytes },
    /// The change with this number, from 1, and whether it is made while packets are worked on.
    Move { number: u32, live: bool },
}

/// All changes of a setup and all records of its captures in their order. A contract sees the list of them.
#[derive(Debug, Drop)]
pub struct Script {
    items: Vec<ScriptItem>,
}

impl Model for Script {
    ghost use Rattle.std.specs.Prelude.{List};
    ghost use Rattle.mapt_setup.specs.declared.script.ScriptItem.{ScriptItem as ScriptItemType};

    ghost Value = { List ScriptItemType };

    ghost view = { λ s. s.items.items };
}

impl Script {
    /// The script of a setup and its captures.
    pub fn merge(alloc: Global, setup: &Setup, captures: &[Capture]) -> Result<Script, NoMemory>
        requires valid { IsValidSetup setup.now }
        requires fit { FitsSetup setup.now captures.now }
        ensures script { IfOk result (IsScript setup.now.changes captures.now) }
        ensures belongs { IfOk result (BelongsTo setup.now) }
    {
        Ok(Script {
            items: in_order(alloc, setup.changes.as_slice(), captures)?,
        })
    }

    /// The items.
    pub fn as_slice(&self) -> &[ScriptItem]
        ensures { result.now ≡ self.now }
    {
        &self.items
    }
}
