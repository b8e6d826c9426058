//! The command that replays the capture of a LAN.

ghost use Rattle.std.specs.Prelude.{◌≡◌, ◌^◌, ◌≤◌, ◌++◌, length, Some, All, IfOk};
ghost use Rattle.pcap_files.specs.Written.{IsWritable};
ghost use Rattle.pcap_files.specs.Capture.{capture};
ghost use Rattle.one_edge.specs.Edge.{edge_in};
ghost use Rattle.mapt_setup.specs.Fit.{most_records};
ghost use Rattle.mapt_tool.specs.Course.{IsSetup, Replays};
ghost use Rattle.mapt_tool.specs.Reading.{Answers, Then};
ghost use Rattle.mapt_tool.specs.Ended.{Ended, Given};
ghost use Rattle.mapt_tool.specs.Replay.{asks_for_more, only_edge, replay_plan, IsPlanned, IsPlannedBy, ReplaysLan, ReplaysSetup};
ghost use Rattle.mapt_tool.specs.Target.{target_of};

use crate::asked::setup_in;
use crate::plan::{FileWrite, Plan};
use crate::reading::{COMMAND_LIMIT, read_text};
use crate::status::Status;
use mapt_setup::{EdgeLine, MOST_RECORDS, Setup};
use octets::{Name, NoMemory};
use one_edge::{Captures, OneEdge};
use outside::{FileId, Folder};
use pcap_files::{CaptureFault, Record};
use std::alloc::Global;

/// What follows the prefix in the names of the captures.
const ACCESS_SUFFIX: &str = "access.pcap";

const CORE_SUFFIX: &str = "core.pcap";

/// What a replay is given beside its configuration.
#[derive(Clone, Copy)]
pub(crate) struct Target<'a> {
    /// With what the names of the files begin that it writes.
    pub prefix: &'a str,
    /// How many octets the command may still read.
    pub left: u64,
}

/// A name that begins with the prefix.
fn name_of(alloc: Global, prefix: &str, suffix: &str) -> Result<Name, NoMemory>
    ensures { IfOk result (λ name. name ≡ prefix.now ++ suffix.now) }
{
    let mut name = String::from_str(alloc, prefix)?;
    name.push_str(suffix)?;
    Name::of(alloc, name.as_str())
}

/// A plan that writes these captures, whose octets it takes.
fn writing(alloc: Global, prefix: &str, made: Captures) -> Result<Plan, NoMemory>
    ensures { IfOk result (λ plan. plan ≡ replay_plan prefix.now made) }
{
    let Captures { access, core } = made;
    let mut plan = Plan::new(alloc);
    plan.write(FileWrite {
        file: FileId::OutAccess,
        name: name_of(alloc, prefix, ACCESS_SUFFIX)?,
        bytes: access.into_bytes(),
    })?;
    plan.write(FileWrite {
        file: FileId::OutCore,
        name: name_of(alloc, prefix, CORE_SUFFIX)?,
        bytes: core.into_bytes(),
    })?;
    Ok(plan)
}

/// What a replay writes, by the records of the LAN.
fn planned(alloc: Global, prefix: &str, edge: &OneEdge, records: &[Record]) -> Result<Plan, Status>
    requires { All IsWritable records.now }
    ensures { Given (IsPlanned prefix.now (edge_in edge.now) records.now) result }
{
    match edge.replay(alloc, records)? {
        Some(made) => Ok(writing(alloc, prefix, made)?),
        None => Err(Status::NotBuilt(FileId::InLan(0))),
    }
}

/// What it writes, by the octets of the LAN's capture.
fn planned_by(alloc: Global, prefix: &str, edge: &OneEdge, octets: &[u8]) -> Result<Plan, Status>
    requires { length octets.now ≤ 2 ^ 26 }
    ensures { Given (IsPlannedBy prefix.now (edge_in edge.now) (capture most_records octets.now)) result }
{
    let records = match pcap_files::read(alloc, octets, MOST_RECORDS) {
        Ok(records) => records,
        Err(CaptureFault::NoMemory) => return Err(Status::NoMemory),
        Err(fault) => return Err(Status::CaptureRefused(FileId::InLan(0), fault)),
    };
    match planned(alloc, prefix, edge, records.as_slice()) {
        Ok(plan) => Ok(plan),
        Err(status) => Err(status),
    }
}

/// Reads the LAN's capture of this name, and plans what is written. Without one there are no records.
fn with_edge<F: Folder>(
    alloc: Global,
    folder: &mut F,
    to: Target<'_>,
    edge: &OneEdge,
    lan: &Option<Name>,
) -> Result<Plan, Status>
    ensures { Ended (ReplaysLan (target_of to.entry) (edge_in edge.now) lan.now) (F.seen folder.old) (F.seen folder.new) result }
{
    let Some(name) = lan else {
        return match planned(alloc, to.prefix, edge, &[]) {
            Ok(plan) => Ok(plan),
            Err(status) => Err(status),
        };
    };
    let octets = match read_text(alloc, folder, FileId::InLan(0), name.as_str(), to.left) {
        Ok(octets) => octets,
        Err(status) => return Err(status),
    };
    match planned_by(alloc, to.prefix, edge, octets.as_slice()) {
        Ok(plan) => Ok(plan),
        Err(status) => Err(status),
    }
}

/// Whether the setup names a capture beside that of a LAN, or has a forward or a change.
fn asks_for_more(setup: &Setup) -> bool
    ensures { result ≡ asks_for_more setup.now }
{
    let captures = setup.access.is_some() || setup.core.is_some();
    let forwards = setup.forwards.as_slice().len() > 0;
    let changes = setup.changes.as_slice().len() > 0;
    captures || (forwards || changes)
}

/// Replays the only edge of a setup.
fn with_line<F: Folder>(
    alloc: Global,
    folder: &mut F,
    to: Target<'_>,
    setup: &Setup,
    line: &EdgeLine,
) -> Result<Plan, Status>
    requires { only_edge setup.now ≡ Some line.now }
    ensures { Ended (ReplaysSetup (target_of to.entry) setup.now) (F.seen folder.old) (F.seen folder.new) result }
{
    let book = match setup.book.copy(alloc) {
        Ok(book) => book,
        Err(_) => return Err(Status::NoMemory),
    };
    let Some(edge) = OneEdge::of(book, line.prefix, setup.mtus) else {
        return Err(Status::NotBuilt(FileId::Config));
    };
    with_edge(alloc, folder, to, &edge, &line.capture)
}

/// Replays a setup, as far as the command may still read. One edge is replayed so far, with no capture but that
/// of its LAN, no forward and no change.
fn with_setup<F: Folder>(
    alloc: Global,
    folder: &mut F,
    to: Target<'_>,
    setup: &Setup,
) -> Result<Plan, Status>
    ensures { Ended (ReplaysSetup (target_of to.entry) setup.now) (F.seen folder.old) (F.seen folder.new) result }
{
    if asks_for_more(setup) {
        return Err(Status::NotBuilt(FileId::Config));
    }
    let edges = setup.edges.as_slice();
    if edges.len() != 1 {
        return Err(Status::NotBuilt(FileId::Config));
    }
    with_line(alloc, folder, to, setup, &edges[0])
}

/// Replays the configuration of these octets.
fn with_text<F: Folder>(
    alloc: Global,
    folder: &mut F,
    to: Target<'_>,
    text: &[u8],
) -> Result<Plan, Status>
    ensures { Ended (Then (Answers (IsSetup text.now)) (λ setup. ReplaysSetup (target_of to.entry) setup))
        (F.seen folder.old) (F.seen folder.new) result }
{
    match setup_in(alloc, text) {
        Ok(setup) => with_setup(alloc, folder, to, &setup),
        Err(status) => Err(status),
    }
}

/// Replays a configuration: reads it and the LAN's capture that it names, and plans what is written.
pub(crate) fn replay<F: Folder>(
    alloc: Global,
    folder: &mut F,
    config: &str,
    prefix: &str,
) -> Result<Plan, Status>
    ensures { Ended (Replays config.now prefix.now) (F.seen folder.old) (F.seen folder.new) result }
{
    let text = match read_text(alloc, folder, FileId::Config, config, COMMAND_LIMIT) {
        Ok(text) => text,
        Err(status) => return Err(status),
    };
    let to = Target {
        prefix,
        left: COMMAND_LIMIT - text.as_slice().len() as u64,
    };
    with_text(alloc, folder, to, text.as_slice())
}
