//! The command `options`: a container of DHCPv6 options in hexadecimal text is printed, and written again.

ghost use Rattle.std.specs.Prelude.{◌≡◌, ◌≤◌, ◌^◌, length, IfOk};
ghost use Rattle.mapt_tool.specs.Course.{Course};
ghost use Rattle.mapt_tool.specs.Ended.{Ended, Given};
ghost use Rattle.mapt_tool.specs.Printed.{IsHex, IsContainer, IsOptions};
ghost use Rattle.mapt_tool.specs.Request.{options};

use crate::asked::saying;
use crate::plan::Plan;
use crate::reading::{COMMAND_LIMIT, read_text};
use crate::status::Status;
use mapt_setup::SetupCause;
use octets::Bytes;
use outside::{FileId, Folder};
use s46_options::{Container, HexFault, OptionFault, options_text, read_container, read_hex};
use std::alloc::Global;

/// The octets that a hexadecimal text spells.
fn octets_in(alloc: Global, text: &[u8]) -> Result<Bytes, Status>
    requires { length text.now ≤ 2 ^ 26 }
    ensures given { Given (IsHex text.now) result }
    ensures short { IfOk result (λ octets. length octets ≤ length text.now) }
{
    match read_hex(alloc, text) {
        Ok(octets) => Ok(octets),
        Err(HexFault::At(place)) => Err(Status::SetupRefused(SetupCause::BadHex, place)),
        Err(HexFault::NoMemory) => Err(Status::NoMemory),
    }
}

/// The container of these octets.
fn container_in(alloc: Global, octets: &[u8]) -> Result<Container, Status>
    requires { length octets.now ≤ 2 ^ 26 }
    ensures { Given (IsContainer octets.now) result }
{
    match read_container(alloc, octets) {
        Ok(container) => Ok(container),
        Err(OptionFault::NoMemory) => Err(Status::NoMemory),
        Err(fault) => Err(Status::SetupRefused(
            SetupCause::BadContainer,
            fault.place(octets.len() as u32),
        )),
    }
}

/// What is said of the container in a text.
fn options_said(alloc: Global, text: &[u8]) -> Result<Plan, Status>
    requires { length text.now ≤ 2 ^ 26 }
    ensures { Given (IsOptions text.now) result }
{
    let octets = match octets_in(alloc, text) {
        Ok(octets) => octets,
        Err(status) => return Err(status),
    };
    let container = match container_in(alloc, octets.as_slice()) {
        Ok(container) => container,
        Err(status) => return Err(status),
    };
    let lines = options_text(alloc, &container)?;
    Ok(saying(alloc, lines.as_slice())?)
}

/// Prints the container of DHCPv6 options in this file, and writes it again.
pub(crate) fn options<F: Folder>(alloc: Global, folder: &mut F, file: &str) -> Result<Plan, Status>
    ensures { Ended (Course (options file.now)) (F.seen folder.old) (F.seen folder.new) result }
{
    let text = match read_text(alloc, folder, FileId::Options, file, COMMAND_LIMIT) {
        Ok(text) => text,
        Err(status) => return Err(status),
    };
    match options_said(alloc, text.as_slice()) {
        Ok(plan) => Ok(plan),
        Err(status) => Err(status),
    }
}
