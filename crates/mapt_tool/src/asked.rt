//! The commands that print what a configuration says.

ghost use Rattle.std.specs.Prelude.{◌≡◌, map, IfOk};
ghost use Rattle.rule_book.specs.Book.{rules_of};
ghost use Rattle.rule_book.specs.Text.{owner_text};
ghost use Rattle.mapt_setup.specs.Valid.{IsValidSetup};
ghost use Rattle.mapt_tool.specs.Course.{IsSetup, Configures, Course, rules_said, owner_said};
ghost use Rattle.mapt_tool.specs.Ended.{Ended, Given};
ghost use Rattle.mapt_tool.specs.Planned.{says};
ghost use Rattle.mapt_tool.specs.Request.{rules, owner};

use crate::plan::Plan;
use crate::reading::{COMMAND_LIMIT, read_text};
use crate::status::{Status, status_of};
use mapt_setup::{EdgeLine, Setup};
use octets::{Addr4, Bytes, NoMemory, Prefix6};
use outside::{FileId, Folder};
use rule_book::{Book, owner_line};
use std::alloc::Global;

/// An IPv4 address and a port of it.
#[derive(Clone, Copy, Debug)]
pub(crate) struct Endpoint {
    pub addr: Addr4,
    pub port: u16,
}

/// The setup of these octets.
pub(crate) fn setup_in(alloc: Global, text: &[u8]) -> Result<Setup, Status>
    ensures given { Given (IsSetup text.now) result }
    ensures valid { IfOk result IsValidSetup }
{
    match Setup::read(alloc, text) {
        Ok(setup) => Ok(setup),
        Err(fault) => Err(status_of(fault)),
    }
}

/// The setup of the configuration in this file.
fn configured<F: Folder>(alloc: Global, folder: &mut F, config: &str) -> Result<Setup, Status>
    ensures ended { Ended (Configures config.now) (F.seen folder.old) (F.seen folder.new) result }
    ensures valid { IfOk result IsValidSetup }
{
    let text = match read_text(alloc, folder, FileId::Config, config, COMMAND_LIMIT) {
        Ok(text) => text,
        Err(status) => return Err(status),
    };
    match setup_in(alloc, text.as_slice()) {
        Ok(setup) => Ok(setup),
        Err(status) => Err(status),
    }
}

/// A plan that puts this text on the sink.
pub(crate) fn saying(alloc: Global, text: &[u8]) -> Result<Plan, NoMemory>
    ensures { IfOk result (λ plan. plan ≡ says text.now) }
{
    let mut plan = Plan::new(alloc);
    plan.say(text)?;
    Ok(plan)
}

/// What is said of the rules of a generation.
fn rules_said(alloc: Global, setup: &Setup, generation: u32) -> Result<Plan, Status>
    requires { IsValidSetup setup.now }
    ensures { Given (λ answer. answer ≡ rules_said setup.now generation) result }
{
    let book = match setup.book(alloc, generation) {
        Ok(book) => book,
        Err(fault) => return Err(status_of(fault)),
    };
    Ok(saying(alloc, book.text(alloc)?.as_slice())?)
}

/// The prefixes of the edges.
fn prefixes_of(alloc: Global, edges: &[EdgeLine]) -> Result<Vec<Prefix6>, NoMemory>
    ensures { IfOk result (λ prefixes. prefixes.items ≡ map (λ e. e.prefix) edges.now) }
{
    let mut prefixes = Vec::new(alloc);
    for edge in edges {
        prefixes.push(edge.prefix)?;
    }
    Ok(prefixes)
}

/// The names of the edges.
fn names_of(alloc: Global, edges: &[EdgeLine]) -> Result<Vec<Bytes>, NoMemory>
    ensures { IfOk result (λ names. names.items ≡ map (λ e. e.name) edges.now) }
{
    let mut names = Vec::new(alloc);
    for edge in edges {
        names.push(edge.name.copy(alloc)?)?;
    }
    Ok(names)
}

/// The line of the owner of an IPv4 address and port.
fn line_of(alloc: Global, setup: &Setup, book: &Book, end: Endpoint) -> Result<Bytes, NoMemory>
    ensures { IfOk result (λ line. line
        ≡ owner_text (rules_of book.now) (map (λ e. e.prefix) setup.now.edges) (map (λ e. e.name) setup.now.edges) end.addr.0 end.port) }
{
    let prefixes = prefixes_of(alloc, setup.edges.as_slice())?;
    let names = names_of(alloc, setup.edges.as_slice())?;
    Ok(owner_line(alloc, book, &prefixes, &names, end.addr, end.port)?)
}

/// What is said of the owner of an IPv4 address and port.
fn owner_said(alloc: Global, setup: &Setup, generation: u32, end: Endpoint) -> Result<Plan, Status>
    requires { IsValidSetup setup.now }
    ensures { Given (λ answer. answer ≡ owner_said setup.now generation end.addr.0 end.port) result }
{
    let book = match setup.book(alloc, generation) {
        Ok(book) => book,
        Err(fault) => return Err(status_of(fault)),
    };
    let line = line_of(alloc, setup, &book, end)?;
    Ok(saying(alloc, line.as_slice())?)
}

/// Prints the rules of a generation.
pub(crate) fn rules<F: Folder>(
    alloc: Global,
    folder: &mut F,
    config: &str,
    generation: u32,
) -> Result<Plan, Status>
    ensures { Ended (Course (rules config.now generation)) (F.seen folder.old) (F.seen folder.new) result }
{
    let setup = match configured(alloc, folder, config) {
        Ok(setup) => setup,
        Err(status) => return Err(status),
    };
    match rules_said(alloc, &setup, generation) {
        Ok(plan) => Ok(plan),
        Err(status) => Err(status),
    }
}

/// Prints which edge address holds an IPv4 address and port in a generation.
pub(crate) fn owner<F: Folder>(
    alloc: Global,
    folder: &mut F,
    config: &str,
    generation: u32,
    end: Endpoint,
) -> Result<Plan, Status>
    ensures { Ended (Course (owner config.now generation end.addr.0 end.port)) (F.seen folder.old) (F.seen folder.new) result }
{
    let setup = match configured(alloc, folder, config) {
        Ok(setup) => setup,
        Err(status) => return Err(status),
    };
    match owner_said(alloc, &setup, generation, end) {
        Ok(plan) => Ok(plan),
        Err(status) => Err(status),
    }
}
