ghost use Rattle.std.specs.Prelude.{map};
ghost use Rattle.std.specs.String.{string_bytes};
ghost use Rattle.mapt_tool.specs.Course.{Course};
ghost use Rattle.mapt_tool.specs.Ended.{Ended};
ghost use Rattle.mapt_tool.specs.Serves.{Ends, Serves};
ghost use Rattle.mapt_tool.specs.Words.{seen};

use crate::asked::{Endpoint, owner, rules};
use crate::carrying::carry_out;
use crate::plan::Plan;
use crate::printed::options;
use crate::replay::replay;
use crate::status::Status;
use crate::words::{Command, command_of};
use outside::{Folder, Gate, Sink};
use std::alloc::Global;
use std::sync::Wait;
use std::thread::Threads;

/// What the command does to the outside.
fn plan_of<F: Folder>(alloc: Global, folder: &mut F, command: Command<'_>) -> Result<Plan, Status>
    ensures { Ended (Course (seen command.entry)) (F.seen folder.old) (F.seen folder.new) result }
{
    match command {
        Command::Replay { config, prefix } => replay(alloc, folder, config, prefix),
        Command::Rules { config, generation } => rules(alloc, folder, config, generation),
        Command::Owner {
            config,
            generation,
            addr,
            port,
        } => owner(alloc, folder, config, generation, Endpoint { addr, port }),
        Command::Options { file } => options(alloc, folder, file),
    }
}

/// Serves a command: plans what it does to the outside, and then does that.
fn serve<F: Folder, K: Sink>(
    alloc: Global,
    command: Command<'_>,
    folder: &mut F,
    out: &mut K,
) -> Status
    ensures { Ends (seen command.entry)
        (record { folder = F.seen folder.old; sink = K.seen out.old })
        (record { folder = F.seen folder.new; sink = K.seen out.new }) result }
{
    match plan_of(alloc, folder, command) {
        Ok(plan) => carry_out(alloc, folder, out, &plan),
        Err(status) => status,
    }
}

/// Serves the command that the words spell, with one worker. It waits for nobody, and always returns.
///
/// `docs/THEOREM.md` says in plain words what it promises, status by status.
pub fn mapt_plain<F: Folder, K: Sink>(
    alloc: Global,
    words: &[String],
    folder: &mut F,
    out: &mut K,
) -> Status
    ensures { Serves (map string_bytes words.now)
        (record { folder = F.seen folder.old; sink = K.seen out.old })
        (record { folder = F.seen folder.new; sink = K.seen out.new }) result }
{
    match command_of(words) {
        Ok(command) => serve(alloc, command, folder, out),
        Err(number) => Status::Usage(number),
    }
}

/// Serves the command that the words spell, as `mapt_plain` does. A gate holds workers back, of which there is
/// one so far.
pub fn mapt<R: Threads + Wait + Sync, F: Folder, K: Sink, G: Gate + Sync>(
    _rt: &R,
    alloc: Global,
    words: &[String],
    folder: &mut F,
    out: &mut K,
    _gate: &G,
) -> Status
    ensures { Serves (map string_bytes words.now)
        (record { folder = F.seen folder.old; sink = K.seen out.old })
        (record { folder = F.seen folder.new; sink = K.seen out.new }) result }
{
    mapt_plain(alloc, words, folder, out)
}
