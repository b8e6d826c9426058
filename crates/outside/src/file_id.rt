ghost use Rattle.std.specs.Prelude.{◌≡◌};
ghost use Rattle.outside.specs.declared.file_id.OutFault.TheVariants.{NoMemory as OutOfMemory};

use octets::NoMemory;
use std::fmt;

/// Which file of a command is meant. `Report` is the sink. A number is that of an edge.
#[derive(Clone, Copy, Debug, PartialEq, Eq, Hash)]
pub enum FileId {
    Config,
    Options,
    InLan(u32),
    InAccess,
    InCore,
    OutLan(u32),
    OutAccess,
    OutCore,
    OutUnrouted,
    Trace,
    Report,
}

// The file by its role.
impl fmt::Display for FileId {
    fn fmt<W: fmt::Write>(&self, f: &mut fmt::Formatter<W>) -> fmt::Result {
        match self {
            FileId::Config => write!(f, "the configuration"),
            FileId::Options => write!(f, "the option file"),
            FileId::InLan(edge) => write!(f, "the LAN capture of edge {edge}"),
            FileId::InAccess => write!(f, "the access network's capture"),
            FileId::InCore => write!(f, "the core's capture"),
            FileId::OutLan(edge) => write!(f, "the written LAN capture of edge {edge}"),
            FileId::OutAccess => write!(f, "the written capture of the access network"),
            FileId::OutCore => write!(f, "the written capture of the core"),
            FileId::OutUnrouted => write!(f, "the written capture of unrouted packets"),
            FileId::Trace => write!(f, "the trace"),
            FileId::Report => write!(f, "the report"),
        }
    }
}

/// Whether a call read or wrote.
#[derive(Clone, Copy, Debug, PartialEq, Eq, Hash)]
pub enum Operation {
    Read,
    Write,
}

/// A call of a folder that failed.
#[derive(Clone, Copy, Debug, PartialEq, Eq, Hash)]
pub struct Failure {
    pub file: FileId,
    pub operation: Operation,
}

/// Why a call of the outside didn't answer Ok.
#[derive(Clone, Copy, Debug, PartialEq, Eq, Hash)]
pub enum OutFault {
    /// The outside failed, and counted it.
    Failed,
    /// Memory ran out, and nothing changed.
    NoMemory,
}

impl From<NoMemory> for OutFault {
    ghost from_gives = { λ _ e. e ≡ OutOfMemory };

    fn from(_: NoMemory) -> Self {
        OutFault::NoMemory
    }
}
