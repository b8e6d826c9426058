ghost use Rattle.std.specs.Prelude.{◌≡◌};
ghost use Rattle.mapt_tool.specs.Status.{status_number, status_of};
ghost use Rattle.mapt_tool.specs.declared.status.Status.TheVariants.{NoMemory as OutOfMemory};

use crate::refusal::Refusal;
use mapt_setup::{SetupCause, SetupFault};
use octets::NoMemory;
use outside::FileId;
use pcap_files::CaptureFault;
use thiserror::Error;

/// How a command ended. Its text is the line that the program prints behind its name.
#[derive(Clone, Copy, Debug, PartialEq, Eq, Error)]
pub enum Status {
    /// The command did all that it says.
    #[error("done [Done]")]
    Done,
    /// The words are no form. The number is that of the words that still begin one.
    #[error("usage: mapt replay C P, mapt rules C G, mapt owner C G A X or mapt options F [Usage({0})]")]
    Usage(u32),
    /// A read of this file failed.
    #[error("{0} could not be read [ReadFault({0:?})]")]
    ReadFault(FileId),
    /// A write of this file failed.
    #[error("{0} could not be written [WriteFault({0:?})]")]
    WriteFault(FileId),
    /// The configuration or the option file breaks a rule: the first cause, and its least place.
    #[error("refused: {refusal}", refusal = Refusal {cause: *.0, place: *.1})]
    SetupRefused(SetupCause, u32),
    /// This capture has this fault.
    #[error("{0} is refused: {1} [CaptureRefused({0:?}, {1:?})]")]
    CaptureRefused(FileId, CaptureFault),
    /// This file is over 64 MiB, or the files up to it are together over 128 MiB.
    #[error("{0} is too long: a file has at most 64 MiB, and all files of a command 128 MiB [TooLong({0:?})]")]
    TooLong(FileId),
    /// Memory ran out.
    #[error("out of memory [NoMemory]")]
    NoMemory,
    /// What stands in this file isn't served yet.
    #[error("{0} is of a form that is not served yet [NotBuilt({0:?})]")]
    NotBuilt(FileId),
}

impl Status {
    /// The exit status of the program.
    pub fn number(&self) -> u8
        ensures { result ≡ status_number self.now }
    {
        match self {
            Status::Done => 0,
            Status::Usage(_) => 2,
            Status::ReadFault(_) => 3,
            Status::WriteFault(_) => 4,
            Status::SetupRefused(_, _) => 5,
            Status::CaptureRefused(_, _) => 6,
            Status::TooLong(_) => 7,
            Status::NoMemory => 9,
            Status::NotBuilt(_) => 11,
        }
    }
}

impl From<NoMemory> for Status {
    ghost from_gives = { λ _ status. status ≡ OutOfMemory };

    fn from(_: NoMemory) -> Self {
        Status::NoMemory
    }
}

/// How a command ends for what is wrong with its configuration.
pub(crate) fn status_of(fault: SetupFault) -> Status
    ensures { result ≡ status_of fault }
{
    match fault {
        SetupFault::Refused(cause, place) => Status::SetupRefused(cause, place),
        SetupFault::NoMemory => Status::NoMemory,
    }
}
