ghost use Rattle.mapt_tool.specs.Carried.{Carried, Wrote, Said};

use crate::plan::{FileWrite, Plan};
use crate::status::Status;
use outside::{FileId, Folder, OutFault, Sink};
use std::alloc::Global;

/// Writes the files in their order, up to the first that isn't written.
fn write_files<F: Folder>(alloc: Global, folder: &mut F, writes: &[FileWrite]) -> Status
    ensures { Wrote (F.seen folder.old) (F.seen folder.new) writes.now result }
{
    for write in writes {
        let name = write.name.as_str();
        match folder.write(alloc, write.file, name, write.bytes.as_slice()) {
            Ok(()) => {}
            Err(OutFault::Failed) => return Status::WriteFault(write.file),
            Err(OutFault::NoMemory) => return Status::NoMemory,
        }
    }
    Status::Done
}

/// Puts the text on the sink, where there is any.
fn put_text<K: Sink>(alloc: Global, out: &mut K, text: &[u8]) -> Status
    ensures { Said (K.seen out.old) (K.seen out.new) text.now result }
{
    if text.is_empty() {
        return Status::Done;
    }
    match out.put(alloc, text) {
        Ok(()) => Status::Done,
        Err(OutFault::Failed) => Status::WriteFault(FileId::Report),
        Err(OutFault::NoMemory) => Status::NoMemory,
    }
}

/// Does all that is planned: the files in their order, and then the text.
pub(crate) fn carry_out<F: Folder, K: Sink>(
    alloc: Global,
    folder: &mut F,
    out: &mut K,
    plan: &Plan,
) -> Status
    ensures { Carried (record { folder = F.seen folder.old; sink = K.seen out.old })
        (record { folder = F.seen folder.new; sink = K.seen out.new }) plan.now result }
{
    match write_files(alloc, folder, plan.writes()) {
        Status::Done => put_text(alloc, out, plan.text()),
        failed => failed,
    }
}
