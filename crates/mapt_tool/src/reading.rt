ghost use Rattle.std.specs.Prelude.{◌≡◌, ◌≤◌, ◌<◌, ◌+◌, ◌^◌, length, IfOk, IfErr};
ghost use Rattle.mapt_tool.specs.Ended.{Ended, handing};
ghost use Rattle.mapt_tool.specs.Limits.{file_limit, command_limit, limit_of};
ghost use Rattle.mapt_tool.specs.Pieces.{HoldsFrom, IsContent, PieceFails};
ghost use Rattle.mapt_tool.specs.Reading.{Reads};

use crate::status::Status;
use octets::{Bytes, NoMemory};
use outside::{FileId, Folder, OutFault};
use std::alloc::Global;

/// The longest file that is read, in octets.
const FILE_LIMIT: u64 = 1 << 26;

/// What all files of a command may have together, in octets.
pub(crate) const COMMAND_LIMIT: u64 = 1 << 27;

/// How many octets are asked for at a time.
const PIECE: usize = 65_536;

/// A file of the command: which one it is, and its name.
#[derive(Clone, Copy)]
struct Named<'a> {
    file: FileId,
    name: &'a str,
}

/// A buffer of this size.
fn zeros(alloc: Global, size: usize) -> Result<Vec<u8>, NoMemory>
    ensures { IfOk result (λ buffer. length buffer.items ≡ size) }
{
    Ok(vec![in alloc; 0; size]?)
}

#[tactic(auto, using(crate::proofs::Pieces::goes_on))]
/// Reads one more piece of a file, behind the octets that were read so far. No octets come only at its end.
fn read_piece<F: Folder>(
    alloc: Global,
    folder: &mut F,
    named: Named<'_>,
    bytes: &mut Bytes,
    piece: &mut [u8],
) -> Result<usize, Status>
    requires { length bytes.old < 2 ^ 27 }
    ensures within { IfOk result (λ n. n ≤ length piece.old) }
    ensures longer { IfOk result (λ n. length bytes.new ≡ length bytes.old + n) }
    ensures holds { let files = (F.seen folder.old).files in
        IfOk result (λ n. HoldsFrom files named.entry.name.now bytes.old → HoldsFrom files named.entry.name.now bytes.new) }
    ensures ended { let files = (F.seen folder.old).files in
        IfOk result (λ n. n ≡ 0 → 0 < length piece.old
        → HoldsFrom files named.entry.name.now bytes.old → IsContent files named.entry.name.now bytes.new) }
    ensures seen { IfOk result (λ n. F.seen folder.new ≡ handing (F.seen folder.old) n) }
    ensures err { IfErr result (PieceFails (F.seen folder.old) (F.seen folder.new) named.entry.file (length piece.old)) }
{
    let offset = bytes.as_slice().len() as u64;
    let count = match folder.read_at(alloc, named.file, named.name, offset, piece) {
        Ok(count) => count,
        Err(OutFault::Failed) => return Err(Status::ReadFault(named.file)),
        Err(OutFault::NoMemory) => return Err(Status::NoMemory),
    };
    bytes.extend(&piece[..count])?;
    Ok(count)
}

/// Reads a file to its end, unless it has more octets than `limit`: then one more is read, and no further.
fn read_whole<F: Folder>(
    alloc: Global,
    folder: &mut F,
    file: FileId,
    name: &str,
    limit: u64,
) -> Result<Bytes, Status>
    requires { limit ≤ FILE_LIMIT }
    ensures { Ended (Reads file name.now limit) (F.seen folder.old) (F.seen folder.new) result }
{
    let named = Named { file, name };
    let mut bytes = Bytes::new(alloc);
    let mut piece = zeros(alloc, PIECE)?;
    'pieces: loop {
        let len = bytes.as_slice().len() as u64;
        if len > limit {
            return Err(Status::TooLong(file));
        }
        let asked = (limit + 1 - len).min(PIECE as u64) as usize;
        match read_piece(alloc, folder, named, &mut bytes, &mut piece[..asked]) {
            Ok(0) => return Ok(bytes),
            Ok(_) => {}
            Err(status) => return Err(status),
        }
    }
}

/// Reads a file of the command, of at most 64 MiB, where the command may still read `left` octets.
pub(crate) fn read_text<F: Folder>(
    alloc: Global,
    folder: &mut F,
    file: FileId,
    name: &str,
    left: u64,
) -> Result<Bytes, Status>
    ensures ended { Ended (Reads file name.now (limit_of left)) (F.seen folder.old) (F.seen folder.new) result }
    ensures short { IfOk result (λ text. length text ≤ limit_of left) }
{
    match read_whole(alloc, folder, file, name, left.min(FILE_LIMIT)) {
        Ok(text) => Ok(text),
        Err(status) => Err(status),
    }
}
