//! Reading the files of a command.
ghost use Rattle.std.specs.Prelude.{◌≡◌, ◌≤◌, ◌<◌, ◌^◌, length, IsTrue, IfOk};
ghost use Rattle.mote_sim.specs.declared.reading.ReadStop.TheVariants.{Memory, Fault};
ghost use Rattle.mote_sim.specs.Asking.{AsksFile, AsksFiles};
ghost use Rattle.mote_sim.specs.Reading.{Reads, Gathers, AdmitsEach};

use crate::operands::Operands;
use crate::request::limit_of;
use command_line::Kind;
use mote_base::{Failed, Shelf, Word};
use std::alloc::{AllocError, AllocFailed, Global};

/// Why the files were not read to their ends.
#[derive(Clone, Copy, Debug, PartialEq, Eq)]
pub enum ReadStop {
    /// The file with that number is longer than its limit.
    TooLong(usize),
    /// A call of the shelf failed.
    Fault,
    /// Memory ran out.
    Memory,
}

impl From<Failed> for ReadStop {
    ghost from_gives = { λ _ e. e ≡ Fault };

    fn from(_e: Failed) -> ReadStop {
        ReadStop::Fault
    }
}

impl From<AllocError> for ReadStop {
    ghost from_gives = { λ _ e. e ≡ Memory };

    fn from(_e: AllocError) -> ReadStop {
        ReadStop::Memory
    }
}

impl<T: Drop> From<AllocFailed<T>> for ReadStop {
    ghost from_gives = { λ _ e. e ≡ Memory };

    fn from(_e: AllocFailed<T>) -> ReadStop {
        ReadStop::Memory
    }
}

/// How many bytes one call of the shelf is asked for.
const CHUNK: usize = 4096;

// The bytes of the file of that name, which is the command's file with that number. Of a file that is longer
// than its limit no more than the limit is kept.
fn read_file<F: Shelf>(
    alloc: Global,
    shelf: &mut F,
    name: &Word,
    number: usize,
    limit: usize,
) -> Result<Vec<u8>, ReadStop>
    requires name { IsTrue (F.admits shelf.old name.now) }
    requires limit { limit < 2 ^ 32 }
    ensures reads { Reads (F.files shelf.old) name.now number limit (F.faults shelf.old) (F.faults shelf.new) result }
    ensures asks { AsksFile F.leads shelf.old shelf.new name.now limit result }
    ensures later { F.faults shelf.old ≤ F.faults shelf.new }
    ensures files { F.files shelf.new ≡ F.files shelf.old }
    ensures names { F.admits shelf.new ≡ F.admits shelf.old }
{
    shelf.start(name)?;
    let mut bytes = Vec::new(alloc);
    let mut chunk = [0u8; CHUNK];
    'chunks: loop {
        let count = shelf.read(&mut chunk)?;
        if count == 0 {
            return Ok(bytes);
        }
        if count > limit - bytes.len() {
            return Err(ReadStop::TooLong(number));
        }
        bytes.extend_from_slice(&chunk[..count])?;
    }
}

/// The bytes of the files of a command, in their order.
pub fn read_files<F: Shelf>(
    alloc: Global,
    shelf: &mut F,
    kind: Kind,
    names: &Operands<'_>,
) -> Result<Vec<Vec<u8>>, ReadStop>
    requires { AdmitsEach (F.admits shelf.old) names.now }
    ensures count { IfOk result (λ files. length files.items ≡ length names.now) }
    ensures gathers { Gathers (F.files shelf.old) (record { kind = kind; files = names.now })
        (F.faults shelf.old) (F.faults shelf.new) result }
    ensures asks { AsksFiles F.leads shelf.old shelf.new kind names.now result }
    ensures later { F.faults shelf.old ≤ F.faults shelf.new }
{
    let mut files = Vec::new(alloc);
    for number in 0..names.len() {
        let name = names.at(number);
        match read_file(alloc, shelf, name, number, limit_of(kind, number)) {
            Ok(bytes) => files.push(bytes)?,
            Err(stop) => return Err(stop),
        }
    }
    Ok(files)
}
