//! The files of the system.
ghost use Rattle.std.specs.Prelude.{◌≡◌, ◌<◌, ◌≤◌, length, take, drop, is_some, ⊤, true, false, None, IfOk, OnErr};
ghost use Rattle.std.specs.Io.KnownBytes.{Consumes, IsAtEnd, Keeps};
ghost use Rattle.mote_base.specs.Causes.{Rose};

use mote_base::{Failed, Shelf, Word};
use std::fs::File;
use std::io;
use std::io::{ErrorKind, Read};

#[cfg(test)]
mod tests;

/// The files of the system, by their paths. It tells no content, and may be asked for every name.
///
/// Choosing a file is the one call that may take memory; where there is none it fails.
#[derive(Drop)]
pub struct FileShelf<'a> {
    rt: &'a HostRuntime,
    file: Option<File>,
    faults: u64,
}

impl<'a> FileShelf<'a> {
    pub fn new(rt: &'a HostRuntime) -> FileShelf<'a>
        ensures faults { ⟦<FileShelf<'a> as Shelf>⟧.faults result ≡ 0 }
        ensures chosen { ⟦<FileShelf<'a> as Shelf>⟧.is_chosen result ≡ false }
    {
        let file = None;
        FileShelf {
            rt,
            file,
            faults: 0,
        }
    }

    // A call fails: it is counted, and no file is chosen any more.
    fn fail(&mut self) -> Failed
        ensures none { is_some self.new.file ≡ false }
        ensures counted { Rose self.old.faults self.new.faults }
        ensures later { self.old.faults ≤ self.new.faults }
    {
        self.file = None;
        self.faults = self.faults.saturating_add(1);
        Failed
    }
}

/// The most bytes that one read is asked for.
const CHUNK: usize = 4096;

// One read. One that a signal cut short is made again.
fn read_once<R: Read>(file: &mut R, buf: &mut [u8]) -> io::Result<usize>
    ensures bound { IfOk result (λ n. n ≤ length buf.new) }
    ensures bytes { IfOk result (λ n. Consumes (R.remaining file.old) (R.remaining file.new) (take n buf.new)) }
    ensures end { IfOk result (λ n. n ≡ 0 → 0 < length buf.old → IsAtEnd (R.remaining file.new)) }
    ensures kept { OnErr result (Keeps (R.remaining file.old) (R.remaining file.new)) }
{
    for _ in 0..u64::MAX {
        match file.read(buf) {
            Err(e) if e.kind() == ErrorKind::Interrupted => {}
            answer => return answer,
        }
    }
    Err(io::Error::from(ErrorKind::Interrupted))
}

// The next bytes of a file: none only at its end and for an empty buffer. An error is a failure, and gave no byte. They
// are read into a chunk and copied, since no clause of std says that a read leaves the rest of its buffer.
fn read_some<R: Read>(file: &mut R, buf: &mut [u8]) -> Result<usize, Failed>
    ensures bound { IfOk result (λ n. n ≤ length buf.new) }
    ensures bytes { IfOk result (λ n. Consumes (R.remaining file.old) (R.remaining file.new) (take n buf.new)) }
    ensures end { IfOk result (λ n. n ≡ 0 → 0 < length buf.old → IsAtEnd (R.remaining file.new)) }
    ensures rest { IfOk result (λ n. drop n buf.new ≡ drop n buf.old) }
    ensures kept { OnErr result (Keeps (R.remaining file.old) (R.remaining file.new)) }
{
    let mut chunk = [0u8; CHUNK];
    let wanted = buf.len().min(CHUNK);
    match read_once(file, &mut chunk[..wanted]) {
        Ok(count) => {
            buf[..count].copy_from_slice(&chunk[..count]);
            Ok(count)
        }
        Err(_) => Err(Failed),
    }
}

impl<'a> Shelf for FileShelf<'a> {
    ghost files = { λ _. None };

    ghost place = { λ _. None };

    ghost is_chosen = { λ s. is_some s.file };

    ghost admits = { λ _ _. true };

    ghost faults = { λ s. s.faults };

    ghost leads = { λ _ _ _ _. ⊤ };

    fn start(&mut self, name: &Word) -> Result<(), Failed> {
        match File::open(self.rt, name.text()) {
            Ok(file) => {
                self.file = Some(file);
                Ok(())
            }
            Err(_) => Err(self.fail()),
        }
    }

    fn read(&mut self, buf: &mut [u8]) -> Result<usize, Failed> {
        let Some(file) = &mut self.file else {
            unreachable!();
        };
        match read_some(file, buf) {
            Err(_) => Err(self.fail()),
            given => given,
        }
    }
}
