//! Files in memory and the place in the chosen one, which both shelves in memory keep.
ghost use Rattle.std.specs.Prelude.{◌≡◌, ◌≤◌, ◌<◌, ◌-◌, ◌+◌, ◌^◌, length, take, drop, min, Some, None, MatchOption, is_some, true, IsTrue};
ghost use Rattle.mote_base.specs.Files.{held, front_of, Gives};
ghost use Rattle.mote_base.specs.Table.{named, Finds};

use crate::Word;
use std::marker::Model;

/// The index of the chosen file, and how many of its bytes were given.
#[derive(Clone, Copy)]
pub struct Cursor {
    file: usize,
    at: usize,
}

/// Files by name, and a cursor in the chosen one.
#[derive(Drop)]
pub struct Files {
    files: Vec<(Word, Vec<u8>)>,
    chosen: Option<Cursor>,
}

impl Model for Files {
    ghost use Rattle.std.specs.Prelude.{◌≡◌, ◌<◌, ℕ, Some, length};
    ghost use Rattle.mote_base.specs.Shelves.{OpenFiles};
    ghost use Rattle.mote_base.specs.Table.{named, place_in};
    ghost use Rattle.mote_base.specs.declared.files.Cursor.{Cursor};

    ghost Value = { OpenFiles };

    ghost view = { λ s. record { files = named s.files.items; chosen = place_in s.files.items s.chosen } };

    ghost invariant = { λ s. (c : Cursor) → s.chosen ≡ Some c → c.file < length s.files.items };
}

impl Files {
    pub fn new(files: Vec<(Word, Vec<u8>)>) -> Files
        ensures { result ≡ record { files = named files.items; chosen = None } }
    {
        Files {
            files,
            chosen: None,
        }
    }

    /// Chooses the first file of that name, at its front. Where there is none, none is chosen.
    pub fn choose(&mut self, name: &Word) -> bool
        ensures held { result ≡ is_some (held self.old.files name.now) }
        ensures chosen { self.new ≡ record {
          files = self.old.files;
          chosen = front_of (held self.old.files name.now);
        } }
    {
        self.chosen = find(&self.files, name).map(|file| Cursor { file, at: 0 });
        self.chosen.is_some()
    }

    /// Chooses none.
    pub fn close(&mut self)
        ensures { self.new ≡ record { files = self.old.files; chosen = None } }
    {
        self.chosen = None;
    }

    /// Gives the next bytes of the chosen file, as many as there are and fit.
    pub fn next_bytes(&mut self, buf: &mut [u8]) -> usize
        requires { IsTrue (is_some self.old.chosen) }
        ensures bound { result ≤ length buf.new }
        ensures bytes { Gives self.old.chosen self.new.chosen result buf.new }
        ensures rest { drop result buf.new ≡ drop result buf.old }
        ensures chosen { is_some self.new.chosen ≡ true }
        ensures files { self.new.files ≡ self.old.files }
    {
        let Some(Cursor { file, at }) = self.chosen else {
            unreachable!()
        };
        let count = copy_from(&self.files[file].1, at, buf);
        let at = at + count;
        self.chosen = Some(Cursor { file, at });
        count
    }
}

// Where the first file of that name stands.
fn find(files: &[(Word, Vec<u8>)], name: &Word) -> Option<usize>
    ensures { MatchOption result (held (named files.now) name.now ≡ None) (λ i. Finds files.now name.now i) }
{
    for (i, file) in files.iter().enumerate() {
        if file.0.text() == name.text() {
            return Some(i);
        }
    }
    None
}

// Copies the bytes from that place on, as many as there are and fit.
fn copy_from(bytes: &[u8], at: usize, buf: &mut [u8]) -> usize
    ensures count { result ≡ min (length bytes.now - at) (length buf.new) }
    ensures front { take result buf.new ≡ take result (drop at bytes.now) }
    ensures rest { drop result buf.new ≡ drop result buf.old }
{
    if bytes.len() <= at {
        return 0;
    }
    let left = &bytes[at..];
    let count = left.len().min(buf.len());
    buf[..count].copy_from_slice(&left[..count]);
    count
}
