//! Tables of calls of the program, told as text. A line of a table is one of these:
//!
//! - `@ NAME FILE`: a file, told as `files` says. Of two files of a name the later one counts.
//! - `$ WORDS`: a call that is to end with Done; `$N WORDS`: one that is to end with exit status N.
//! - behind a call, up to an empty line: the lines that it writes, parted by `;` or by line feeds, or `= NAME`, the
//!   bytes of a file.
//! - `!read N` and `!put N`: what the next call asks of its shelf or puts fails at the Nth time, from 0.
//! - `# ..`: a remark on what follows.

use crate::files::{add_lines, file_bytes, halves, number};
use mote_base::{MemShelf, MemSink, NoMemory, Sink, Status, Word};
use mote_sim::mote_main;
use std::alloc::Global;
use std::process::Abort;
use std::test::Fail;

/// A call of a shelf or a put that is never made.
pub(crate) const NEVER: u32 = 1000;

/// What a call of a table writes has at most so many bytes.
const ROOM: usize = 20_000;

/// And so many where the instructions of its run are told.
const TOLD_ROOM: usize = 2_000_000;

#[derive(Drop)]
struct NamedFile {
    name: &'static str,
    bytes: Vec<u8>,
}

/// A call: its words, its exit status, what it writes, and how many of the table's files stand before it.
#[derive(Drop)]
pub(crate) struct Call {
    remark: &'static str,
    words: &'static str,
    status: u8,
    text: Vec<u8>,
    files: usize,
    failing_read: u32,
    failing_put: u32,
}

#[derive(Drop)]
pub(crate) struct Table {
    files: Vec<NamedFile>,
    calls: Vec<Call>,
}

impl Call {
    /// The files that a run is given, a script and images, where the call is one without options that is to end with
    /// Done.
    pub(crate) fn run_files(&self) -> Option<&'static str> {
        let files = self.words.strip_prefix("run ")?;
        (self.status == 0 && !files.contains("-")).then_some(files)
    }

    /// What the call is to write.
    pub(crate) fn text(&self) -> &[u8] {
        self.text.as_slice()
    }
}

/// What is told before the next call.
#[derive(Clone, Copy)]
struct Ahead {
    remark: &'static str,
    failing_read: u32,
    failing_put: u32,
}

const NOTHING_AHEAD: Ahead = Ahead {
    remark: "",
    failing_read: NEVER,
    failing_put: NEVER,
};

impl Table {
    /// What a text tells.
    pub(crate) fn read(alloc: Global, text: &'static str) -> Result<Table, Fail> {
        let mut table = Table {
            files: Vec::new(alloc),
            calls: Vec::new(alloc),
        };
        let mut ahead = NOTHING_AHEAD;
        for row in text.split('\n') {
            let (head, rest) = row.split_once(' ').unwrap_or((row, ""));
            match head {
                "" => (),
                "#" => ahead.remark = rest,
                "!read" => ahead.failing_read = number(rest)?,
                "!put" => ahead.failing_put = number(rest)?,
                "@" => table.add_file(alloc, rest)?,
                "$" => table.add_call(alloc, 0, rest, ahead)?,
                "$2" => table.add_call(alloc, 2, rest, ahead)?,
                "$3" => table.add_call(alloc, 3, rest, ahead)?,
                "$4" => table.add_call(alloc, 4, rest, ahead)?,
                "$5" => table.add_call(alloc, 5, rest, ahead)?,
                "=" => table.add_bytes_of(rest)?,
                _ => table.add_text(row)?,
            }
            if head.starts_with('$') {
                ahead = NOTHING_AHEAD;
            }
        }
        Ok(table)
    }

    pub(crate) fn calls(&self) -> &[Call] {
        self.calls.as_slice()
    }

    fn add_file(&mut self, alloc: Global, told: &'static str) -> Result<(), Fail> {
        let (name, told) = halves(told, ' ')?;
        let bytes = file_bytes(alloc, told)?;
        self.files.push(NamedFile { name, bytes })?;
        Ok(())
    }

    fn add_call(
        &mut self,
        alloc: Global,
        status: u8,
        words: &'static str,
        ahead: Ahead,
    ) -> Result<(), Fail> {
        self.calls.push(Call {
            remark: ahead.remark,
            words,
            status,
            text: Vec::new(alloc),
            files: self.files.len(),
            failing_read: ahead.failing_read,
            failing_put: ahead.failing_put,
        })?;
        Ok(())
    }

    /// Lines that the latest call writes.
    fn add_text(&mut self, row: &str) -> Result<(), Fail> {
        match self.calls.last_mut() {
            Some(call) => add_lines(&mut call.text, row),
            None => Err(Fail::new("lines before a call")),
        }
    }

    /// A file that the latest call writes.
    fn add_bytes_of(&mut self, name: &str) -> Result<(), Fail> {
        let Some(call) = self.calls.last_mut() else {
            return Ok(());
        };
        for file in self.files.iter() {
            if file.name == name {
                call.text.clear();
                call.text.extend_from_slice(file.bytes.as_slice())?;
            }
        }
        Ok(())
    }

    /// A shelf of the first files, those that stand later first.
    fn shelf_of(&self, alloc: Global, count: usize, fails: u32) -> Result<MemShelf, NoMemory> {
        let mut files = Vec::new(alloc);
        for file in self.files.iter().take(count).rev() {
            let bytes = Vec::from_slice(alloc, file.bytes.as_slice())?;
            files.push((Word::from_text(alloc, file.name)?, bytes))?;
        }
        MemShelf::new(alloc, files, vec![in alloc; fails]?)
    }

    /// A shelf of all files, which never fails.
    pub(crate) fn shelf(&self, alloc: Global) -> Result<MemShelf, NoMemory> {
        self.shelf_of(alloc, self.files.len(), NEVER)
    }

    /// The bytes of the file of a name that stands before a call.
    pub(crate) fn file(&self, call: &Call, name: &str) -> Result<&[u8], Fail> {
        for file in self.files.iter().take(call.files).rev() {
            if file.name == name {
                return Ok(file.bytes.as_slice());
            }
        }
        Err(Fail::new("a file is missing"))
    }

    /// The file that stands last before a call.
    pub(crate) fn last_file(&self, call: &Call) -> &[u8] {
        match self.files.get(call.files.wrapping_sub(1)) {
            Some(file) => file.bytes.as_slice(),
            None => &[],
        }
    }
}

/// A shelf with the script `s` that loads an image at time 0, and the image `a`.
pub(crate) fn load_shelf(alloc: Global, image: &[u8]) -> Result<MemShelf, NoMemory> {
    let script = Vec::from_slice(alloc, b"0 load 0\n")?;
    let image = Vec::from_slice(alloc, image)?;
    let mut files = Vec::new(alloc);
    files.push((Word::from_text(alloc, "s")?, script))?;
    files.push((Word::from_text(alloc, "a")?, image))?;
    MemShelf::new(alloc, files, vec![in alloc]?)
}

/// The top call on words that are parted by spaces.
#[tactic(auto, using(crate::proofs::Admitted::all_admitted))]
pub(crate) fn answer<W: Sink>(
    alloc: Global,
    line: &str,
    shelf: &mut MemShelf,
    out: &mut W,
) -> Result<Status, NoMemory> {
    let mut words = Vec::new(alloc);
    for word in line.split(' ') {
        words.push(Word::from_text(alloc, word)?)?;
    }
    Ok(mote_main(alloc, &words, shelf, out))
}

/// A call is answered as it says.
fn check_call(rt: &impl Abort, alloc: Global, table: &Table, call: &Call) -> Result<(), NoMemory> {
    let mut shelf = table.shelf_of(alloc, call.files, call.failing_read)?;
    let mut out = MemSink::new(alloc, ROOM, vec![in alloc; call.failing_put]?)?;
    let status = answer(alloc, call.words, &mut shelf, &mut out)?;
    assert_eq!(rt;
        status.code(),
        call.status,
        "{}: {}",
        call.remark,
        call.words
    );
    assert_eq!(rt; out.bytes(), call.text(), "{}: {}", call.remark, call.words);
    Ok(())
}

/// A text without its lines that begin with `w` and a space.
fn without_told(alloc: Global, text: &[u8]) -> Result<Vec<u8>, NoMemory> {
    let mut kept = Vec::new(alloc);
    for line in text.split_inclusive(|byte| *byte == b'\n') {
        if !line.starts_with(b"w ") {
            kept.extend_from_slice(line)?;
        }
    }
    Ok(kept)
}

/// A run is answered as its call says also where its instructions are told, but for their lines.
pub(crate) fn check_told(
    rt: &impl Abort,
    alloc: Global,
    table: &Table,
    call: &Call,
) -> Result<(), Fail> {
    let Some(rest) = call.words.strip_prefix("run ") else {
        return Ok(());
    };
    if call.failing_read != NEVER || call.failing_put != NEVER {
        return Ok(());
    }
    let words = format!(in alloc; "run --words {rest}")?;
    let mut shelf = table.shelf_of(alloc, call.files, NEVER)?;
    let mut out = MemSink::new(alloc, TOLD_ROOM, vec![in alloc; NEVER]?)?;
    let status = answer(alloc, &words, &mut shelf, &mut out)?;
    assert_eq!(rt; status.code(), call.status, "{}: {}", call.remark, words);
    let kept = without_told(alloc, out.bytes())?;
    assert_eq!(rt; kept.as_slice(), call.text(), "{}: {}", call.remark, words);
    Ok(())
}

/// Each call of a table is answered as it says.
pub(crate) fn check_table(rt: &impl Abort, alloc: Global, text: &'static str) -> Result<(), Fail> {
    let table = Table::read(alloc, text)?;
    for call in table.calls() {
        check_call(rt, alloc, &table, call)?;
    }
    Ok(())
}
