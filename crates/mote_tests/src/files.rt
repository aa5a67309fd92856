//! Files of a table, from what it tells of them.
//!
//! `lines L;L;L` has lines, `hex BB BB` bytes, and `image ID FIELDS` is the image of a module. The fields, with what
//! holds where one is left out: `version` (1), `flags` (0), `state` (0 bytes), `handler` (word 0), `provides` with a
//! list of FUNC/PROTO/WORD, `subscribes` with one of MODULE/FUNC/PROTO, `const` with bytes, `code` with words. Bytes
//! and words of code are told by their hexadecimal digits, and `xN` behind them is N of them.

use std::alloc::Global;
use std::test::Fail;

/// The bytes of a file, from its kind and what stands behind it.
pub(crate) fn file_bytes(alloc: Global, told: &str) -> Result<Vec<u8>, Fail> {
    let (kind, rest) = halves(told, ' ')?;
    let mut bytes = Vec::new(alloc);
    match kind {
        "lines" => add_lines(&mut bytes, rest)?,
        "hex" => add_all_hex(&mut bytes, rest)?,
        _ => return image(alloc, rest),
    }
    Ok(bytes)
}

/// What stands on both sides of the first mark.
pub(crate) fn halves(text: &str, mark: char) -> Result<(&str, &str), Fail> {
    match text.split_once(mark) {
        Some(sides) => Ok(sides),
        None => Err(Fail::new("a part is missing")),
    }
}

/// Lines that are parted by `;`, each with its line feed.
pub(crate) fn add_lines(bytes: &mut Vec<u8>, told: &str) -> Result<(), Fail> {
    for line in told.split(';') {
        bytes.extend_from_slice(line.as_bytes())?;
        bytes.push(b'\n')?;
    }
    Ok(())
}

fn add_all_hex(bytes: &mut Vec<u8>, told: &str) -> Result<(), Fail> {
    for word in told.split(' ') {
        add_hex(bytes, word, false)?;
    }
    Ok(())
}

/// A byte, or a word with its low byte first, as often as is told.
fn add_hex(bytes: &mut Vec<u8>, told: &str, whole_word: bool) -> Result<(), Fail> {
    let (digits, count) = told.split_once('x').unwrap_or((told, "1"));
    let [low, high] = u16::from_str_radix(digits, 16)?.to_le_bytes();
    for _ in 0..number(count)? {
        bytes.push(low)?;
        if whole_word {
            bytes.push(high)?;
        }
    }
    Ok(())
}

pub(crate) fn number(word: &str) -> Result<u32, Fail> {
    Ok(word.parse::<u32>()?)
}

/// The lowest two bytes of a number.
fn two_bytes(word: &str) -> Result<[u8; 2], Fail> {
    let [low, high, _, _] = number(word)?.to_le_bytes();
    Ok([low, high])
}

/// The fields of an image.
#[derive(Clone, Copy)]
enum Field {
    Id,
    Version,
    Flags,
    State,
    Handler,
    Provides,
    Subscribes,
    Const,
    Code,
}

fn field_named(word: &str) -> Option<Field> {
    match word {
        "version" => Some(Field::Version),
        "flags" => Some(Field::Flags),
        "state" => Some(Field::State),
        "handler" => Some(Field::Handler),
        "provides" => Some(Field::Provides),
        "subscribes" => Some(Field::Subscribes),
        "const" => Some(Field::Const),
        "code" => Some(Field::Code),
        _ => None,
    }
}

/// An image as far as it is told: its fields in the order of the file, and its lists as they stand there.
#[derive(Drop)]
struct Gathered {
    version: u8,
    id: u8,
    flags: u8,
    state: [u8; 2],
    handler: [u8; 2],
    provides: u8,
    subscribes: u8,
    face: Vec<u8>,
    constants: Vec<u8>,
    code: Vec<u8>,
}

impl Gathered {
    /// One more word of a field.
    fn take(&mut self, field: Field, word: &str) -> Result<(), Fail> {
        match field {
            Field::Id => [self.id, _] = two_bytes(word)?,
            Field::Version => [self.version, _] = two_bytes(word)?,
            Field::Flags => [self.flags, _] = two_bytes(word)?,
            Field::State => self.state = two_bytes(word)?,
            Field::Handler => self.handler = two_bytes(word)?,
            Field::Provides => {
                self.provides = self.provides.wrapping_add(1);
                add_provided(&mut self.face, word)?;
            }
            Field::Subscribes => {
                self.subscribes = self.subscribes.wrapping_add(1);
                add_subscribed(&mut self.face, word)?;
            }
            Field::Const => add_hex(&mut self.constants, word, false)?,
            Field::Code => add_hex(&mut self.code, word, true)?,
        }
        Ok(())
    }

    fn file(&self, alloc: Global) -> Result<Vec<u8>, Fail> {
        let [s0, s1] = self.state;
        let [h0, h1] = self.handler;
        let words = half(self.code.len());
        let header = [
            b'S',
            b'O',
            b'S',
            b'M',
            self.version,
            self.id,
            self.flags,
            s0,
            s1,
            h0,
            h1,
            self.provides,
            self.subscribes,
            words[0],
            words[1],
        ];
        let mut file = Vec::from_slice(alloc, &header)?;
        if self.version == 2 {
            file.extend_from_slice(&length_bytes(self.constants.len()))?;
        }
        file.extend_from_slice(self.face.as_slice())?;
        file.extend_from_slice(self.code.as_slice())?;
        file.extend_from_slice(self.constants.as_slice())?;
        Ok(file)
    }
}

/// The two bytes of a length.
fn length_bytes(length: usize) -> [u8; 2] {
    let [low, high, _, _, _, _, _, _] = length.to_le_bytes();
    [low, high]
}

fn half(length: usize) -> [u8; 2] {
    length_bytes(length / 2)
}

fn add_provided(bytes: &mut Vec<u8>, told: &str) -> Result<(), Fail> {
    let (func, rest) = halves(told, '/')?;
    let (proto, word) = halves(rest, '/')?;
    bytes.push(two_bytes(func)?[0])?;
    bytes.extend_from_slice(proto.as_bytes())?;
    bytes.extend_from_slice(&two_bytes(word)?)?;
    Ok(())
}

fn add_subscribed(bytes: &mut Vec<u8>, told: &str) -> Result<(), Fail> {
    let (provider, rest) = halves(told, '/')?;
    let (func, proto) = halves(rest, '/')?;
    bytes.push(two_bytes(provider)?[0])?;
    bytes.push(two_bytes(func)?[0])?;
    bytes.extend_from_slice(proto.as_bytes())?;
    Ok(())
}

fn image(alloc: Global, told: &str) -> Result<Vec<u8>, Fail> {
    let mut gathered = Gathered {
        version: 1,
        id: 0,
        flags: 0,
        state: [0, 0],
        handler: [0, 0],
        provides: 0,
        subscribes: 0,
        face: Vec::new(alloc),
        constants: Vec::new(alloc),
        code: Vec::new(alloc),
    };
    let mut field = Field::Id;
    for word in told.split(' ') {
        match field_named(word) {
            Some(named) => field = named,
            None => gathered.take(field, word)?,
        }
    }
    gathered.file(alloc)
}
