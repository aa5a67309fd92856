//! The words of the command line.
ghost use Rattle.std.specs.Prelude.{◌≡◌, Some};
ghost use Rattle.command_line.specs.Command.{generation, kind_of, tool_of, tool_limit, takes, limit_of, files_of, given_by, nothing_given, command_with, command_of};
ghost use Rattle.mote_sim.specs.Request.{command_parts, asked, HasItsOperands, HasItsLimits};

use crate::given::Given;
use crate::operands::Operands;
use command_line::{Kind, Tool};
use mote_base::{Word, number_in};
use mote_layout::{DEFAULT_HANDLER_UNITS, DEFAULT_UNITS, IMAGE_BYTES, IMAGES, SCRIPT_BYTES};

/// What the words ask for.
#[derive(Drop)]
pub enum Request<'a> {
    /// They are no command.
    Usage,
    /// The command of that kind with these files.
    Command(Kind, Operands<'a>),
}

// The tool of that name.
fn tool_of(verb: &Word) -> Option<Tool>
    ensures { result ≡ tool_of verb.now }
{
    if verb.text() == "list" {
        Some(Tool::Listing)
    } else if verb.text() == "upgrade" {
        Some(Tool::Upgrade)
    } else if verb.text() == "seal" {
        Some(Tool::Seal)
    } else if verb.text() == "rewrite" {
        Some(Tool::Rewriting)
    } else if verb.text() == "verify" {
        Some(Tool::Verdict)
    } else if verb.text() == "asm" {
        Some(Tool::Assembly)
    } else if verb.text() == "source" {
        Some(Tool::Source)
    } else {
        None
    }
}

// `gen`, of the seed that is the one operand.
fn generation(
    units: Option<u64>,
    handler: Option<u64>,
    words: bool,
    operands: &Operands<'_>,
) -> Option<Kind>
    ensures { result ≡ generation units handler words operands.now }
{
    if units.is_some() || handler.is_some() || words || operands.len() != 1 {
        return None;
    }
    let seed = number_in(operands.at(0).text().as_bytes(), 0, u32::MAX.into())?;
    Some(Kind::Generation { seed: seed as u32 })
}

// The command of that name with these limits, with the flag or without it, and with these operands.
fn kind_of(
    verb: &Word,
    units: Option<u64>,
    handler: Option<u64>,
    words: bool,
    operands: &Operands<'_>,
) -> Option<Kind>
    ensures { result ≡ kind_of verb.now units handler words operands.now }
{
    if verb.text() == "run" {
        return Some(Kind::Run {
            units: units.unwrap_or(DEFAULT_UNITS),
            handler: handler.unwrap_or(DEFAULT_HANDLER_UNITS),
            words,
        });
    }
    if verb.text() == "gen" {
        return generation(units, handler, words, operands);
    }
    match (units, handler, words) {
        (None, None, false) => Some(Kind::Tool(tool_of(verb)?)),
        _ => None,
    }
}

// The operands that name files: all, but of `gen`.
fn files_of<'a>(kind: Kind, operands: Operands<'a>, blank: &'a Word) -> Operands<'a>
    ensures { result ≡ files_of kind operands.entry }
{
    match kind {
        Kind::Run { .. } => operands,
        Kind::Tool(_) => operands,
        Kind::Generation { .. } => Operands::new(blank),
    }
}

// Whether a command takes so many files: `run` a script and 1 to 64 images, a tool one file, and `gen` none.
fn takes(kind: Kind, count: usize) -> bool
    ensures { result ≡ takes kind count }
{
    match kind {
        Kind::Run { .. } => (2..=1 + IMAGES).contains(&count),
        Kind::Tool(_) => count == 1,
        Kind::Generation { .. } => count == 0,
    }
}

// The most bytes of a tool's file.
fn tool_limit(tool: Tool) -> usize
    ensures { result ≡ tool_limit tool }
{
    match tool {
        Tool::Assembly => SCRIPT_BYTES,
        _ => IMAGE_BYTES,
    }
}

/// The most bytes of the command's file with that number, counted from 0.
pub fn limit_of(kind: Kind, number: usize) -> usize
    ensures { result ≡ limit_of kind number }
{
    match kind {
        Kind::Run { .. } => {
            if number == 0 {
                SCRIPT_BYTES
            } else {
                IMAGE_BYTES
            }
        }
        Kind::Tool(tool) => tool_limit(tool),
        Kind::Generation { .. } => 0,
    }
}

// What the words behind the first one say.
fn given_by<'a>(verb: &'a Word, words: &'a [Word]) -> Option<Given<'a>>
    ensures { result ≡ given_by words.now (Some nothing_given) }
{
    let mut given = Given::nothing(verb);
    for word in words {
        given.take(word)?;
    }
    Some(given)
}

// The command, where the words are one.
fn command_of<'a>(verb: &'a Word, words: &'a [Word]) -> Option<(Kind, Operands<'a>)>
    ensures { command_parts result ≡ command_with verb.now (given_by words.now (Some nothing_given)) }
{
    let given = given_by(verb, words)?;
    if given.waits() {
        return None;
    }
    let kind = kind_of(
        verb,
        given.units(),
        given.handler(),
        given.words(),
        given.operands(),
    )?;
    let files = files_of(kind, given.into_operands(), verb);
    takes(kind, files.len()).then_some((kind, files))
}

/// What the words of the command line ask for.
pub fn request_of(words: &[Word]) -> Request<'_>
    ensures asked { asked result ≡ command_of words.now }
    ensures operands { HasItsOperands result }
    ensures limits { HasItsLimits result }
{
    match words {
        [] => Request::Usage,
        [verb, words @ ..] => match command_of(verb, words) {
            None => Request::Usage,
            Some((kind, files)) => Request::Command(kind, files),
        },
    }
}
