//! What the words of a command line say, read from the left.
ghost use Rattle.std.specs.Prelude.{◌≡◌, Some, None, MatchOption};
ghost use Rattle.command_line.specs.Command.{is_option, greatest, value_of, behind_front, front_of, nothing_given, units_given, handler_given, flag_given, with_value, with_operand, with_option, with_any, with_word};
ghost use Rattle.mote_sim.specs.Request.{Takes, waits};

use crate::operands::Operands;
use command_line::{Place, Setting};
use mote_base::{Word, number_in};
use mote_layout::{MAX_HANDLER_UNITS, MAX_UNITS};
use std::marker::Model;

/// What the words up to one of them say, and where the next one stands.
#[derive(Drop)]
pub struct Given<'a> {
    place: Place,
    units: Option<u64>,
    handler: Option<u64>,
    words: bool,
    operands: Operands<'a>,
}

impl<'a> Model for Given<'a> {
    ghost use Rattle.command_line.specs.Command.{Given as Said};

    ghost Value = { Said };

    ghost view = { λ g. record { place = g.place; units = g.units; handler = g.handler; words = g.words; operands = g.operands } };
}

fn is_option(word: &Word) -> bool
    ensures { result ≡ is_option word.now }
{
    let text = word.text().as_bytes();
    text.len() > 1 && text[0] == b'-'
}

// The greatest value of an option.
fn greatest(setting: Setting) -> u64
    ensures { result ≡ greatest setting }
{
    match setting {
        Setting::Units => MAX_UNITS,
        Setting::Handler => MAX_HANDLER_UNITS,
    }
}

// What stands behind that front of a word.
fn behind_front<'a>(word: &'a Word, front: &[u8]) -> Option<&'a [u8]>
    ensures { MatchOption result (behind_front front.now word.now ≡ None)
        (λ text. behind_front front.now word.now ≡ Some text.now) }
{
    word.text().as_bytes().strip_prefix(front)
}

impl<'a> Given<'a> {
    /// Before the first word.
    pub fn nothing(blank: &'a Word) -> Given<'a>
        ensures { result ≡ nothing_given }
    {
        Given {
            place: Place::Options,
            units: None,
            handler: None,
            words: false,
            operands: Operands::new(blank),
        }
    }

    // The run's limit is given, where it wasn't yet.
    fn take_units(&mut self, value: u64) -> Option<()>
        ensures { Takes result (units_given self.old.units value self.old) self.new }
    {
        if self.units.is_some() {
            return None;
        }
        self.units = Some(value);
        self.place = Place::Options;
        Some(())
    }

    // The handler's limit is given, where it wasn't yet.
    fn take_handler(&mut self, value: u64) -> Option<()>
        ensures { Takes result (handler_given self.old.handler value self.old) self.new }
    {
        if self.handler.is_some() {
            return None;
        }
        self.handler = Some(value);
        self.place = Place::Options;
        Some(())
    }

    // The flag stands, where it didn't yet.
    fn take_flag(&mut self) -> Option<()>
        ensures { Takes result (flag_given self.old.words self.old) self.new }
    {
        if self.words {
            return None;
        }
        self.words = true;
        self.place = Place::Options;
        Some(())
    }

    // The text is the value of an option.
    fn take_value(&mut self, setting: Setting, text: &[u8]) -> Option<()>
        ensures { Takes result (with_value setting (value_of setting text.now) self.old) self.new }
    {
        let value = number_in(text, 1, greatest(setting))?;
        match setting {
            Setting::Units => self.take_units(value),
            Setting::Handler => self.take_handler(value),
        }
    }

    // The word is an operand.
    fn take_operand(&mut self, word: &'a Word) -> Option<()>
        ensures { Takes result (with_operand word.now self.old) self.new }
    {
        if self.operands.is_full() {
            return None;
        }
        self.operands.push(word);
        Some(())
    }

    // The word is an option, or begins one.
    fn take_option(&mut self, word: &'a Word) -> Option<()>
        ensures { Takes result (with_option word.now self.old) self.new }
    {
        if word.text() == "--units" {
            self.place = Place::Value(Setting::Units);
            return Some(());
        }
        if word.text() == "--handler" {
            self.place = Place::Value(Setting::Handler);
            return Some(());
        }
        if word.text() == "--words" {
            return self.take_flag();
        }
        if let Some(text) = behind_front(word, b"--units=") {
            return self.take_value(Setting::Units, text);
        }
        let text = behind_front(word, b"--handler=")?;
        self.take_value(Setting::Handler, text)
    }

    // The word stands where an option may.
    fn take_any(&mut self, word: &'a Word) -> Option<()>
        ensures { Takes result (with_any word.now self.old) self.new }
    {
        if word.text() == "--" {
            self.place = Place::Operands;
            return Some(());
        }
        if is_option(word) {
            self.take_option(word)
        } else {
            self.take_operand(word)
        }
    }

    /// The next word, or None where it may not stand there.
    pub fn take(&mut self, word: &'a Word) -> Option<()>
        ensures { Takes result (with_word self.old.place word.now self.old) self.new }
    {
        match self.place {
            Place::Options => self.take_any(word),
            Place::Value(setting) => self.take_value(setting, word.text().as_bytes()),
            Place::Operands => self.take_operand(word),
        }
    }

    /// Whether an option waits for its value.
    pub fn waits(&self) -> bool
        ensures { result ≡ waits self.now.place }
    {
        matches!(self.place, Place::Value(_))
    }

    pub fn units(&self) -> Option<u64>
        ensures { result ≡ self.now.units }
    {
        self.units
    }

    pub fn handler(&self) -> Option<u64>
        ensures { result ≡ self.now.handler }
    {
        self.handler
    }

    /// Whether the words are to be told.
    pub fn words(&self) -> bool
        ensures { result ≡ self.now.words }
    {
        self.words
    }

    /// The operands.
    pub fn operands(&self) -> &Operands<'a>
        ensures { result.now ≡ self.now.operands }
    {
        &self.operands
    }

    /// The operands, for good.
    pub fn into_operands(self) -> Operands<'a>
        ensures { result ≡ self.entry.operands }
    {
        self.operands
    }
}
