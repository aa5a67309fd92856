//! The commands, and the options of a run.
ghost use Rattle.command_line.specs.Command.{CommandsAreByRules, CommandsAreWithinLimits};

/// What the words of the command line ask for.
#[derive(Clone, Copy, Debug, PartialEq, Eq)]
pub enum Kind {
    /// Run a script over images: at most so many units in the run, and in one handler; and tell the words that are run,
    /// or don't.
    Run {
        units: u64,
        handler: u64,
        words: bool,
    },
    /// Make one file of another.
    Tool(Tool),
    /// Run the input that a seed makes, and sum the run up.
    Generation {
        seed: u32,
    },
}

/// What a command makes that takes one file and no options.
#[derive(Clone, Copy, Debug, PartialEq, Eq)]
pub enum Tool {
    /// The list of the units of an image.
    Listing,
    /// The image in the second version of the format.
    Upgrade,
    /// The image, sealed.
    Seal,
    /// The image, rewritten.
    Rewriting,
    /// The verdict on the words of a rewritten image.
    Verdict,
    /// The image of a module's text.
    Assembly,
    /// The text of an image.
    Source,
}

/// A limit of a run that an option gives.
#[derive(Clone, Copy, Debug, PartialEq, Eq)]
pub enum Setting {
    /// On the units of the run.
    Units,
    /// On the units of one handler.
    Handler,
}

/// Where a word of the command line stands, by the words before it.
#[derive(Clone, Copy, Debug, PartialEq, Eq)]
pub enum Place {
    /// Where an option may stand, and an operand too.
    Options,
    /// Behind an option that has its value in the next word.
    Value(Setting),
    /// Behind the end of the options.
    Operands,
}

/// Law: words are a command exactly where the rules of the command line say so, and then they are that one. The rules
/// speak of operands, of options with their values and of the flag; the definition that reads the words from the left
/// has neither more commands nor fewer. The limits of a run are in their ranges, whether they are given or not, and so
/// is a seed.
pub fn commands_are_by_rules()
    ensures rules { CommandsAreByRules }
    ensures limits { CommandsAreWithinLimits }
{}
