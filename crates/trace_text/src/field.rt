//! Fields of a line: words behind a space.
ghost use Rattle.std.specs.Prelude.{◌≡◌, ◌≤◌, ◌+◌, ◌++◌, ◌∷◌, length, decimal, codes};
ghost use Rattle.arrayvec.specs.ArrayVec.{array_vec_len};
ghost use Rattle.mote_base.specs.Digits.{long_width, short_width, word_digits, word_width};
ghost use Rattle.mote_base.specs.Lines.{line_bytes};
ghost use Rattle.trace_text.specs.Text.{owner_text, queue_text, rule_text, why_text};

use domain_model::{Rule, Why};
use mote_base::{Line, add_number, add_short, add_text, add_word};

/// Adds a space and a number.
pub fn add_field(line: &mut Line, number: u64)
    requires { array_vec_len line.old + (1 + long_width) ≤ line_bytes }
    ensures items { line.new.items ≡ line.old.items ++ (codes " " ++ decimal number) }
    ensures len { array_vec_len line.new ≤ array_vec_len line.old + (1 + long_width) }
{
    add_text(line, b" ");
    add_number(line, number);
}

/// Adds a space and a number of 16 bits.
pub fn add_short_field(line: &mut Line, number: u16)
    requires { array_vec_len line.old + (1 + short_width) ≤ line_bytes }
    ensures items { line.new.items ≡ line.old.items ++ (codes " " ++ decimal number) }
    ensures len { array_vec_len line.new ≤ array_vec_len line.old + (1 + short_width) }
{
    add_text(line, b" ");
    add_short(line, number);
}

/// Adds a space and an address or a word of code.
pub fn add_address(line: &mut Line, address: u16)
    requires { array_vec_len line.old + (1 + word_width) ≤ line_bytes }
    ensures items { line.new.items ≡ line.old.items ++ (codes " " ++ word_digits address) }
    ensures len { array_vec_len line.new ≡ array_vec_len line.old + (1 + word_width) }
{
    add_text(line, b" ");
    add_word(line, address);
}

/// Adds the rule of a fault.
pub fn add_rule(line: &mut Line, rule: Rule)
    requires { array_vec_len line.old + 10 ≤ line_bytes }
    ensures items { line.new.items ≡ line.old.items ++ rule_text rule }
    ensures len { array_vec_len line.new ≤ array_vec_len line.old + 10 }
{
    match rule {
        Rule::Store => add_text(line, b"store"),
        Rule::Load => add_text(line, b"load"),
        Rule::StackOver => add_text(line, b"stackover"),
        Rule::StackUnder => add_text(line, b"stackunder"),
        Rule::Depth => add_text(line, b"depth"),
        Rule::Balance => add_text(line, b"balance"),
        Rule::Watchdog => add_text(line, b"watchdog"),
        Rule::Owner => add_text(line, b"owner"),
        Rule::Target => add_text(line, b"target"),
    }
}

/// Adds why an interrupt was dropped.
pub fn add_why(line: &mut Line, why: Why)
    requires { array_vec_len line.old + 6 ≤ line_bytes }
    ensures items { line.new.items ≡ line.old.items ++ why_text why }
    ensures len { array_vec_len line.new ≤ array_vec_len line.old + 6 }
{
    match why {
        Why::Module => add_text(line, b"module"),
        Why::Queue => add_text(line, b"queue"),
        Why::Room => add_text(line, b"room"),
    }
}

/// Adds the owner of a block.
pub fn add_owner(line: &mut Line, owner: Option<u8>)
    requires { array_vec_len line.old + long_width ≤ line_bytes }
    ensures items { line.new.items ≡ line.old.items ++ owner_text owner }
    ensures len { array_vec_len line.new ≤ array_vec_len line.old + long_width }
{
    match owner {
        None => add_text(line, b"k"),
        Some(id) => add_number(line, u64::from(id)),
    }
}

/// Adds the queue of a message.
pub fn add_queue(line: &mut Line, high: bool)
    requires { array_vec_len line.old + 4 ≤ line_bytes }
    ensures items { line.new.items ≡ line.old.items ++ queue_text high }
    ensures len { array_vec_len line.new ≤ array_vec_len line.old + 4 }
{
    match high {
        true => add_text(line, b"high"),
        false => add_text(line, b"low"),
    }
}
