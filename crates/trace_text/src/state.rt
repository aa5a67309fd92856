//! The lines of a dump, and those of the instructions that run.
ghost use Rattle.std.specs.Prelude.{◌≡◌};
ghost use Rattle.arrayvec.specs.ArrayVec.{array_vec_len};
ghost use Rattle.trace_text.specs.Text.{text};

use crate::field::{add_address, add_field, add_owner, add_queue};
use domain_model::TraceLine;
use mote_base::{Line, add_byte, add_text};

#[tactic(auto, unfolding(crate::specs::Text::text))]
pub fn put_dump_module(line: &mut Line, id: u8, domain: u8, state: u16)
    requires { array_vec_len line.old ≡ 0 }
    ensures { line.new.items ≡ text (TraceLine.DumpModule id domain state) }
{
    add_text(line, b"d module");
    add_field(line, u64::from(id));
    add_field(line, u64::from(domain));
    add_address(line, state);
    add_text(line, b"\n");
}

#[tactic(auto, unfolding(crate::specs::Text::text))]
pub fn put_dump_block(line: &mut Line, address: u16, bytes: u16, owner: Option<u8>)
    requires { array_vec_len line.old ≡ 0 }
    ensures { line.new.items ≡ text (TraceLine.DumpBlock address bytes owner) }
{
    add_text(line, b"d block");
    add_address(line, address);
    add_field(line, u64::from(bytes));
    add_text(line, b" ");
    add_owner(line, owner);
    add_text(line, b"\n");
}

#[tactic(auto, unfolding(crate::specs::Text::text))]
pub fn put_dump_msg(line: &mut Line, high: bool, from: u8, to: u8, sort: u8, address: u16)
    requires { array_vec_len line.old ≡ 0 }
    ensures { line.new.items ≡ text (TraceLine.DumpMsg high from to sort address) }
{
    add_text(line, b"d ");
    add_queue(line, high);
    add_field(line, u64::from(from));
    add_field(line, u64::from(to));
    add_field(line, u64::from(sort));
    add_address(line, address);
    add_text(line, b"\n");
}

#[tactic(auto, unfolding(crate::specs::Text::text))]
pub fn put_dump_timer(line: &mut Line, module: u8, id: u8, due: u64)
    requires { array_vec_len line.old ≡ 0 }
    ensures { line.new.items ≡ text (TraceLine.DumpTimer «module» id due) }
{
    add_text(line, b"d timer");
    add_field(line, u64::from(module));
    add_field(line, u64::from(id));
    add_field(line, due);
    add_text(line, b"\n");
}

#[tactic(auto, unfolding(crate::specs::Text::text))]
pub fn put_ran(line: &mut Line, pc: u16, word: u16, sp: u16, sreg: u8)
    requires { array_vec_len line.old ≡ 0 }
    ensures { line.new.items ≡ text (TraceLine.Ran pc word sp sreg) }
{
    add_text(line, b"w");
    add_address(line, pc);
    add_address(line, word);
    add_address(line, sp);
    add_text(line, b" ");
    add_byte(line, sreg);
    add_text(line, b"\n");
}
