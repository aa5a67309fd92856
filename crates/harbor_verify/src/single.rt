//! Templates of one instruction.

ghost use Rattle.std.specs.Prelude.{◌≡◌, ◌≤◌, drop, length};
ghost use Rattle.harbor_verify.specs.Reading.{short_skip, single_by, single_called, single_entered};
ghost use Rattle.harbor_verify.specs.Walks.{instructions};

use crate::instructions::entry_called;
use crate::several::{jump_at, jumps_over, several_at};
use avr_isa::Instr;
use mote_base::Words;
use mote_layout::{Entry, RETURN_ENTRY};
use unit_code::{Aim, Form, Piece, Standing, Unit};

/// The template that an instruction is by itself, by what it stands for, before the place of the next one.
pub fn single_by(code: &Words<'_>, first: Instr, standing: Standing, next: usize) -> Option<Form>
    requires { next ≤ length code.now }
    ensures { result ≡ single_by first standing (instructions (drop next code.now)) }
{
    match standing {
        Standing::Barred(_) => single_called(first),
        Standing::Part(Piece::Whole(Unit::Plain(_))) => Some(Form::Whole(Unit::Plain(first))),
        Standing::Part(Piece::Whole(Unit::KernelCall(call))) => {
            Some(Form::Whole(Unit::KernelCall(call)))
        }
        Standing::Part(Piece::Whole(Unit::SlotCall(slot))) => {
            Some(Form::Whole(Unit::SlotCall(slot)))
        }
        Standing::Part(Piece::Whole(Unit::Skip(_))) => short_skip(code, first, next),
        Standing::Part(Piece::Aimed(Aim::Branching { set, bit }, offset)) => {
            Some(Form::ShortBranch { set, bit, offset })
        }
        Standing::Part(Piece::Aimed(Aim::Jumping, offset)) => Some(Form::Jumping(offset)),
        _ => None,
    }
}

/// A skip passes over one instruction, and none that would make it the beginning of a long one.
fn short_skip(code: &Words<'_>, skip: Instr, next: usize) -> Option<Form>
    requires { next ≤ length code.now }
    ensures { result ≡ short_skip skip (instructions (drop next code.now)) }
{
    if jumps_over(jump_at(code, next)) || several_at(code, next).is_some() {
        None
    } else {
        Some(Form::ShortSkip(skip))
    }
}

fn single_called(first: Instr) -> Option<Form>
    ensures { result ≡ single_called first }
{
    match first {
        Instr::Call(address) => single_entered(entry_called(address)),
        Instr::Jmp(address) if address == u32::from(RETURN_ENTRY) => {
            Some(Form::Whole(Unit::Return))
        }
        _ => None,
    }
}

/// The unit that the call of an entry is by itself.
fn single_entered(entry: Option<Entry>) -> Option<Form>
    ensures { result ≡ single_entered entry }
{
    match entry {
        Some(Entry::SlotIndirect) => Some(Form::Whole(Unit::SlotIndirect)),
        Some(Entry::Reserve) => Some(Form::Whole(Unit::Reserve)),
        _ => None,
    }
}
