//! The text of a line.
ghost use Rattle.std.specs.Prelude.{◌≡◌, ◌++◌, IfOk, codes, decimal};
ghost use Rattle.avr_list.specs.Lines.{unit_text};
ghost use Rattle.unit_code.specs.Proper.{IsOfKind};
ghost use Rattle.avr_asm.specs.Line.{Rules, dotted, ended, item_text, line_text};
ghost use Rattle.avr_asm.specs.Seen.{seen};

use crate::row::Said;
use avr_list::add_unit;
use itoa::Buffer;
use mote_base::Line;
use std::alloc::{AllocError, Global};
use unit_code::Unit;

pub fn put(out: &mut Vec<u8>, text: &[u8]) -> Result<(), AllocError>
    ensures { IfOk result (λ _. out.new.items ≡ out.old.items ++ text.now) }
{
    out.extend_from_slice(text)
}

fn put_number(out: &mut Vec<u8>, number: u16) -> Result<(), AllocError>
    ensures { IfOk result (λ _. out.new.items ≡ out.old.items ++ decimal number) }
{
    let mut buffer = Buffer::new();
    out.extend_from_slice(buffer.format(number).as_bytes())
}

/// A text and a number behind it.
pub fn put_numbered(out: &mut Vec<u8>, text: &[u8], number: u16) -> Result<(), AllocError>
    ensures { IfOk result (λ _. out.new.items ≡ out.old.items ++ (text.now ++ decimal number)) }
{
    put(out, text)?;
    put_number(out, number)
}

/// A text and another behind it.
pub fn put_two(out: &mut Vec<u8>, text: &[u8], other: &[u8]) -> Result<(), AllocError>
    ensures { IfOk result (λ _. out.new.items ≡ out.old.items ++ (text.now ++ other.now)) }
{
    put(out, text)?;
    put(out, other)
}

fn put_provides(out: &mut Vec<u8>, func: u8, proto: &[u8], goal: &[u8]) -> Result<(), AllocError>
    ensures { IfOk result (λ _. out.new.items ≡ out.old.items
        ++ (codes "provides " ++ (decimal func ++ (codes " " ++ (proto.now ++ (codes " ." ++ goal.now)))))) }
{
    put_numbered(out, b"provides ", u16::from(func))?;
    put_two(out, b" ", proto)?;
    put_two(out, b" .", goal)
}

fn put_function(out: &mut Vec<u8>, func: u8, proto: &[u8]) -> Result<(), AllocError>
    ensures { IfOk result (λ _. out.new.items ≡ out.old.items ++ (codes " " ++ (decimal func ++ (codes " " ++ proto.now)))) }
{
    put_numbered(out, b" ", u16::from(func))?;
    put_two(out, b" ", proto)
}

/// A text, two numbers and a prototype.
pub fn put_subscription(
    out: &mut Vec<u8>,
    text: &[u8],
    provider: u8,
    func: u8,
    proto: &[u8],
) -> Result<(), AllocError>
    ensures { IfOk result (λ _. out.new.items ≡ out.old.items
        ++ (text.now ++ (decimal provider ++ (codes " " ++ (decimal func ++ (codes " " ++ proto.now)))))) }
{
    put_numbered(out, text, u16::from(provider))?;
    put_function(out, func, proto)
}

fn put_branch(out: &mut Vec<u8>, name: &[u8], bit: u8, goal: &[u8]) -> Result<(), AllocError>
    ensures { IfOk result (λ _. out.new.items ≡ out.old.items ++ (name.now ++ (decimal bit ++ (codes ",." ++ goal.now)))) }
{
    put_numbered(out, name, u16::from(bit))?;
    put_two(out, b",.", goal)
}

/// The listing's text of a unit.
pub fn put_unit(out: &mut Vec<u8>, unit: &Unit) -> Result<(), AllocError>
    requires { IsOfKind unit.now }
    ensures { IfOk result (λ _. out.new.items ≡ out.old.items ++ unit_text unit.now) }
{
    let mut line = Line::new();
    add_unit(&mut line, unit);
    put(out, line.as_slice())
}

fn put_item(out: &mut Vec<u8>, unit: &Unit, goal: &[u8]) -> Result<(), AllocError>
    requires { IsOfKind unit.now }
    ensures { IfOk result (λ _. out.new.items ≡ out.old.items ++ item_text unit.now goal.now) }
{
    match unit {
        Unit::Branch { set: true, bit, .. } => put_branch(out, b"brbs ", *bit, goal),
        Unit::Branch {
            set: false,
            bit,
            ..
        } => put_branch(out, b"brbc ", *bit, goal),
        Unit::Jump(_) => put_two(out, b"rjmp .", goal),
        Unit::LocalCall(_) => put_two(out, b"rcall .", goal),
        _ => put_unit(out, unit),
    }
}

/// Adds the text of a line, without its line feed.
fn put_text(out: &mut Vec<u8>, says: &Said<'_>) -> Result<(), AllocError>
    requires { Rules (seen says.now) }
    ensures { IfOk result (λ _. out.new.items ≡ out.old.items ++ line_text (seen says.now)) }
{
    match says {
        Said::Module(id) => put_numbered(out, b"module ", u16::from(*id)),
        Said::Version(version) => put_numbered(out, b"version ", u16::from(*version)),
        Said::State(size) => put_numbered(out, b"state ", *size),
        Said::Handler(goal) => put_two(out, b"handler .", goal),
        Said::Sealed => put(out, b"sealed"),
        Said::Provides { func, proto, goal } => put_provides(out, *func, proto, goal),
        Said::Subscribes {
            provider,
            func,
            proto,
        } => put_subscription(out, b"subscribes ", *provider, *func, proto),
        Said::Const(pairs) => put_two(out, b"const ", pairs),
        Said::Code => put(out, b"code"),
        Said::Label(name) => put_two(out, name, b":"),
        Said::Item(unit, goal) => put_item(out, unit, goal),
    }
}

/// Adds the text of a line with its line feed.
pub fn put_line(out: &mut Vec<u8>, says: &Said<'_>) -> Result<(), AllocError>
    requires { Rules (seen says.now) }
    ensures { IfOk result (λ _. out.new.items ≡ out.old.items ++ ended (seen says.now)) }
{
    put_text(out, says)?;
    put(out, b"\n")
}

/// The text of a line with its line feed.
pub fn ended(alloc: Global, says: &Said<'_>) -> Result<Vec<u8>, AllocError>
    requires { Rules (seen says.now) }
    ensures { IfOk result (λ text. text.items ≡ ended (seen says.now)) }
{
    let mut out = Vec::new(alloc);
    put_line(&mut out, says)?;
    Ok(out)
}
