//! What a line says.
ghost use Rattle.std.specs.Prelude.{◌≡◌, ◌&&◌, [], IfOk, MatchOption, Some, true, false, drop};
ghost use Rattle.std.specs.Str.{bytes_eq};
ghost use Rattle.unit_code.specs.Kinds.{standing_of};
ghost use Rattle.unit_code.specs.declared.unit.Unit.TheVariants.{Branch, Jump, LocalCall};
ghost use Rattle.avr_asm.specs.Line.{Handler, Label, Rules, ended};
ghost use Rattle.avr_asm.specs.Reading.{aiming, bit, candidate, const_of, headed, named_unit, provides, said, standing_item, subscribes, when};
ghost use Rattle.avr_asm.specs.Seen.{seen, seen_option};
ghost use Rattle.avr_asm.specs.Text.{front, is_goal, is_name, is_prototype};

use crate::cut::{back, front, has};
use crate::instruction::named_instruction;
use crate::operand::{bit, module_id, tail};
use crate::row::Said;
use crate::words::{are_pairs, is_goal, is_name, is_printable, value};
use crate::writing::ended;
use module_image::CONSTANTS;
use mote_layout::{KERNEL_CALLS, SLOTS};
use std::alloc::{AllocError, Global};
use unit_code::{Piece, Standing, Unit, standing_of};

/// The longest pairs of digits that spell an image's constants.
const PAIRS_BYTES: usize = 2 * CONSTANTS as usize;

/// The unit of an instruction by itself.
fn standing_item<'a>(standing: Standing) -> Option<Said<'a>>
    ensures { seen_option result ≡ standing_item standing }
{
    match standing {
        Standing::Part(Piece::Whole(Unit::Load(_))) => None,
        Standing::Part(Piece::Whole(unit)) => Some(Said::Item(unit, &[])),
        _ => None,
    }
}

fn aiming(unit: Unit, goal: &[u8]) -> Option<Said<'_>>
    ensures { seen_option result ≡ aiming unit goal.now }
{
    if is_goal(goal) {
        Some(Said::Item(unit, goal))
    } else {
        None
    }
}

fn branching<'a>(set: bool, a: &[u8], b: &'a [u8]) -> Option<Said<'a>>
    ensures { seen_option result ≡ aiming (Branch set (bit a.now) 0) (drop 1 b.now) }
{
    let bit = bit(a);
    aiming(
        Unit::Branch {
            set,
            bit,
            target: 0,
        },
        tail(b),
    )
}

#[tactic(auto, unfolding(crate::specs::Reading::named_unit))]
fn named_unit<'a>(name: &[u8], a: &'a [u8], b: &'a [u8]) -> Option<Said<'a>>
    ensures { seen_option result ≡ named_unit name.now a.now b.now }
{
    if name == b"setsps".as_slice() {
        return Some(Said::Item(Unit::SpGroup { with_sreg: true }, &[]));
    }
    if name == b"setsp".as_slice() {
        return Some(Said::Item(Unit::SpGroup { with_sreg: false }, &[]));
    }
    if name == b"reserve".as_slice() {
        return Some(Said::Item(Unit::Reserve, &[]));
    }
    if name == b"brbs".as_slice() {
        return branching(true, a, b);
    }
    if name == b"brbc".as_slice() {
        return branching(false, a, b);
    }
    if name == b"rjmp".as_slice() {
        return aiming(Unit::Jump(0), tail(a));
    }
    if name == b"rcall".as_slice() {
        return aiming(Unit::LocalCall(0), tail(a));
    }
    if name == b"kcall".as_slice() {
        return Some(Said::Item(
            Unit::KernelCall((value(a) % KERNEL_CALLS as u64) as u8),
            &[],
        ));
    }
    if name == b"scall".as_slice() {
        return Some(Said::Item(Unit::SlotCall((value(a) % SLOTS as u64) as u8), &[]));
    }
    standing_item(standing_of(named_instruction(name, a, b)))
}

/// The four characters of a prototype.
fn prototype(text: &[u8]) -> Option<[u8; 4]>
    ensures { MatchOption result (is_prototype text.now ≡ false) (λ four. (is_prototype text.now ≡ true) × (four ≡ text.now)) }
{
    match text {
        [a, b, c, d]
            if is_printable(*a) && (is_printable(*b) && (is_printable(*c) && is_printable(*d))) =>
            Some([*a, *b, *c, *d]),
        _ => None,
    }
}

fn provides<'a>(func: &[u8], proto: &[u8], goal: &'a [u8]) -> Option<Said<'a>>
    ensures { seen_option result ≡ provides func.now proto.now goal.now }
{
    let Some(proto) = prototype(proto) else {
        return None;
    };
    if !is_goal(goal) {
        return None;
    }
    let func = (value(func) % 256) as u8;
    Some(Said::Provides { func, proto, goal })
}

fn subscribes<'a>(provider: &[u8], func: &[u8], proto: &[u8]) -> Option<Said<'a>>
    ensures { seen_option result ≡ subscribes provider.now func.now proto.now }
{
    let Some(proto) = prototype(proto) else {
        return None;
    };
    let provider = module_id(provider);
    let func = (value(func) % 256) as u8;
    Some(Said::Subscribes {
        provider,
        func,
        proto,
    })
}

fn const_of(pairs: &[u8]) -> Option<Said<'_>>
    ensures { seen_option result ≡ const_of pairs.now }
{
    if are_pairs(pairs) && (1 <= pairs.len() && pairs.len() <= PAIRS_BYTES) {
        Some(Said::Const(pairs))
    } else {
        None
    }
}

fn handler(goal: &[u8]) -> Option<Said<'_>>
    ensures { seen_option result ≡ when (is_goal goal.now) (Handler goal.now) }
{
    if is_goal(goal) {
        Some(Said::Handler(goal))
    } else {
        None
    }
}

#[tactic(auto, unfolding(crate::specs::Reading::headed))]
fn headed<'a>(name: &[u8], rest: &'a [u8]) -> Option<Said<'a>>
    ensures { seen_option result ≡ headed name.now rest.now }
{
    if name == b"module".as_slice() {
        return Some(Said::Module(module_id(rest)));
    }
    if name == b"version".as_slice() {
        return Some(Said::Version(1 + (value(rest).saturating_sub(1) % 2) as u8));
    }
    if name == b"state".as_slice() {
        return Some(Said::State((value(rest) % 65_536) as u16));
    }
    if name == b"handler".as_slice() {
        return handler(tail(rest));
    }
    if name == b"sealed".as_slice() {
        return Some(Said::Sealed);
    }
    if name == b"provides".as_slice() {
        let others = back(rest, b' ');
        return provides(
            front(rest, b' '),
            front(others, b' '),
            tail(back(others, b' ')),
        );
    }
    if name == b"subscribes".as_slice() {
        let others = back(rest, b' ');
        return subscribes(front(rest, b' '), front(others, b' '), back(others, b' '));
    }
    if name == b"const".as_slice() {
        return const_of(rest);
    }
    if name == b"code".as_slice() {
        return Some(Said::Code);
    }
    named_unit(name, front(rest, b','), back(rest, b','))
}

fn label(text: &[u8]) -> Option<Said<'_>>
    ensures { seen_option result ≡ when (is_name (front 58 text.now)) (Label (front 58 text.now)) }
{
    let name = front(text, b':');
    if is_name(name) {
        Some(Said::Label(name))
    } else {
        None
    }
}

#[tactic(auto, unfolding(crate::specs::Reading::candidate))]
fn candidate(text: &[u8]) -> Option<Said<'_>>
    ensures { seen_option result ≡ candidate text.now }
{
    if has(text, b' ') {
        headed(front(text, b' '), back(text, b' '))
    } else if has(text, b':') {
        label(text)
    } else {
        headed(text, &[])
    }
}

fn spells(alloc: Global, says: &Said<'_>, line: &[u8]) -> Result<bool, AllocError>
    requires { Rules (seen says.now) }
    ensures { IfOk result (λ same. same ≡ bytes_eq (ended (seen says.now)) line.now) }
{
    let text = ended(alloc, says)?;
    Ok(text.as_slice() == line)
}

/// What the line says, with its line feed.
#[tactic(auto, unfolding(crate::specs::Reading::said), using(crate::proofs::Rules::candidate_rules))]
pub fn said(alloc: Global, line: &[u8]) -> Result<Option<Said<'_>>, AllocError>
    ensures { IfOk result (λ found. seen_option found ≡ said line.now) }
{
    let Some(says) = candidate(front(line, b'\n')) else {
        return Ok(None);
    };
    let same = spells(alloc, &says, line)?;
    if same { Ok(Some(says)) } else { Ok(None) }
}
