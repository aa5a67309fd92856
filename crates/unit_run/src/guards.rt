//! The entries of the page that look at a need of the unit, or make room on the stack.
ghost use Rattle.std.specs.Prelude.{◌≡◌, ◌<◌, ◌≤◌, ◌+◌, [], Some, nat_le, nat_lt};
ghost use Rattle.mote_layout.specs.Memory.{floor, ram_end, ram_start, register_count};
ghost use Rattle.domain_model.specs.declared.fault.Rule.TheVariants as rule;
ghost use Rattle.domain_model.specs.State.{pair, with_processor, without_counter};
ghost use Rattle.domain_model.specs.Frames.{has_room};
ghost use Rattle.domain_model.specs.Act.{group_sp};
ghost use Rattle.word_run.specs.Entries.{displaced, fallen, group_guarded, guarded, load_guarded, room_made, store_guarded, uncovered};
ghost use Rattle.unit_run.specs.Ways.{way_of};

use crate::arrived::Arrived;
use crate::stack::push_zeros;
use avr_machine::Cpu;
use domain_model::{FaultNote, Rule, Running, UnitEnd};
use kernel_call::Kernel;
use mote_layout::{FLOOR, POINTER_Y};
use store_check::{SpCheck, check_sp};

/// The unit is refused.
pub fn refuse(rule: Rule, address: u16) -> Arrived
    ensures { result ≡ Arrived.Stopped (UnitEnd.Fault (record { rule = rule; address = address })) }
{
    let note = FaultNote { rule, address };
    Arrived::Stopped(UnitEnd::Fault(note))
}

/// The address that lies `q` bytes behind a pointer.
pub fn displaced(cpu: &Cpu, pointer: u8, q: u8) -> u16
    requires { pointer + 1 < register_count }
    ensures { result ≡ displaced (without_counter cpu.now) pointer q }
{
    cpu.pair(pointer).wrapping_add(u16::from(q))
}

/// The address below the one that a pointer has.
pub fn fallen(cpu: &Cpu, pointer: u8) -> u16
    requires { pointer + 1 < register_count }
    ensures { result ≡ fallen (without_counter cpu.now) pointer }
{
    cpu.pair(pointer).wrapping_sub(1)
}

/// The guard of a store to an address.
pub fn guard_store(address: u16, run: &Running, k: &Kernel, back: u16) -> Arrived
    requires running { k.now.running ≡ Some run.now }
    ensures way { way_of result ≡ (store_guarded address run.now k.now back).way }
    ensures kernel { (store_guarded address run.now k.now back).kernel ≡ k.now }
    ensures lines { (store_guarded address run.now k.now back).lines ≡ [] }
{
    if !k.may_store(address) {
        return refuse(Rule::Store, address);
    }
    Arrived::Going(back)
}

/// The guard of a load from an address.
pub fn guard_load(address: u16, run: &Running, k: &Kernel, back: u16) -> Arrived
    requires running { k.now.running ≡ Some run.now }
    ensures way { way_of result ≡ (load_guarded address run.now k.now back).way }
    ensures kernel { (load_guarded address run.now k.now back).kernel ≡ k.now }
    ensures lines { (load_guarded address run.now k.now back).lines ≡ [] }
{
    if !k.may_load(address) {
        return refuse(Rule::Load, address);
    }
    Arrived::Going(back)
}

/// The guard of a push: the stack has room for a byte.
pub fn guard_push(k: &Kernel, back: u16) -> Arrived
    ensures way { way_of result
        ≡ (guarded (nat_lt floor k.now.processor.sp) rule.StackOver k.now.processor.sp k.now back).way }
    ensures kernel { (guarded (nat_lt floor k.now.processor.sp) rule.StackOver k.now.processor.sp k.now back).kernel
        ≡ k.now }
    ensures lines { (guarded (nat_lt floor k.now.processor.sp) rule.StackOver k.now.processor.sp k.now back).lines
        ≡ [] }
{
    let sp = k.cpu().sp;
    if sp <= FLOOR {
        return refuse(Rule::StackOver, sp);
    }
    Arrived::Going(back)
}

/// The guard of a pop: a byte was pushed.
pub fn guard_pop(run: &Running, k: &Kernel, back: u16) -> Arrived
    ensures way { way_of result
        ≡ (guarded (nat_lt k.now.processor.sp run.now.base) rule.StackUnder k.now.processor.sp k.now back).way }
    ensures kernel { (guarded (nat_lt k.now.processor.sp run.now.base) rule.StackUnder k.now.processor.sp k.now back).kernel ≡ k.now }
    ensures lines { (guarded (nat_lt k.now.processor.sp run.now.base) rule.StackUnder k.now.processor.sp k.now back).lines ≡ [] }
{
    let sp = k.cpu().sp;
    if sp >= run.base {
        return refuse(Rule::StackUnder, sp);
    }
    Arrived::Going(back)
}

/// The guard of a group that sets SP to Y. Where SP is to fall, the bytes that it uncovers become 0.
pub fn guard_group(run: &Running, k: &mut Kernel, back: u16) -> Arrived
    requires running { k.old.running ≡ Some run.now }
    requires sp { k.old.processor.sp ≤ ram_end }
    requires base { run.now.base ≤ ram_end }
    ensures way { way_of result
        ≡ (group_guarded (nat_le floor (group_sp k.old.processor)) run.now k.old back).way }
    ensures kernel { k.new ≡ (group_guarded (nat_le floor (group_sp k.old.processor)) run.now k.old back).kernel }
    ensures lines { (group_guarded (nat_le floor (group_sp k.old.processor)) run.now k.old back).lines ≡ [] }
{
    let wanted = k.cpu().pair(POINTER_Y);
    match check_sp(&k.window(), wanted) {
        SpCheck::Over => refuse(Rule::StackOver, wanted),
        SpCheck::Under => refuse(Rule::StackUnder, wanted),
        SpCheck::Fine => {
            clear_uncovered(k, wanted);
            Arrived::Going(back)
        }
    }
}

/// Clears the bytes from above a new SP up to SP.
fn clear_uncovered(k: &mut Kernel, sp: u16)
    requires low { ram_start ≤ sp + 1 }
    requires high { sp ≤ ram_end }
    requires before { k.old.processor.sp ≤ ram_end }
    requires wanted { sp ≡ group_sp k.old.processor }
    ensures { k.new ≡ with_processor k.old (uncovered k.old.processor) }
{
    let cpu = k.cpu_mut();
    let count = cpu.sp.saturating_sub(sp);
    cpu.clear(sp + 1, count);
}

/// Room for two bytes on the stack, which are 0.
pub fn make_room(k: &mut Kernel, back: u16) -> Arrived
    requires { k.old.processor.sp ≤ ram_end }
    ensures way { way_of result ≡ (room_made (has_room k.old.processor) k.old back).way }
    ensures kernel { k.new ≡ (room_made (has_room k.old.processor) k.old back).kernel }
    ensures lines { (room_made (has_room k.old.processor) k.old back).lines ≡ [] }
{
    let sp = k.cpu().sp;
    if sp < FLOOR + 2 {
        return refuse(Rule::StackOver, sp);
    }
    push_zeros(k);
    Arrived::Going(back)
}
