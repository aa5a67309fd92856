//! Runs the units themselves.
ghost use Rattle.std.specs.Prelude.{◌≡◌, ◌<◌, ◌≤◌, ◌+◌, ◌++◌, [], ◌==◌, length, IfOk, Some};
ghost use Rattle.avr_isa.specs.Operands.{IsBit, IsEncodable};
ghost use Rattle.avr_machine.specs.Conditions.{IsStraight, StoresInside};
ghost use Rattle.mote_layout.specs.Limits.{turn_lines};
ghost use Rattle.mote_layout.specs.Memory.{bank_words, domain_count, ram_end, ram_start, register_count};
ghost use Rattle.unit_code.specs.Proper.{IsOfKind};
ghost use Rattle.domain_model.specs.State.{at_counter, no_runner, with_processor};
ghost use Rattle.domain_model.specs.Frames.{bound_at};
ghost use Rattle.domain_model.specs.Act.{act_branch, act_skip, act_slot, act_unit, group_effect, group_sp, next_unit, passes, plain_effect, taken};
ghost use Rattle.domain_model.specs.Good.{GoodMachine};
ghost use Rattle.domain_model.specs.Runners.{unit_lines};
ghost use Rattle.domain_model.specs.Turn.{placed};

use crate::bank::Bank;
use crate::stack::push_zeros;
use crate::tests_of_units::{is_taken, load_address, passes, store_address};
use avr_isa::Instr;
use domain_model::{FaultNote, Lines, Rule, Running, Served, UnitEnd};
use kernel_call::{Kernel, Returned, SlotEnd};
use mote_base::NoMemory;
use mote_layout::{DOMAINS, Entry, FLOOR, POINTER_Y, POINTER_Z, entry_of};
use std::alloc::Global;
use std::marker::Model;
use store_check::{SpCheck, check_sp};
use unit_code::Unit;

/// The register that a group sets SREG to.
const SREG_SOURCE: u8 = 0;

/// The number of the unit that runs next, and the units of each domain's module.
#[derive(Drop)]
pub struct PlainRunner {
    unit: u16,
    banks: Vec<Bank>,
}

impl Model for PlainRunner {
    ghost use Rattle.std.specs.Prelude.{◌≡◌, length};
    ghost use Rattle.mote_layout.specs.Memory.{domain_count};
    ghost use Rattle.domain_model.specs.State.{RunnerState};

    ghost Value = { RunnerState };

    ghost view = { λ r. record { banks = r.banks.items; unit = r.unit } };

    ghost invariant = { λ r. length r.banks.items ≡ domain_count };
}

impl PlainRunner {
    /// No units are placed. No later call takes memory.
    pub fn new(alloc: Global) -> Result<PlainRunner, NoMemory>
        ensures { IfOk result (λ r. r ≡ no_runner) }
    {
        let mut banks = Vec::with_capacity(alloc, usize::from(DOMAINS))?;
        for _domain in 0..DOMAINS {
            banks.push(Bank::new(alloc)?)?;
        }
        Ok(PlainRunner { banks, unit: 0 })
    }

    /// The number of the unit that runs next.
    pub(crate) fn unit(&self) -> u16
        ensures { result ≡ self.now.unit }
    {
        self.unit
    }

    /// Another unit is next.
    pub(crate) fn go_to(&mut self, unit: u16) -> UnitEnd
        ensures next { self.new ≡ record self.old { unit = unit } }
        ensures on { result ≡ UnitEnd.On }
    {
        self.unit = unit;
        UnitEnd::On
    }

    /// The unit behind this one is next.
    fn go_on(&mut self) -> UnitEnd
        requires { self.old.unit < bank_words }
        ensures next { self.new ≡ record self.old { unit = self.old.unit + 1 } }
        ensures on { result ≡ UnitEnd.On }
    {
        self.go_to(self.unit + 1)
    }

    /// Puts units into a domain.
    pub(crate) fn fill(&mut self, domain: u8, units: &[Unit])
        requires domain { domain < domain_count }
        requires fits { length units.now ≤ bank_words }
        ensures { self.new ≡ placed self.old domain units.now }
    {
        let bank = &mut self.banks[usize::from(domain)];
        bank.fill(units);
    }

    /// The unit that runs next, where that domain runs.
    pub fn next_unit(&self, run: &Running) -> Option<Unit>
        ensures { result ≡ next_unit self.now run.now }
    {
        match self.banks.get(usize::from(run.domain)) {
            Some(bank) => bank.get(self.unit),
            None => None,
        }
    }

    /// A unit of any kind.
    pub(crate) fn run_one(
        &mut self,
        unit: &Unit,
        run: &Running,
        k: &mut Kernel,
        lines: &mut Lines,
    ) -> UnitEnd
        requires kind { IsOfKind unit.now }
        requires unit { self.old.unit < bank_words }
        requires good { GoodMachine k.old self.old }
        requires running { k.old.running ≡ Some run.now }
        requires room { length lines.old + unit_lines ≤ turn_lines }
        ensures kernel { k.new ≡ (act_unit unit.now run.now k.old self.old).kernel }
        ensures runner { self.new ≡ (act_unit unit.now run.now k.old self.old).runner }
        ensures lines { lines.new ≡ lines.old ++ (act_unit unit.now run.now k.old self.old).lines }
        ensures ending { result ≡ (act_unit unit.now run.now k.old self.old).ending }
    {
        match unit {
            Unit::Plain(instruction) => {
                run_instruction(k, instruction);
                self.go_on()
            }
            Unit::Store(store) => self.store(store, run, k),
            Unit::Load(load) => self.load(load, run, k),
            Unit::Push(r) => self.push(*r, run, k),
            Unit::Pop(d) => self.pop(*d, run, k),
            Unit::SpGroup { with_sreg } => self.set_sp(*with_sreg, run, k),
            Unit::Reserve => self.reserve(run, k),
            Unit::Skip(skip) => self.skip(skip, k),
            Unit::Branch { set, bit, target } => self.branch(*set, *bit, *target, k),
            Unit::Jump(target) => self.go_to(*target),
            Unit::KernelCall(number) => self.call_kernel(*number, run, k, lines),
            Unit::LocalCall(target) => self.call_local(*target, run, k),
            Unit::SlotCall(slot) => self.call_slot(*slot, run, k, lines),
            Unit::SlotIndirect => self.call_indirect(run, k, lines),
            Unit::Return => self.come_back(run, k),
        }
    }

    fn store(&mut self, store: &Instr, run: &Running, k: &mut Kernel) -> UnitEnd
        requires kind { IsOfKind (Unit.Store store.now) }
        requires unit { self.old.unit < bank_words }
        requires good { GoodMachine k.old self.old }
        requires running { k.old.running ≡ Some run.now }
        ensures kernel { k.new ≡ (act_unit (Unit.Store store.now) run.now k.old self.old).kernel }
        ensures runner { self.new ≡ (act_unit (Unit.Store store.now) run.now k.old self.old).runner }
        ensures lines { (act_unit (Unit.Store store.now) run.now k.old self.old).lines ≡ [] }
        ensures ending { result ≡ (act_unit (Unit.Store store.now) run.now k.old self.old).ending }
    {
        let address = store_address(k.cpu(), store);
        if !k.may_store(address) {
            return fault(Rule::Store, address);
        }
        run_instruction(k, store);
        self.go_on()
    }

    /// A load of a sealed image: its address is looked at before anything changes.
    fn load(&mut self, load: &Instr, run: &Running, k: &mut Kernel) -> UnitEnd
        requires kind { IsOfKind (Unit.Load load.now) }
        requires unit { self.old.unit < bank_words }
        requires running { k.old.running ≡ Some run.now }
        ensures kernel { k.new ≡ (act_unit (Unit.Load load.now) run.now k.old self.old).kernel }
        ensures runner { self.new ≡ (act_unit (Unit.Load load.now) run.now k.old self.old).runner }
        ensures lines { (act_unit (Unit.Load load.now) run.now k.old self.old).lines ≡ [] }
        ensures ending { result ≡ (act_unit (Unit.Load load.now) run.now k.old self.old).ending }
    {
        let address = load_address(k.cpu(), load);
        if !k.may_load(address) {
            return fault(Rule::Load, address);
        }
        run_instruction(k, load);
        self.go_on()
    }

    fn push(&mut self, r: u8, run: &Running, k: &mut Kernel) -> UnitEnd
        requires register { r < register_count }
        requires unit { self.old.unit < bank_words }
        requires good { GoodMachine k.old self.old }
        requires running { k.old.running ≡ Some run.now }
        ensures kernel { k.new ≡ (act_unit (Unit.Push r) run.now k.old self.old).kernel }
        ensures runner { self.new ≡ (act_unit (Unit.Push r) run.now k.old self.old).runner }
        ensures lines { (act_unit (Unit.Push r) run.now k.old self.old).lines ≡ [] }
        ensures ending { result ≡ (act_unit (Unit.Push r) run.now k.old self.old).ending }
    {
        let sp = k.cpu().sp;
        if sp <= FLOOR {
            return fault(Rule::StackOver, sp);
        }
        run_instruction(k, &Instr::Push(r));
        self.go_on()
    }

    fn pop(&mut self, d: u8, run: &Running, k: &mut Kernel) -> UnitEnd
        requires register { d < register_count }
        requires unit { self.old.unit < bank_words }
        ensures kernel { k.new ≡ (act_unit (Unit.Pop d) run.now k.old self.old).kernel }
        ensures runner { self.new ≡ (act_unit (Unit.Pop d) run.now k.old self.old).runner }
        ensures lines { (act_unit (Unit.Pop d) run.now k.old self.old).lines ≡ [] }
        ensures ending { result ≡ (act_unit (Unit.Pop d) run.now k.old self.old).ending }
    {
        let sp = k.cpu().sp;
        if sp >= run.base {
            return fault(Rule::StackUnder, sp);
        }
        run_instruction(k, &Instr::Pop(d));
        self.go_on()
    }

    /// A group sets SP to Y.
    fn set_sp(&mut self, with_sreg: bool, run: &Running, k: &mut Kernel) -> UnitEnd
        requires unit { self.old.unit < bank_words }
        requires good { GoodMachine k.old self.old }
        requires running { k.old.running ≡ Some run.now }
        ensures kernel { k.new ≡ (act_unit (Unit.SpGroup with_sreg) run.now k.old self.old).kernel }
        ensures runner { self.new ≡ (act_unit (Unit.SpGroup with_sreg) run.now k.old self.old).runner }
        ensures lines { (act_unit (Unit.SpGroup with_sreg) run.now k.old self.old).lines ≡ [] }
        ensures ending { result ≡ (act_unit (Unit.SpGroup with_sreg) run.now k.old self.old).ending }
    {
        let wanted = k.cpu().pair(POINTER_Y);
        match check_sp(&k.window(), wanted) {
            SpCheck::Over => fault(Rule::StackOver, wanted),
            SpCheck::Under => fault(Rule::StackUnder, wanted),
            SpCheck::Fine => {
                move_sp(k, wanted, with_sreg);
                self.go_on()
            }
        }
    }

    /// Two bytes 0 are pushed.
    fn reserve(&mut self, run: &Running, k: &mut Kernel) -> UnitEnd
        requires unit { self.old.unit < bank_words }
        requires good { GoodMachine k.old self.old }
        requires running { k.old.running ≡ Some run.now }
        ensures kernel { k.new ≡ (act_unit Unit.Reserve run.now k.old self.old).kernel }
        ensures runner { self.new ≡ (act_unit Unit.Reserve run.now k.old self.old).runner }
        ensures lines { (act_unit Unit.Reserve run.now k.old self.old).lines ≡ [] }
        ensures ending { result ≡ (act_unit Unit.Reserve run.now k.old self.old).ending }
    {
        let sp = k.cpu().sp;
        if sp < FLOOR + 2 {
            return fault(Rule::StackOver, sp);
        }
        push_zeros(k);
        self.go_on()
    }

    fn skip(&mut self, skip: &Instr, k: &Kernel) -> UnitEnd
        requires kind { IsOfKind (Unit.Skip skip.now) }
        requires unit { self.old.unit < bank_words }
        ensures next { self.new ≡ (act_skip (passes skip.now k.now.processor) k.now self.old).runner }
        ensures on { result ≡ (act_skip (passes skip.now k.now.processor) k.now self.old).ending }
        ensures same { (act_skip (passes skip.now k.now.processor) k.now self.old).kernel ≡ k.now }
        ensures lines { (act_skip (passes skip.now k.now.processor) k.now self.old).lines ≡ [] }
    {
        if passes(k.cpu(), skip) {
            self.go_to(self.unit + 2)
        } else {
            self.go_on()
        }
    }

    fn branch(&mut self, set: bool, bit: u8, target: u16, k: &Kernel) -> UnitEnd
        requires bit { IsBit bit }
        requires unit { self.old.unit < bank_words }
        ensures next { self.new ≡ (act_branch (taken set bit k.now.processor) target k.now self.old).runner }
        ensures on { result ≡ (act_branch (taken set bit k.now.processor) target k.now self.old).ending }
        ensures same { (act_branch (taken set bit k.now.processor) target k.now self.old).kernel ≡ k.now }
        ensures lines { (act_branch (taken set bit k.now.processor) target k.now self.old).lines ≡ [] }
    {
        if is_taken(k.cpu(), set, bit) {
            self.go_to(target)
        } else {
            self.go_on()
        }
    }

    fn call_kernel(
        &mut self,
        number: u8,
        run: &Running,
        k: &mut Kernel,
        lines: &mut Lines,
    ) -> UnitEnd
        requires kind { IsOfKind (Unit.KernelCall number) }
        requires unit { self.old.unit < bank_words }
        requires running { k.old.running ≡ Some run.now }
        requires room { length lines.old + unit_lines ≤ turn_lines }
        ensures kernel { k.new ≡ (act_unit (Unit.KernelCall number) run.now k.old self.old).kernel }
        ensures runner { self.new ≡ (act_unit (Unit.KernelCall number) run.now k.old self.old).runner }
        ensures lines { lines.new ≡ lines.old ++ (act_unit (Unit.KernelCall number) run.now k.old self.old).lines }
        ensures ending { result ≡ (act_unit (Unit.KernelCall number) run.now k.old self.old).ending }
    {
        match k.serve(number, lines) {
            Served::Back => self.go_on(),
            Served::Fault(note) => UnitEnd::Fault(note),
        }
    }

    fn call_local(&mut self, target: u16, run: &Running, k: &mut Kernel) -> UnitEnd
        requires unit { self.old.unit < bank_words }
        requires good { GoodMachine k.old self.old }
        requires running { k.old.running ≡ Some run.now }
        ensures kernel { k.new ≡ (act_unit (Unit.LocalCall target) run.now k.old self.old).kernel }
        ensures runner { self.new ≡ (act_unit (Unit.LocalCall target) run.now k.old self.old).runner }
        ensures lines { (act_unit (Unit.LocalCall target) run.now k.old self.old).lines ≡ [] }
        ensures ending { result ≡ (act_unit (Unit.LocalCall target) run.now k.old self.old).ending }
    {
        match k.local_call(self.unit + 1) {
            None => self.go_to(target),
            Some(note) => UnitEnd::Fault(note),
        }
    }

    fn call_slot(&mut self, slot: u8, run: &Running, k: &mut Kernel, lines: &mut Lines) -> UnitEnd
        requires unit { self.old.unit < bank_words }
        requires good { GoodMachine k.old self.old }
        requires running { k.old.running ≡ Some run.now }
        requires room { length lines.old + unit_lines ≤ turn_lines }
        ensures kernel { k.new ≡ (act_slot (bound_at k.old run.now slot) slot run.now k.old self.old).kernel }
        ensures runner { self.new ≡ (act_slot (bound_at k.old run.now slot) slot run.now k.old self.old).runner }
        ensures lines { lines.new ≡ lines.old
            ++ (act_slot (bound_at k.old run.now slot) slot run.now k.old self.old).lines }
        ensures ending { result ≡ (act_slot (bound_at k.old run.now slot) slot run.now k.old self.old).ending }
    {
        match k.slot_call(slot, self.unit + 1, lines) {
            SlotEnd::Entered(_, unit) => self.go_to(unit),
            SlotEnd::Unbound => self.go_on(),
            SlotEnd::Fault(note) => UnitEnd::Fault(note),
        }
    }

    /// A call of the slot at the address in Z.
    fn call_indirect(&mut self, run: &Running, k: &mut Kernel, lines: &mut Lines) -> UnitEnd
        requires unit { self.old.unit < bank_words }
        requires good { GoodMachine k.old self.old }
        requires running { k.old.running ≡ Some run.now }
        requires room { length lines.old + unit_lines ≤ turn_lines }
        ensures kernel { k.new ≡ (act_unit Unit.SlotIndirect run.now k.old self.old).kernel }
        ensures runner { self.new ≡ (act_unit Unit.SlotIndirect run.now k.old self.old).runner }
        ensures lines { lines.new ≡ lines.old ++ (act_unit Unit.SlotIndirect run.now k.old self.old).lines }
        ensures ending { result ≡ (act_unit Unit.SlotIndirect run.now k.old self.old).ending }
    {
        let address = k.cpu().pair(POINTER_Z);
        match entry_of(address) {
            Some(Entry::Slot(slot)) => self.call_slot(slot, run, k, lines),
            _ => fault(Rule::Target, address),
        }
    }

    fn come_back(&mut self, run: &Running, k: &mut Kernel) -> UnitEnd
        requires good { GoodMachine k.old self.old }
        requires running { k.old.running ≡ Some run.now }
        ensures kernel { k.new ≡ (act_unit Unit.Return run.now k.old self.old).kernel }
        ensures runner { self.new ≡ (act_unit Unit.Return run.now k.old self.old).runner }
        ensures lines { (act_unit Unit.Return run.now k.old self.old).lines ≡ [] }
        ensures ending { result ≡ (act_unit Unit.Return run.now k.old self.old).ending }
    {
        match k.come_back() {
            Returned::To(_, unit) => self.go_to(unit),
            Returned::Over => UnitEnd::Over,
            Returned::Fault(note) => UnitEnd::Fault(note),
        }
    }
}

/// Runs an instruction that leads to the next one. Between units the program counter means nothing: it stands at 0.
fn run_instruction(k: &mut Kernel, instruction: &Instr)
    requires operands { IsEncodable instruction.now }
    requires straight { IsStraight instruction.now }
    requires inside { StoresInside instruction.now (at_counter k.old.processor 0) }
    ensures { k.new ≡ with_processor k.old (plain_effect instruction.now k.old.processor) }
{
    let cpu = k.cpu_mut();
    cpu.pc = 0;
    cpu.plain(instruction);
}

/// Sets SP, and SREG to R0 if asked. The bytes that a fall of SP uncovers become 0.
fn move_sp(k: &mut Kernel, sp: u16, with_sreg: bool)
    requires low { ram_start ≤ sp + 1 }
    requires high { sp ≤ ram_end }
    requires before { k.old.processor.sp ≤ ram_end }
    requires wanted { sp ≡ group_sp k.old.processor }
    ensures { k.new ≡ with_processor k.old (group_effect with_sreg k.old.processor) }
{
    let cpu = k.cpu_mut();
    cpu.clear(sp + 1, cpu.sp.saturating_sub(sp));
    cpu.sp = sp;
    if with_sreg {
        cpu.sreg = cpu.register(SREG_SOURCE);
    }
}

/// The unit is refused.
fn fault(rule: Rule, address: u16) -> UnitEnd
    ensures { result ≡ UnitEnd.Fault (record { address = address; rule = rule }) }
{
    let note = FaultNote { rule, address };
    UnitEnd::Fault(note)
}
