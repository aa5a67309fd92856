//! What a runner of words keeps.
ghost use Rattle.std.specs.Prelude.{◌≡◌, ◌<◌, ◌≤◌, ◌+◌, ◌++◌, [], replicate, length, IfOk};
ghost use Rattle.avr_machine.specs.Step.{CanStep};
ghost use Rattle.mote_layout.specs.Limits.{turn_lines};
ghost use Rattle.mote_layout.specs.Memory.{bank_start, bank_words, domain_count};
ghost use Rattle.domain_model.specs.State.{at_counter, with_processor, without_counter};
ghost use Rattle.word_run.specs.CanRun.{HasTemplate};
ghost use Rattle.word_run.specs.FlashValue.{entry_point, no_words, unit_at, words_placed};
ghost use Rattle.word_run.specs.WordRun.{after_one, begun_lines};
ghost use Rattle.unit_run.specs.FlashRunners.{IsBank};

use crate::plain::PlainRunner;
use crate::starts::Starts;
use avr_machine::{Cpu, Flash};
use domain_model::{Lines, TraceLine, UnitEnd};
use kernel_call::Kernel;
use mote_base::NoMemory;
use mote_layout::{BANK_WORDS, BANKS_START, DOMAINS};
use std::alloc::Global;
use std::marker::Model;
use unit_code::Unit;

/// Runs the words of the modules' banks on the processor, one instruction after the other. It keeps the units as well,
/// for the machine sees them and not the words, and never looks at one to run it.
#[derive(Drop)]
pub struct FlashRunner {
    pub(crate) units: PlainRunner,
    pub(crate) flash: Flash,
    pub(crate) starts: Vec<Starts>,
    /// Whether each instruction that runs is told.
    words: bool,
}

impl Model for FlashRunner {
    ghost use Rattle.word_run.specs.FlashValue.{FlashValue};
    ghost use Rattle.unit_run.specs.FlashRunners.{KeepsWords};

    ghost Value = { FlashValue };

    ghost view = { λ r. record {
      banks = r.units.banks;
      flash = r.flash;
      starts = r.starts.items;
      unit = r.units.unit;
      tells = r.words;
    } };

    ghost invariant = { λ r. KeepsWords (record {
      banks = r.units.banks;
      flash = r.flash;
      starts = r.starts.items;
      unit = r.units.unit;
      tells = r.words;
    }) };
}

impl FlashRunner {
    /// No code is placed. No later call takes memory. `words` says whether each instruction that runs is told.
    pub fn new(alloc: Global, words: bool) -> Result<FlashRunner, NoMemory>
        ensures { IfOk result (λ r. r ≡ no_words words) }
    {
        let units = PlainRunner::new(alloc)?;
        let flash = Flash::new(alloc)?;
        let starts = no_starts(alloc)?;
        Ok(FlashRunner {
            units,
            flash,
            starts,
            words,
        })
    }

    /// The program address at which the template of a domain's unit starts.
    pub(crate) fn entry_point(&self, domain: u8, unit: u16) -> u16
        requires { HasTemplate self.now domain unit }
        ensures { result ≡ entry_point self.now domain unit }
    {
        let starts = &self.starts[usize::from(domain)];
        let Some(start) = starts.get(unit) else {
            unreachable!()
        };
        bank_start(domain) + start
    }

    /// The unit of a domain whose template starts at a program address.
    pub(crate) fn unit_at(&self, domain: u8, address: u16) -> Option<u16>
        requires { domain < domain_count }
        ensures { result ≡ unit_at self.now domain address }
    {
        let starts = &self.starts[usize::from(domain)];
        starts.unit_at(address.saturating_sub(bank_start(domain)))
    }

    /// Tells the instruction that is about to run.
    pub(crate) fn tell(&self, address: u16, k: &Kernel, lines: &mut Lines)
        requires { length lines.old < turn_lines }
        ensures lines { lines.new ≡ lines.old ++ begun_lines self.now k.now address }
        ensures few { length lines.new ≤ length lines.old + 1 }
    {
        if self.words {
            let cpu = k.cpu();
            lines.add(TraceLine::Ran {
                pc: address,
                word: self.flash.word(address),
                sp: cpu.sp,
                sreg: cpu.sreg,
            });
        }
    }

    /// Runs the instruction at a program address, and tells where it leads.
    pub(crate) fn step(&self, address: u16, k: &mut Kernel) -> u16
        requires { CanStep self.now.flash (at_counter k.old.processor address) }
        ensures counter { result ≡ (after_one self.now.flash (at_counter k.old.processor address)).pc }
        ensures kernel { k.new
            ≡ with_processor k.old (without_counter (after_one self.now.flash (at_counter k.old.processor address))) }
    {
        let flash = &self.flash;
        step_at(flash, address, k)
    }

    /// Puts code into a domain.
    pub(crate) fn fill(&mut self, domain: u8, units: &[Unit], words: &[u16], starts: &[u16])
        requires domain { domain < domain_count }
        requires units { length units.now ≤ bank_words }
        requires starts { length starts.now ≤ bank_words }
        requires bank { IsBank units.now words.now starts.now }
        ensures { self.new
            ≡ words_placed self.old domain (record { units = units.now; words = words.now; starts = starts.now }) }
    {
        self.units.fill(domain, units);
        self.flash.fill_bank(domain, words);
        let bank = &mut self.starts[usize::from(domain)];
        bank.fill(starts);
    }

    /// Another unit is next.
    pub(crate) fn land_on(&mut self, unit: u16) -> UnitEnd
        ensures next { self.new ≡ record self.old { unit = unit } }
        ensures on { result ≡ UnitEnd.On }
    {
        self.units.go_to(unit)
    }
}

/// No templates, for each domain.
fn no_starts(alloc: Global) -> Result<Vec<Starts>, NoMemory>
    ensures { IfOk result (λ starts. starts.items ≡ replicate domain_count []) }
{
    let mut starts = Vec::with_capacity(alloc, usize::from(DOMAINS))?;
    for _domain in 0..DOMAINS {
        starts.push(Starts::new(alloc)?)?;
    }
    Ok(starts)
}

/// The first word of a domain's bank.
fn bank_start(domain: u8) -> u16
    requires { domain < domain_count }
    ensures { result ≡ bank_start domain }
{
    BANKS_START + BANK_WORDS * u16::from(domain)
}

fn step_at(flash: &Flash, address: u16, k: &mut Kernel) -> u16
    requires { CanStep flash.now (at_counter k.old.processor address) }
    ensures counter { result ≡ (after_one flash.now (at_counter k.old.processor address)).pc }
    ensures kernel { k.new
        ≡ with_processor k.old (without_counter (after_one flash.now (at_counter k.old.processor address))) }
{
    let cpu = k.cpu_mut();
    cpu.pc = address;
    step(flash, cpu);
    cpu.pc
}

fn step(flash: &Flash, cpu: &mut Cpu)
    requires { CanStep flash.now cpu.old }
    ensures { cpu.new ≡ after_one flash.now cpu.old }
{
    let _led = cpu.step(flash);
}
