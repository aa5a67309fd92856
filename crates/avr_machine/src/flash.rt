//! The program memory: a bank of words for each domain.
ghost use Rattle.std.specs.Prelude.{◌≡◌, ◌+◌, ◌≤◌, ◌<◌, ℕ, [], length, slice_index, slice_set, IfOk, IsOk};
ghost use Rattle.mote_layout.specs.Memory.{bank_start, bank_words, domain_count};
ghost use Rattle.avr_machine.specs.Flash.{IsInBank, IsInSomeBank, no_banks, word_at};
ghost use Rattle.avr_machine.specs.Step.{Fetches, fetched};
ghost use Rattle.avr_isa.specs.Operands.{IsEncodable};

use avr_isa::{Instr, decode};
use mote_base::NoMemory;
use mote_layout::{BANK_WORDS, BANKS_START, DOMAINS};
use std::alloc::{AllocError, Global};
use std::marker::Model;

/// The words that a bank was filled with. Behind them it reads as 0.
#[derive(Drop)]
struct Bank {
    words: Vec<u16>,
}

impl Model for Bank {
    ghost use Rattle.std.specs.Prelude.{ℕ, List, ◌≤◌, vec_capacity};
    ghost use Rattle.mote_layout.specs.Memory.{bank_words};

    ghost Value = { List ℕ };

    ghost view = { λ b. b.words.items };

    ghost invariant = { λ b. bank_words ≤ vec_capacity b.words };
}

impl Bank {
    fn new(alloc: Global) -> Result<Bank, AllocError>
        ensures { IfOk result (λ bank. bank ≡ []) }
    {
        let words = Vec::with_capacity(alloc, usize::from(BANK_WORDS))?;
        Ok(Bank { words })
    }

    fn fill(&mut self, code: &[u16])
        requires { length code.now ≤ bank_words }
        ensures { self.new ≡ code.now }
    {
        self.words.clear();
        let _ = self.words.extend_from_slice(code);
    }
}

/// The words of the domains' code.
#[derive(Drop)]
pub struct Flash {
    banks: Vec<Bank>,
}

impl Model for Flash {
    ghost use Rattle.std.specs.Prelude.{ℕ, List, ◌≡◌, length};
    ghost use Rattle.mote_layout.specs.Memory.{domain_count};

    ghost Value = { List (List ℕ) };

    ghost view = { λ f. f.banks.items };

    ghost invariant = { λ f. length f.banks.items ≡ domain_count };
}

impl Flash {
    /// Flash that is 0 everywhere. It takes the memory of all banks at once.
    #[tactic(auto, using(crate::proofs::BankLemmas::no_word), unfolding(crate::specs::Flash::no_banks))]
    pub fn new(alloc: Global) -> Result<Flash, NoMemory>
        ensures empty { IfOk result (λ flash. flash ≡ no_banks) }
        ensures zeros { IfOk result (λ flash. (a : ℕ) → word_at flash a ≡ 0) }
    {
        let mut banks = Vec::new(alloc);
        for _domain in 0..DOMAINS {
            banks.push(Bank::new(alloc)?)?;
        }
        Ok(Flash { banks })
    }

    /// The word at an address, 0 outside the banks.
    #[tactic(auto, using(crate::proofs::BankLemmas::outside_word))]
    pub fn word(&self, a: u16) -> u16
        ensures value { result ≡ word_at self.now a }
        ensures outside { ¬ IsInSomeBank a → result ≡ 0 }
    {
        // So that the proof knows how many banks there are.
        let _ = &self.banks;
        self.read(a)
    }

    #[tactic(auto, unfolding(crate::specs::Flash::word_at))]
    fn read(&self, a: u16) -> u16
        ensures { result ≡ word_at self.now a }
    {
        if a < BANKS_START {
            return 0;
        }
        let place = a - BANKS_START;
        let Some(bank) = self.banks.get(usize::from(place / BANK_WORDS)) else {
            return 0;
        };
        let words = &bank.words;
        words
            .get(usize::from(place % BANK_WORDS))
            .copied()
            .unwrap_or(0)
    }

    /// Puts code into a domain's bank. Behind the code the bank is 0.
    #[tactic(auto, using(crate::proofs::BankLemmas::filled_word, crate::proofs::BankLemmas::other_word))]
    pub fn fill_bank(&mut self, d: u8, code: &[u16])
        requires domain { d < domain_count }
        requires room { length code.now ≤ bank_words }
        ensures bank { self.new ≡ slice_set self.old d code.now }

        // The words come first, and 0 behind them; what is not in the bank stays.
        ensures words { (k : ℕ) → k < bank_words → word_at self.new (bank_start d + k) ≡ slice_index code.now k }
        ensures others { (a : ℕ) → ¬ IsInBank d a → word_at self.new a ≡ word_at self.old a }
    {
        self.banks[usize::from(d)].fill(code);
    }

    /// Makes a domain's bank 0.
    #[tactic(auto, using(crate::proofs::BankLemmas::cleared_word, crate::proofs::BankLemmas::other_word))]
    pub fn clear_bank(&mut self, d: u8)
        requires { d < domain_count }
        ensures bank { self.new ≡ slice_set self.old d [] }
        ensures words { (k : ℕ) → k < bank_words → word_at self.new (bank_start d + k) ≡ 0 }
        ensures others { (a : ℕ) → ¬ IsInBank d a → word_at self.new a ≡ word_at self.old a }
    {
        self.banks[usize::from(d)].fill(&[]);
    }

    /// The instruction at an address, and its number of words.
    #[tactic(auto, unfolding(crate::specs::Step::fetched))]
    pub(crate) fn fetch(&self, a: u16) -> (Instr, u8)
        requires { IsOk (fetched self.now a) }
        ensures found { Fetches self.now a result.0 result.1 }
        ensures encodable { IsEncodable result.0 }
    {
        match decode(self.word(a), Some(self.word(a.wrapping_add(1)))) {
            Ok(found) => found,
            Err(_) => unreachable!(),
        }
    }
}
