//! Tests of the public calls of the machine of domains, and of the texts of a run.
//!
//! - `lines`: the lines that `domain_model` keeps of a turn.
//! - `scripts`: the events of a script of `event_script`, and what refuses it.
//! - `traces`: the text of each line of a trace of `trace_text`.
#![tactic(auto)]

#[cfg(test)]
mod lines;
#[cfg(test)]
mod scripts;
#[cfg(test)]
mod traces;
