//! The words from the left, instruction by instruction and template by template.

ghost use Rattle.std.specs.Prelude.{◌≡◌, ◌≤◌, IfNone, length};
ghost use Rattle.harbor_verify.specs.Walks.{gap, starts_in, unfit};

use crate::instructions::{instruction_at, may_appear};
use crate::starts::Starts;
use crate::templates::{allowed_at, words_of};
use mote_base::Words;

/// The first place, instruction by instruction, at which none stands that may appear.
pub fn first_unfit(code: &Words<'_>, sealed: bool) -> Option<u16>
    requires { length code.now ≤ 65535 }
    ensures { result ≡ unfit sealed code.now }
{
    let end = code.len();
    let mut next = 0;
    // each instruction has a word at least
    for _ in 0..end {
        if next == end {
            return None;
        }
        let Some(found) = instruction_at(code, next) else {
            return Some(next as u16);
        };
        if !may_appear(sealed, found.instruction) {
            return Some(next as u16);
        }
        next = found.next;
    }
    None
}

/// Notes where templates start, in an image that is sealed or not. The answer is the first place, template by template,
/// at which none stands.
pub fn note_starts(code: &Words<'_>, sealed: bool, starts: &mut Starts) -> Option<u16>
    requires { length code.now ≤ 65535 }
    ensures gap { result ≡ gap sealed code.now }
    ensures starts { IfNone result (starts.new ≡ starts_in code.now) }
{
    starts.clear();
    let end = code.len();
    let mut next = 0;
    // each template has a word at least
    for _ in 0..end {
        if next == end {
            return None;
        }
        let Some(form) = allowed_at(code, next, sealed) else {
            return Some(next as u16);
        };
        starts.push(next as u16);
        next += usize::from(words_of(form));
    }
    None
}
