//! One line of a trace.
ghost use Rattle.std.specs.Prelude.{◌≡◌, ◌≤◌, ◌++◌, codes, decimal, length};
ghost use Rattle.arrayvec.specs.ArrayVec.{array_vec_len};
ghost use Rattle.mote_base.specs.Lines.{line_bytes};
ghost use Rattle.trace_text.specs.Text.{text};

use crate::event::{
    put_call, put_dropped, put_fault, put_load, put_queued, put_refused, put_run, put_say,
    put_send, put_unbound,
};
use crate::field::add_field;
use crate::state::{put_dump_block, put_dump_module, put_dump_msg, put_dump_timer, put_ran};
use domain_model::TraceLine;
use mote_base::{Line, add_number, add_text};

// A line that has a word and a module's id.
fn put_module(line: &mut Line, time: u64, word: &[u8], id: u8)
    requires empty { array_vec_len line.old ≡ 0 }
    requires short { length word.now ≤ 10 }
    ensures { line.new.items ≡ decimal time ++ (word.now ++ (codes " " ++ (decimal id ++ codes "\n"))) }
{
    add_number(line, time);
    add_text(line, word);
    add_field(line, u64::from(id));
    add_text(line, b"\n");
}

// A line that has nothing behind its words.
fn put_words(line: &mut Line, time: u64, words: &[u8])
    requires empty { array_vec_len line.old ≡ 0 }
    requires short { length words.now ≤ 20 }
    ensures { line.new.items ≡ decimal time ++ words.now }
{
    add_number(line, time);
    add_text(line, words);
}

// Writes the line's text to an empty line.
#[tactic(auto, unfolding(crate::specs::Text::text))]
fn write_line(t: &TraceLine, line: &mut Line)
    requires { array_vec_len line.old ≡ 0 }
    ensures { line.new.items ≡ text t.now }
{
    match t {
        TraceLine::Load {
            time,
            id,
            domain,
            state,
        } => put_load(line, *time, *id, *domain, *state),
        TraceLine::Refused {
            time,
            image,
            number,
            k,
            p,
            q,
        } => put_refused(line, *time, *image, *number, *k, *p, *q),
        TraceLine::Run {
            time,
            id,
            sort,
            from,
        } => put_run(line, *time, *id, *sort, *from),
        TraceLine::Call {
            time,
            id,
            slot,
            to,
            func,
        } => put_call(line, *time, *id, *slot, *to, *func),
        TraceLine::Unbound { time, id, slot } => put_unbound(line, *time, *id, *slot),
        TraceLine::Say { time, id, byte } => put_say(line, *time, *id, *byte),
        TraceLine::Send {
            time,
            id,
            dest,
            sort,
            bytes,
        } => put_send(line, *time, *id, *dest, *sort, bytes),
        TraceLine::Queued { time, id, sort } => put_queued(line, *time, *id, *sort),
        TraceLine::Dropped {
            time,
            why,
            id,
            sort,
        } => put_dropped(line, *time, *why, *id, *sort),
        TraceLine::Fault {
            time,
            rule,
            id,
            unit,
            address,
        } => put_fault(line, *time, *rule, *id, *unit, *address),
        TraceLine::DumpModule { id, domain, state } => put_dump_module(line, *id, *domain, *state),
        TraceLine::DumpBlock {
            address,
            bytes,
            owner,
        } => put_dump_block(line, *address, *bytes, *owner),
        TraceLine::DumpMsg {
            high,
            from,
            to,
            sort,
            address,
        } => put_dump_msg(line, *high, *from, *to, *sort, *address),
        TraceLine::DumpTimer { module, id, due } => put_dump_timer(line, *module, *id, *due),
        TraceLine::Ran { pc, word, sp, sreg } => put_ran(line, *pc, *word, *sp, *sreg),
        TraceLine::Done { time, id } => put_module(line, *time, b" done", *id),
        TraceLine::Unload { time, id } => put_module(line, *time, b" unload", *id),
        TraceLine::Absent { time, id } => put_module(line, *time, b" absent", *id),
        TraceLine::Dump { time } => put_words(line, *time, b" dump\n"),
        TraceLine::DumpEnd => add_text(line, b"d end\n"),
        TraceLine::EndIdle { time } => put_words(line, *time, b" end idle\n"),
        TraceLine::EndBudget { time } => put_words(line, *time, b" end budget\n"),
    }
}

/// Writes the line's text, its line feed included, to an empty line. It has at most the bytes of a line.
pub fn put_line(t: &TraceLine, line: &mut Line)
    requires { array_vec_len line.old ≡ 0 }
    ensures text { line.new.items ≡ text t.now }
    ensures short { length (text t.now) ≤ line_bytes }
{
    write_line(t, line);
    let _written = line.as_slice();
}
