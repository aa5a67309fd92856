//! The lines of events.
ghost use Rattle.std.specs.Prelude.{◌≡◌};
ghost use Rattle.arrayvec.specs.ArrayVec.{array_vec_len};
ghost use Rattle.trace_text.specs.Text.{text};

use crate::field::{add_address, add_field, add_rule, add_short_field, add_why};
use domain_model::{PayloadBytes, Rule, TraceLine, Why};
use mote_base::{Line, add_bytes, add_number, add_text};

#[tactic(auto, unfolding(crate::specs::Text::text))]
pub fn put_load(line: &mut Line, time: u64, id: u8, domain: u8, state: u16)
    requires { array_vec_len line.old ≡ 0 }
    ensures { line.new.items ≡ text (TraceLine.Load time id domain state) }
{
    add_number(line, time);
    add_text(line, b" load");
    add_field(line, u64::from(id));
    add_field(line, u64::from(domain));
    add_address(line, state);
    add_text(line, b"\n");
}

#[tactic(auto, unfolding(crate::specs::Text::text))]
pub fn put_refused(line: &mut Line, time: u64, image: u8, number: u8, k: u8, p: u32, q: u8)
    requires { array_vec_len line.old ≡ 0 }
    ensures { line.new.items ≡ text (TraceLine.Refused time image number k p q) }
{
    add_number(line, time);
    add_text(line, b" refused");
    add_field(line, u64::from(image));
    add_field(line, u64::from(number));
    add_field(line, u64::from(k));
    add_field(line, u64::from(p));
    add_field(line, u64::from(q));
    add_text(line, b"\n");
}

#[tactic(auto, unfolding(crate::specs::Text::text))]
pub fn put_run(line: &mut Line, time: u64, id: u8, sort: u8, from: u8)
    requires { array_vec_len line.old ≡ 0 }
    ensures { line.new.items ≡ text (TraceLine.Run time id sort from) }
{
    add_number(line, time);
    add_text(line, b" run");
    add_field(line, u64::from(id));
    add_field(line, u64::from(sort));
    add_field(line, u64::from(from));
    add_text(line, b"\n");
}

#[tactic(auto, unfolding(crate::specs::Text::text))]
pub fn put_call(line: &mut Line, time: u64, id: u8, slot: u8, to: u8, func: u8)
    requires { array_vec_len line.old ≡ 0 }
    ensures { line.new.items ≡ text (TraceLine.Call time id slot to func) }
{
    add_number(line, time);
    add_text(line, b" call");
    add_field(line, u64::from(id));
    add_field(line, u64::from(slot));
    add_field(line, u64::from(to));
    add_field(line, u64::from(func));
    add_text(line, b"\n");
}

#[tactic(auto, unfolding(crate::specs::Text::text))]
pub fn put_unbound(line: &mut Line, time: u64, id: u8, slot: u8)
    requires { array_vec_len line.old ≡ 0 }
    ensures { line.new.items ≡ text (TraceLine.Unbound time id slot) }
{
    add_number(line, time);
    add_text(line, b" unbound");
    add_field(line, u64::from(id));
    add_field(line, u64::from(slot));
    add_text(line, b"\n");
}

#[tactic(auto, unfolding(crate::specs::Text::text))]
pub fn put_say(line: &mut Line, time: u64, id: u8, byte: u8)
    requires { array_vec_len line.old ≡ 0 }
    ensures { line.new.items ≡ text (TraceLine.Say time id byte) }
{
    add_number(line, time);
    add_text(line, b" say");
    add_field(line, u64::from(id));
    add_field(line, u64::from(byte));
    add_text(line, b"\n");
}

#[tactic(auto, unfolding(crate::specs::Text::text))]
pub fn put_send(line: &mut Line, time: u64, id: u8, dest: u16, sort: u8, bytes: &PayloadBytes)
    requires { array_vec_len line.old ≡ 0 }
    ensures { line.new.items ≡ text (TraceLine.Send time id dest sort bytes.now) }
{
    add_number(line, time);
    add_text(line, b" send");
    add_short_field(line, u16::from(id));
    add_short_field(line, dest);
    add_short_field(line, u16::from(sort));
    add_text(line, b" ");
    add_bytes(line, bytes.as_slice());
    add_text(line, b"\n");
}

#[tactic(auto, unfolding(crate::specs::Text::text))]
pub fn put_queued(line: &mut Line, time: u64, id: u8, sort: u8)
    requires { array_vec_len line.old ≡ 0 }
    ensures { line.new.items ≡ text (TraceLine.Queued time id sort) }
{
    add_number(line, time);
    add_text(line, b" queued");
    add_field(line, u64::from(id));
    add_field(line, u64::from(sort));
    add_text(line, b"\n");
}

#[tactic(auto, unfolding(crate::specs::Text::text))]
pub fn put_dropped(line: &mut Line, time: u64, why: Why, id: u8, sort: u8)
    requires { array_vec_len line.old ≡ 0 }
    ensures { line.new.items ≡ text (TraceLine.Dropped time why id sort) }
{
    add_number(line, time);
    add_text(line, b" drop ");
    add_why(line, why);
    add_field(line, u64::from(id));
    add_field(line, u64::from(sort));
    add_text(line, b"\n");
}

#[tactic(auto, unfolding(crate::specs::Text::text))]
pub fn put_fault(line: &mut Line, time: u64, rule: Rule, id: u8, unit: u16, address: u16)
    requires { array_vec_len line.old ≡ 0 }
    ensures { line.new.items ≡ text (TraceLine.Fault time rule id unit address) }
{
    add_number(line, time);
    add_text(line, b" fault ");
    add_rule(line, rule);
    add_field(line, u64::from(id));
    add_field(line, u64::from(unit));
    add_address(line, address);
    add_text(line, b"\n");
}
