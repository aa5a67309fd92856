//! Answers that are one line.
ghost use Rattle.std.specs.Prelude.{◌≡◌, ◌⊎◌, ◌<◌, length, Ok};
ghost use Rattle.mote_sim.specs.Ending.{Ends, IsAnswer};
ghost use Rattle.mote_sim.specs.Outcome.{Answers, Refuses};
ghost use Rattle.mote_sim.specs.Tools.{Counts, Tells};
ghost use Rattle.mote_sim.specs.Refusal.{BadCode, BadImage, BadScript, BadText, BadWords, TooLong};
ghost use Rattle.mote_sim.specs.Pieces.{LeadsBySome};

use arrayvec::ArrayVec;
use avr_asm::AsmError;
use event_script::ScriptError;
use harbor_verify::VerifyError;
use module_image::ImageError;
use mote_base::{Line, Sink, Status, add_text};
use trace_text::add_field;
use unit_code::CodeError;

/// Puts a line that is the whole output, and that is not empty.
pub fn put_answer<K: Sink>(out: &mut K, line: &[u8], status: Status) -> Status
    requires answer { IsAnswer status }
    requires some { 0 < length line.now }
    ensures ends { Ends K.written K.faults (LeadsBySome K.leads) out.old out.new 0 0
        (λ s text. (s ≡ status) × (text ≡ line.now)) result }
    ensures either { (result ≡ status) ⊎ (result ≡ Status.WriteFault) }
{
    match out.put(line) {
        Ok(()) => status,
        Err(_) => Status::WriteFault,
    }
}

/// Puts the line on a file that is too long.
pub fn put_size<K: Sink>(out: &mut K, number: usize) -> Status
    ensures { Ends K.written K.faults (LeadsBySome K.leads) out.old out.new 0 0 (Answers (Refuses (TooLong number))) result }
{
    let mut line: Line = ArrayVec::new();
    add_text(&mut line, b"refused size");
    add_field(&mut line, number as u64);
    add_text(&mut line, b"\n");
    put_answer(out, line.as_slice(), Status::Refused)
}

/// Puts the line on a file that is no script.
pub fn put_script<K: Sink>(out: &mut K, refusal: &ScriptError) -> Status
    ensures { Ends K.written K.faults (LeadsBySome K.leads) out.old out.new 0 0
        (Answers (Refuses (BadScript refusal.now))) result }
{
    let mut line: Line = ArrayVec::new();
    add_text(&mut line, b"refused script");
    add_field(&mut line, u64::from(refusal.number()));
    add_field(&mut line, refusal.line());
    add_text(&mut line, b"\n");
    put_answer(out, line.as_slice(), Status::Refused)
}

/// Puts the line on a file that is no image.
pub fn put_image<K: Sink>(out: &mut K, refusal: &ImageError) -> Status
    ensures { Ends K.written K.faults (LeadsBySome K.leads) out.old out.new 0 0
        (Answers (Refuses (BadImage refusal.now))) result }
{
    let mut line: Line = ArrayVec::new();
    add_text(&mut line, b"refused image");
    add_field(&mut line, u64::from(refusal.number()));
    add_field(&mut line, u64::from(refusal.value()));
    add_text(&mut line, b"\n");
    put_answer(out, line.as_slice(), Status::Refused)
}

/// Puts the line on code that has no units.
pub fn put_code<K: Sink>(out: &mut K, refusal: &CodeError) -> Status
    ensures { Ends K.written K.faults (LeadsBySome K.leads) out.old out.new 0 0 (Answers (Refuses (BadCode refusal.now))) result }
{
    let mut line: Line = ArrayVec::new();
    add_text(&mut line, b"refused code");
    add_field(&mut line, u64::from(refusal.number().unwrap_or(0)));
    add_field(&mut line, u64::from(refusal.word()));
    add_field(&mut line, u64::from(refusal.kind()));
    add_text(&mut line, b"\n");
    put_answer(out, line.as_slice(), Status::Refused)
}

/// Puts the line on words that spell no units.
pub fn put_words<K: Sink>(out: &mut K, refusal: &VerifyError) -> Status
    ensures { Ends K.written K.faults (LeadsBySome K.leads) out.old out.new 0 0
        (Answers (Refuses (BadWords refusal.now))) result }
{
    let mut line: Line = ArrayVec::new();
    add_text(&mut line, b"refused verify");
    add_field(&mut line, u64::from(refusal.number()));
    add_field(&mut line, u64::from(refusal.word()));
    add_text(&mut line, b"\n");
    put_answer(out, line.as_slice(), Status::Refused)
}

/// Puts the verdict that words spell so many units.
pub fn put_verdict<K: Sink>(out: &mut K, count: u16) -> Status
    ensures { Ends K.written K.faults (LeadsBySome K.leads) out.old out.new 0 0 (Tells (Ok (Counts count))) result }
{
    let mut line: Line = ArrayVec::new();
    add_text(&mut line, b"ok");
    add_field(&mut line, u64::from(count));
    add_text(&mut line, b"\n");
    put_answer(out, line.as_slice(), Status::Done)
}

/// Puts the line on a text that is no module.
pub fn put_text<K: Sink>(out: &mut K, refusal: &AsmError) -> Status
    ensures { Ends K.written K.faults (LeadsBySome K.leads) out.old out.new 0 0
        (Answers (Refuses (BadText refusal.now))) result }
{
    let mut line: Line = ArrayVec::new();
    add_text(&mut line, b"refused asm");
    add_field(&mut line, u64::from(refusal.number()));
    add_field(&mut line, refusal.line());
    add_text(&mut line, b"\n");
    put_answer(out, line.as_slice(), Status::Refused)
}
