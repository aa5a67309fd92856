//! A run: the turns of a mote, and the puts of their lines in pieces.
ghost use Rattle.std.specs.Prelude.{◌≡◌, ◌<◌, ◌++◌, [], OnOk};
ghost use Rattle.arrayvec.specs.ArrayVec.{array_vec_len};
ghost use Rattle.mote_base.specs.Written.{Puts};
ghost use Rattle.domain_model.specs.Remaining.{remaining};
ghost use Rattle.trace_text.specs.Text.{text, texts};
ghost use Rattle.word_run.specs.FlashValue.{part};
ghost use Rattle.mote_core.specs.Exact.{turned};
ghost use Rattle.mote_core.specs.Value.{state_of};
ghost use Rattle.mote_sim.specs.Playing.{Plays};
ghost use Rattle.mote_sim.specs.Pieces.{LeadsBySome, Moves, piece_bytes};
ghost use Rattle.mote_sim.specs.WordRun.{by_words};

use arrayvec::ArrayVec;
use domain_model::{Lines, TraceLine, Turned};
use mote_base::{Failed, LINE_BYTES, Line, Sink};
use mote_core::Mote;
use trace_text::put_line;
use unit_run::FlashRunner;

// How many bytes a piece of a trace has at least, but for the last piece.
const PIECE_BYTES: usize = 4096;

// Room for what is less than a piece, and for one line more.
const GATHERED_BYTES: usize = PIECE_BYTES + LINE_BYTES;

// The text of the lines that were told and not yet put.
type Gathered = ArrayVec<u8, GATHERED_BYTES>;

// Adds the text of a line to less than a piece.
fn gather(gathered: &mut Gathered, told: &TraceLine)
    requires { array_vec_len gathered.old < piece_bytes }
    ensures { gathered.new.items ≡ gathered.old.items ++ text told.now }
{
    let mut line: Line = ArrayVec::new();
    put_line(told, &mut line);
    gathered.try_extend_from_slice(line.as_slice()).unwrap();
}

// Puts what is gathered by one put, where there is some.
fn flush<K: Sink>(out: &mut K, gathered: &Gathered) -> Result<(), Failed>
    ensures { Puts K.written K.faults (LeadsBySome K.leads) out.old out.new gathered.now.items result }
{
    if gathered.is_empty() {
        return Ok(());
    }
    out.put(gathered.as_slice())
}

// Puts what is gathered where it makes a piece, and else nothing.
fn flush_full<K: Sink>(out: &mut K, gathered: &mut Gathered) -> Result<(), Failed>
    ensures moves { Moves K.written K.faults (LeadsBySome K.leads) out.old out.new
        gathered.old.items gathered.new.items result }
    ensures room { OnOk result (array_vec_len gathered.new < piece_bytes) }
    ensures waits { array_vec_len gathered.old < piece_bytes → out.new ≡ out.old }
{
    if gathered.len() >= PIECE_BYTES {
        flush(out, gathered)?;
        gathered.clear();
    }
    Ok(())
}

// Gathers the lines in their order and puts each piece that they fill, up to the first put that fails.
fn tell_lines<K: Sink>(
    out: &mut K,
    gathered: &mut Gathered,
    told: &[TraceLine],
) -> Result<(), Failed>
    requires { array_vec_len gathered.old < piece_bytes }
    ensures moves { Moves K.written K.faults (LeadsBySome K.leads) out.old out.new
        (gathered.old.items ++ texts told.now) gathered.new.items result }
    ensures room { OnOk result (array_vec_len gathered.new < piece_bytes) }
{
    for line in told {
        gather(gathered, line);
        flush_full(out, gathered)?;
    }
    Ok(())
}

/// Makes one turn of a mote whose runner runs words.
pub fn make_turn(mote: &mut Mote<FlashRunner>, lines: &mut Lines) -> Turned
    requires { lines.old ≡ [] }
    ensures exact { (record { value = mote.new; lines = lines.new }) ≡ turned by_words mote.old }
    ensures ended { result ≡ mote.new.ended }
    ensures on { result ≡ Turned.More → mote.old.ended ≡ Turned.More }
    ensures fewer { mote.old.ended ≡ Turned.More →
        remaining (state_of part mote.new) < remaining (state_of part mote.old) }
{
    mote.turn(lines)
}

/// Makes turns of a mote until it ends, and puts their lines: a piece as soon as `PIECE_BYTES` are gathered, and at the end
/// what is left. No put follows one that failed, and no turn either. A mote that has ended makes none.
pub fn play<K: Sink>(
    mote: &mut Mote<FlashRunner>,
    lines: &mut Lines,
    out: &mut K,
) -> Result<(), Failed>
    ensures { Plays K.written K.faults (LeadsBySome K.leads) out.old out.new mote.old mote.new result }
{
    let mut gathered: Gathered = ArrayVec::new();
    'turns: loop {
        lines.clear();
        let turned = make_turn(mote, lines);
        tell_lines(out, &mut gathered, lines.items())?;
        match turned {
            Turned::More => {}
            Turned::EndIdle => return flush(out, &gathered),
            Turned::EndBudget => return flush(out, &gathered),
        }
    }
}
