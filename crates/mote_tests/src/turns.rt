//! Turns of a mote whose budgets are small.
ghost use Rattle.std.specs.Prelude.{◌≡◌, ◌≤◌, IfOk, map};
ghost use Rattle.std.specs.List.{AllByRecursion};
ghost use Rattle.mote_layout.specs.Limits.{handler_limit, unit_limit};
ghost use Rattle.domain_model.specs.Good.{IsGoodImage};
ghost use Rattle.domain_model.specs.State.{no_runner};
ghost use Rattle.mod_loader.specs.Banks.{prepared_of};

use arrayvec::ArrayVec;
use domain_model::{Lines, Turned};
use event_script::parse_script;
use kernel_call::Runner;
use mod_loader::Ready;
use mote_base::{Line, NoMemory};
use mote_core::{Limits, Mote};
use std::alloc::Global;
use std::test::Fail;
use trace_text::put_line;
use unit_run::PlainRunner;

/// Module 1 says byte 65: E481 940E F108 9508.
pub(crate) const SAYS: &[u8] = b"SOSM\x01\x01\0\0\0\0\0\0\0\x04\0\x81\xE4\x0E\x94\x08\xF1\x08\x95";

/// Module 1 says its byte, and the watchdog stops the handler before its third unit, which counts no unit.
const STOPPED: &str =
    "0 load 1 0 0000\n0 run 1 0 0\n1 say 1 65\n2 fault watchdog 1 2 10ff\n2 unload 1\n2 end idle\n";

/// Module 1 jumps to itself without end: CFFF.
const SPINS: &[u8] = b"SOSM\x01\x01\0\0\0\0\0\0\0\x01\0\xFF\xCF";

/// A script that loads one image at time 0.
pub(crate) const LOADS_IT: &[u8] = b"0 load 0\n";

/// A run under a budget of units and the watchdog's bound: its lines, its end, and how many units ran.
struct Row {
    image: &'static [u8],
    units: u64,
    handler: u64,
    trace: &'static str,
    end: Turned,
    total: u64,
}

const ROWS: &[Row] = &[
    Row {
        image: SAYS,
        units: 100,
        handler: 3,
        trace: "0 load 1 0 0000\n0 run 1 0 0\n1 say 1 65\n2 done 1\n3 end idle\n",
        end: Turned::EndIdle,
        total: 3,
    },
    Row {
        image: SAYS,
        units: 100,
        handler: 2,
        trace: STOPPED,
        end: Turned::EndIdle,
        total: 2,
    },
    Row {
        image: SAYS,
        units: 2,
        handler: 100,
        trace: "0 load 1 0 0000\n0 run 1 0 0\n1 say 1 65\n2 end budget\n",
        end: Turned::EndBudget,
        total: 2,
    },
    Row {
        image: SAYS,
        units: 1,
        handler: 1,
        trace: "0 load 1 0 0000\n0 run 1 0 0\n1 end budget\n",
        end: Turned::EndBudget,
        total: 1,
    },
    Row {
        image: SPINS,
        units: 1_000_000,
        handler: 100,
        trace: "0 load 1 0 0000\n0 run 1 0 0\n100 fault watchdog 1 0 10ff\n100 unload 1\n100 end idle\n",
        end: Turned::EndIdle,
        total: 100,
    },
    Row {
        image: SPINS,
        units: 40,
        handler: 10_000,
        trace: "0 load 1 0 0000\n0 run 1 0 0\n40 end budget\n",
        end: Turned::EndBudget,
        total: 40,
    },
];

/// No run has more turns.
const TURNS: u32 = 3_000_000;

/// What a run came to: the text of its lines, its end, and how many units ran.
#[derive(Drop)]
pub(crate) struct Ran {
    pub(crate) trace: Vec<u8>,
    pub(crate) end: Turned,
    pub(crate) total: u64,
}

/// The images, prepared for their loads.
fn readied(alloc: Global, images: &[&[u8]]) -> Result<Vec<Ready>, NoMemory>
    ensures good { IfOk result (λ ready. AllByRecursion IsGoodImage (map prepared_of ready.items)) }
{
    let mut ready = Vec::new(alloc);
    for image in images {
        ready.push(Ready::new(alloc, image)?)?;
    }
    Ok(ready)
}

/// Runs a script over images on a mote with a runner: makes turns to the end.
pub(crate) fn run_by<R: Runner>(
    alloc: Global,
    script: &[u8],
    images: &[&[u8]],
    limits: Limits,
    runner: R,
) -> Result<Ran, Fail>
    requires units { limits.units ≤ unit_limit }
    requires least { 1 ≤ limits.handler }
    requires greatest { limits.handler ≤ handler_limit }
    requires runner { R.Runner.part runner ≡ no_runner }
{
    let script = parse_script(alloc, script, images.len())?;
    let mut mote = Mote::new(alloc, readied(alloc, images)?, script, limits, runner)?;
    let mut turn = Lines::new(alloc)?;
    let mut trace = Vec::new(alloc);
    let mut end = Turned::More;
    for _ in 0..TURNS {
        if end != Turned::More {
            break;
        }
        turn.clear();
        end = mote.turn(&mut turn);
        for line in turn.items() {
            let mut text: Line = ArrayVec::new();
            put_line(line, &mut text);
            trace.extend_from_slice(text.as_slice())?;
        }
    }
    Ok(Ran {
        trace,
        end,
        total: mote.total(),
    })
}

#[test]
fn budgets_end_runs_and_the_watchdog_stops_handlers(rt: HostRuntime) -> Result<(), Fail> {
    let alloc = rt.alloc();
    for row in ROWS {
        assert!(rt; row.units <= 1_000_000 && row.handler >= 1 && row.handler <= 10_000);
        let limits = Limits {
            units: row.units,
            handler: row.handler,
        };
        let ran = run_by(
            alloc,
            LOADS_IT,
            &[row.image],
            limits,
            PlainRunner::new(alloc)?,
        )?;
        assert_eq!(rt; ran.end, row.end);
        assert!(rt; ran.trace.as_slice() == row.trace.as_bytes());
        assert_eq!(rt; ran.total, row.total);
    }
    Ok(())
}
