//! Each run of the tables again: with its instructions told, and by other runners.
ghost use Rattle.std.specs.Prelude.{◌≡◌};
ghost use Rattle.domain_model.specs.State.{no_runner};

use crate::files::halves;
use crate::tables::{Call, Table, check_told};
use crate::turns::run_by;
use crate::{ScribbleRunner, calls, constants, parcels, rewritten, rows, sealed, timers, units};
use kernel_call::Runner;
use mote_core::Limits;
use std::alloc::Global;
use std::test::Fail;
use unit_run::PlainRunner;

/// The limits that hold where none is given.
const LIMITS: Limits = Limits {
    units: 1_000_000,
    handler: 10_000,
};

/// The tables of runs.
fn tables() -> [&'static str; 22] {
    [
        calls::ITSELF,
        calls::OTHERS,
        calls::TURNS,
        calls::SEALED,
        constants::CONSTANTS,
        constants::ROOM,
        constants::OWNERS,
        constants::TWO,
        parcels::PARCELS,
        parcels::GOERS,
        parcels::PACKETS,
        parcels::DUMPS,
        parcels::FAULTS,
        rewritten::RUNS,
        rows::RUNS,
        sealed::LOADS,
        sealed::BESIDE,
        timers::ALONE,
        timers::REPEATED,
        timers::BESIDE,
        units::UNITS,
        units::GIVEN,
    ]
}

/// With the lines of instructions left out, each run writes what it writes where they aren't told.
#[test]
fn runs_are_the_same_where_they_are_told(rt: HostRuntime) -> Result<(), Fail> {
    let alloc = rt.alloc();
    for text in tables() {
        let table = Table::read(alloc, text)?;
        for call in table.calls() {
            check_told(&rt, alloc, &table, call)?;
        }
    }
    Ok(())
}

/// The lines of the run of a call, by a runner.
fn trace_by<R: Runner>(
    alloc: Global,
    table: &Table,
    call: &Call,
    files: &str,
    runner: R,
) -> Result<Vec<u8>, Fail>
    requires runner { R.Runner.part runner ≡ no_runner }
{
    let (script, names) = halves(files, ' ')?;
    let mut images = Vec::new(alloc);
    for name in names.split(' ') {
        images.push(table.file(call, name)?)?;
    }
    let script = table.file(call, script)?;
    let ran = run_by(alloc, script, images.as_slice(), LIMITS, runner)?;
    Ok(ran.trace)
}

/// Each run gives the same trace by a runner of the units themselves, and by one that leaves other values in the free
/// bytes.
#[test]
fn runs_are_the_same_by_other_runners(rt: HostRuntime) -> Result<(), Fail> {
    let alloc = rt.alloc();
    for text in tables() {
        let table = Table::read(alloc, text)?;
        for call in table.calls() {
            let Some(files) = call.run_files() else {
                continue;
            };
            let plain = trace_by(alloc, &table, call, files, PlainRunner::new(alloc)?)?;
            assert_eq!(rt; plain.as_slice(), call.text());
            let scribble = ScribbleRunner::new(PlainRunner::new(alloc)?);
            let other = trace_by(alloc, &table, call, files, scribble)?;
            assert_eq!(rt; other.as_slice(), call.text());
        }
    }
    Ok(())
}
