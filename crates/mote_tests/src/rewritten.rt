//! Runs of images that a rewriter made: their words are checked, and the units that they spell are run.

use crate::calls::ITSELF;
use crate::sealed::LOADS;
use crate::tables::{Table, answer, check_table, load_shelf};
use crate::timers::ALONE;
use crate::units::UNITS;
use mote_base::{MemSink, NoMemory, Status};
use std::alloc::Global;
use std::process::Abort;
use std::test::Fail;

pub(crate) const RUNS: &str = "\
# Module 1 says byte 65.
@ says image 1 flags 1 code E481 940E F108 940C F096
@ s lines 0 load 0
$ run s says
0 load 1 0 0000;0 run 1 0 0;1 say 1 65;2 done 1;3 end idle

# Module 2 stores through X, outside its state.
@ strays image 2 flags 1 code 940E F000 930C 940C F096
$ run s strays
0 load 2 0 0000;0 run 2 0 0;0 fault store 2 0 0000;0 unload 2;1 end idle

# The same module, whose handler is its second unit, the return.
@ returns image 2 flags 1 handler 3 code 940E F000 930C 940C F096
$ run s returns
0 load 2 0 0000;0 run 2 0 0;0 done 2;1 end idle

# Module 1 jumps past the guard of its store.
@ jumps_past image 1 flags 1 code C002 940E F000 930C 940C F096
$ run s jumps_past
0 refused 0 3 3 0 0;0 end idle

# The same module, with the word of its handler inside the store's template.
@ enters_inside image 2 flags 1 handler 1 code 940E F000 930C 940C F096
$ run s enters_inside
0 refused 0 3 7 1 0;0 end idle

# Module 1 stores without a guard.
@ bare image 1 flags 1 code 930C 940C F096
$ run s bare
0 refused 0 3 2 0 0;0 end idle

# Module 1 jumps to no entry of the page.
@ leaves image 1 flags 1 code 940C F097
$ run s leaves
0 refused 0 3 1 0 0;0 end idle
";

#[test]
fn rewritten_images_run_as_their_originals(rt: HostRuntime) -> Result<(), Fail> {
    check_table(&rt, rt.alloc(), RUNS)
}

/// A module is rewritten, and then gives the trace.
fn check_rewritten(
    rt: &impl Abort,
    alloc: Global,
    image: &[u8],
    trace: &[u8],
) -> Result<(), NoMemory> {
    let mut shelf = load_shelf(alloc, image)?;
    let mut rewritten = MemSink::new(alloc, 1000, vec![in alloc]?)?;
    assert_eq!(rt;
        answer(alloc, "rewrite a", &mut shelf, &mut rewritten)?,
        Status::Done
    );
    let mut shelf = load_shelf(alloc, rewritten.bytes())?;
    let mut out = MemSink::new(alloc, 1000, vec![in alloc]?)?;
    assert_eq!(rt;
        answer(alloc, "run s a", &mut shelf, &mut out)?,
        Status::Done
    );
    assert_eq!(rt; out.bytes(), trace);
    Ok(())
}

/// Each module of the rows of units, of loads, of calls and of timers gives the same trace when it was rewritten.
#[test]
fn units_run_the_same_when_rewritten(rt: HostRuntime) -> Result<(), Fail> {
    let alloc = rt.alloc();
    for text in [UNITS, LOADS, ITSELF, ALONE] {
        let table = Table::read(alloc, text)?;
        for call in table.calls() {
            check_rewritten(&rt, alloc, table.last_file(call), call.text())?;
        }
    }
    Ok(())
}
