//! Runs of what a seed makes, summed up.

use crate::tables::{Table, answer, check_table};
use mote_base::{MemSink, Status};
use std::test::Fail;

const SUMMARIES: &str = "\
# The numbers were computed apart from the program.
$ gen 1
seed 1;units 299622;load 7;run 20007;queued 10000;drop 0;fault 0;end idle

$ gen -- 1
seed 1;units 299622;load 7;run 20007;queued 10000;drop 0;fault 0;end idle

# The one put fails.
!put 0
$5 gen 1

$2 gen
mote: usage

$2 gen --
mote: usage

$2 gen 1 2
mote: usage

$2 gen 4294967296
mote: usage

$2 gen 01
mote: usage

$2 gen 00
mote: usage

$2 gen +1
mote: usage

$2 gen -1
mote: usage

$2 gen -- -1
mote: usage

$2 gen 0x1
mote: usage

$2 gen --units 5 1
mote: usage

$2 gen --units=5 1
mote: usage

$2 gen 1 --handler 5
mote: usage

$2 gen --handler=5 -- 1
mote: usage
";

#[test]
fn seeds_are_summed_up(rt: HostRuntime) -> Result<(), Fail> {
    check_table(&rt, rt.alloc(), SUMMARIES)
}

/// The least seed and the greatest.
#[test]
fn seeds_have_32_bits(rt: HostRuntime) -> Result<(), Fail> {
    let alloc = rt.alloc();
    let mut shelf = Table::read(alloc, "")?.shelf(alloc)?;
    for line in ["gen 0", "gen 4294967295"] {
        let mut out = MemSink::new(alloc, 1000, vec![in alloc]?)?;
        assert_eq!(rt;
            answer(alloc, line, &mut shelf, &mut out)?,
            Status::Done,
            "{line}"
        );
    }
    Ok(())
}
