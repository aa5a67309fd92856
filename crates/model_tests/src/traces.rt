//! The text of each line of a trace, with its widest numbers. The rows are the table of the trace's format.
ghost use Rattle.std.specs.Prelude.{◌≡◌, ◌<◌, length};
ghost use Rattle.mote_layout.specs.Limits.{payload_limit};

use arrayvec::ArrayVec;
use domain_model::{PayloadBytes, Rule, TraceLine, Why};
use mote_base::Line;
use std::test::Fail;
use trace_text::put_line;

const T: u64 = 18_446_744_073_709_551_615;

#[test]
fn events_have_their_text(rt: HostRuntime) -> Result<(), Fail> {
    let rows = [
        (
            TraceLine::Load {
                time: T,
                id: 254,
                domain: 14,
                state: 0x0DF8,
            },
            "18446744073709551615 load 254 14 0df8\n",
        ),
        (
            TraceLine::Refused {
                time: T,
                image: 255,
                number: 6,
                k: 7,
                p: 4_294_967_295,
                q: 7,
            },
            "18446744073709551615 refused 255 6 7 4294967295 7\n",
        ),
        (
            TraceLine::Run {
                time: 8,
                id: 1,
                sort: 255,
                from: 255,
            },
            "8 run 1 255 255\n",
        ),
        (
            TraceLine::Call {
                time: 1,
                id: 1,
                slot: 15,
                to: 2,
                func: 255,
            },
            "1 call 1 15 2 255\n",
        ),
        (
            TraceLine::Unbound {
                time: 1,
                id: 1,
                slot: 0,
            },
            "1 unbound 1 0\n",
        ),
        (
            TraceLine::Say {
                time: 1,
                id: 1,
                byte: 65,
            },
            "1 say 1 65\n",
        ),
        (
            TraceLine::Queued {
                time: 5,
                id: 1,
                sort: 7,
            },
            "5 queued 1 7\n",
        ),
        (
            TraceLine::Dropped {
                time: 0,
                why: Why::Module,
                id: 1,
                sort: 7,
            },
            "0 drop module 1 7\n",
        ),
        (
            TraceLine::Dropped {
                time: 5,
                why: Why::Queue,
                id: 1,
                sort: 7,
            },
            "5 drop queue 1 7\n",
        ),
        (
            TraceLine::Dropped {
                time: 5,
                why: Why::Room,
                id: 254,
                sort: 255,
            },
            "5 drop room 254 255\n",
        ),
        (TraceLine::Done { time: 2, id: 1 }, "2 done 1\n"),
        (TraceLine::Unload { time: 5, id: 3 }, "5 unload 3\n"),
        (TraceLine::Absent { time: 5, id: 9 }, "5 absent 9\n"),
        (TraceLine::EndIdle { time: 6 }, "6 end idle\n"),
        (TraceLine::EndBudget { time: 40 }, "40 end budget\n"),
    ];
    for (told, text) in &rows {
        let mut line: Line = ArrayVec::new();
        put_line(told, &mut line);
        assert!(rt; line.as_slice() == text.as_bytes(), "{text}");
    }
    Ok(())
}

#[test]
fn faults_have_their_text(rt: HostRuntime) -> Result<(), Fail> {
    let rows = [
        (Rule::Store, "5 fault store 3 65535 ffff\n"),
        (Rule::Load, "5 fault load 3 65535 ffff\n"),
        (Rule::StackOver, "5 fault stackover 3 65535 ffff\n"),
        (Rule::StackUnder, "5 fault stackunder 3 65535 ffff\n"),
        (Rule::Depth, "5 fault depth 3 65535 ffff\n"),
        (Rule::Balance, "5 fault balance 3 65535 ffff\n"),
        (Rule::Watchdog, "5 fault watchdog 3 65535 ffff\n"),
        (Rule::Owner, "5 fault owner 3 65535 ffff\n"),
        (Rule::Target, "5 fault target 3 65535 ffff\n"),
    ];
    for (rule, text) in rows {
        let told = TraceLine::Fault {
            time: 5,
            rule,
            id: 3,
            unit: 65_535,
            address: 0xFFFF,
        };
        let mut line: Line = ArrayVec::new();
        put_line(&told, &mut line);
        assert!(rt; line.as_slice() == text.as_bytes(), "{text}");
    }
    Ok(())
}

#[test]
fn dumps_and_instructions_have_their_text(rt: HostRuntime) -> Result<(), Fail> {
    let rows = [
        (TraceLine::Dump { time: 92 }, "92 dump\n"),
        (
            TraceLine::DumpModule {
                id: 5,
                domain: 0,
                state: 0x0200,
            },
            "d module 5 0 0200\n",
        ),
        (
            TraceLine::DumpBlock {
                address: 0x0200,
                bytes: 3072,
                owner: Some(5),
            },
            "d block 0200 3072 5\n",
        ),
        (
            TraceLine::DumpBlock {
                address: 0x0200,
                bytes: 8,
                owner: None,
            },
            "d block 0200 8 k\n",
        ),
        (
            TraceLine::DumpMsg {
                high: true,
                from: 255,
                to: 2,
                sort: 9,
                address: 0,
            },
            "d high 255 2 9 0000\n",
        ),
        (
            TraceLine::DumpMsg {
                high: false,
                from: 1,
                to: 2,
                sort: 9,
                address: 0x0200,
            },
            "d low 1 2 9 0200\n",
        ),
        (
            TraceLine::DumpTimer {
                module: 1,
                id: 3,
                due: T,
            },
            "d timer 1 3 18446744073709551615\n",
        ),
        (TraceLine::DumpEnd, "d end\n"),
        (
            TraceLine::Ran {
                pc: 0x4001,
                word: 0x940E,
                sp: 0x10FF,
                sreg: 0,
            },
            "w 4001 940e 10ff 00\n",
        ),
    ];
    for (told, text) in &rows {
        let mut line: Line = ArrayVec::new();
        put_line(told, &mut line);
        assert!(rt; line.as_slice() == text.as_bytes(), "{text}");
    }
    Ok(())
}

#[test]
fn packets_have_their_text(rt: HostRuntime) -> Result<(), Fail> {
    let mut bytes = PayloadBytes::new();
    let none = TraceLine::Send {
        time: 1,
        id: 1,
        dest: 65_535,
        sort: 255,
        bytes: PayloadBytes::new(),
    };
    let mut line: Line = ArrayVec::new();
    put_line(&none, &mut line);
    assert!(rt; line.as_slice() == b"1 send 1 65535 255 -\n".as_slice());
    bytes.push(0xAA);
    bytes.push(0x0B);
    let two = TraceLine::Send {
        time: 1,
        id: 1,
        dest: 0,
        sort: 7,
        bytes,
    };
    let mut line: Line = ArrayVec::new();
    put_line(&two, &mut line);
    assert!(rt; line.as_slice() == b"1 send 1 0 7 aa0b\n".as_slice());
    Ok(())
}
