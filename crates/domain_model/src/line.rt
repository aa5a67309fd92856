//! The lines of a trace.

use crate::fault::Rule;
use crate::payload::PayloadBytes;

/// Why an interrupt was dropped.
#[derive(Clone, Copy, Debug, PartialEq, Eq)]
pub enum Why {
    /// The receiver isn't loaded.
    Module,
    /// The receiver's queue is full.
    Queue,
    /// No run of free blocks holds the payload.
    Room,
}

/// One line of a trace. Times are the clock, in units; addresses are of the data space.
#[derive(Drop)]
pub enum TraceLine {
    /// A module was loaded.
    Load {
        time: u64,
        id: u8,
        domain: u8,
        state: u16,
    },
    /// An image was refused at its load.
    Refused {
        time: u64,
        image: u8,
        number: u8,
        k: u8,
        p: u32,
        q: u8,
    },
    /// A handler starts.
    Run {
        time: u64,
        id: u8,
        sort: u8,
        from: u8,
    },
    /// A module enters a function of another through a slot.
    Call {
        time: u64,
        id: u8,
        slot: u8,
        to: u8,
        func: u8,
    },
    /// A slot led nowhere.
    Unbound {
        time: u64,
        id: u8,
        slot: u8,
    },
    /// A module said a byte.
    Say {
        time: u64,
        id: u8,
        byte: u8,
    },
    /// A module sent a packet.
    Send {
        time: u64,
        id: u8,
        dest: u16,
        sort: u8,
        bytes: PayloadBytes,
    },
    /// An interrupt queued a message.
    Queued {
        time: u64,
        id: u8,
        sort: u8,
    },
    /// An interrupt was dropped.
    Dropped {
        time: u64,
        why: Why,
        id: u8,
        sort: u8,
    },
    /// A handler ended by its return.
    Done {
        time: u64,
        id: u8,
    },
    /// A handler was stopped.
    Fault {
        time: u64,
        rule: Rule,
        id: u8,
        unit: u16,
        address: u16,
    },
    /// A module was purged.
    Unload {
        time: u64,
        id: u8,
    },
    /// An unload event named no loaded module.
    Absent {
        time: u64,
        id: u8,
    },
    /// A dump begins.
    Dump {
        time: u64,
    },
    /// A dump's line of a loaded module.
    DumpModule {
        id: u8,
        domain: u8,
        state: u16,
    },
    /// A dump's line of a run of blocks: its owner is a module's id, or the kernel where there is none.
    DumpBlock {
        address: u16,
        bytes: u16,
        owner: Option<u8>,
    },
    /// A dump's line of a message that waits. The address is its payload's, or 0.
    DumpMsg {
        high: bool,
        from: u8,
        to: u8,
        sort: u8,
        address: u16,
    },
    /// A dump's line of a timer.
    DumpTimer {
        module: u8,
        id: u8,
        due: u64,
    },
    /// A dump ends.
    DumpEnd,
    /// The run ended, for nothing was left to do.
    EndIdle {
        time: u64,
    },
    /// The run ended, for its budget of units was spent.
    EndBudget {
        time: u64,
    },
    /// An instruction of a bank begins to run.
    Ran {
        pc: u16,
        word: u16,
        sp: u16,
        sreg: u8,
    },
}
