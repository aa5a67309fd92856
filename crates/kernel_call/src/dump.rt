//! What a dump prints.
ghost use Rattle.std.specs.Prelude.{◌≡◌, ◌≤◌, ◌<◌, ◌+◌, ◌++◌, ◌∷◌, [], ℕ, length, map, slice_get, IfSome};
ghost use Rattle.mote_base.specs.Messages.{list_of, queue_limit};
ghost use Rattle.mote_base.specs.Timers.{timer_limit};
ghost use Rattle.mote_layout.specs.Limits.{turn_lines};
ghost use Rattle.mote_layout.specs.Memory.{block_count, domain_count};
ghost use Rattle.mote_layout.specs.Blocks.{AreBlocks, starting_at};
ghost use Rattle.domain_model.specs.Dump.{block_line, dumped, message_line, module_line, modules_dumped, owner_told, timer_line};
ghost use Rattle.domain_model.specs.Modules.{module_at};
ghost use Rattle.kernel_call.specs.Values.{at_most_one, begun_by, timer_told};

use crate::frame::address_of;
use crate::kernel::Kernel;
use crate::mail::Mail;
use crate::modules::Modules;
use domain_model::{Lines, TraceLine};
use memory_map::{MemoryMap, Segment};
use mote_base::{Msg, TIMERS};
use mote_layout::{BLOCK_BYTES, BLOCKS, DOMAINS, KERNEL, block_address};
use sos_heap::Parcel;
use sos_timer::Timers;

impl Kernel {
    /// Tells the modules by their domains, the blocks by their addresses, the messages in the order in which they are
    /// taken, and the timers in the order in which they fire.
    pub fn dump(&self, lines: &mut Lines)
        requires empty { lines.old ≡ [] }
        ensures { lines.new ≡ dumped self.now }
    {
        lines.add(TraceLine::Dump { time: self.clock });
        dump_modules(&self.modules, lines);
        dump_blocks(self.mail.map(), &self.modules, lines);
        dump_messages(&self.mail, true, lines);
        dump_messages(&self.mail, false, lines);
        dump_timers(&self.timers, lines);
        lines.add(TraceLine::DumpEnd);
    }
}

/// The lines of the modules, at most one for each domain.
fn dump_modules(modules: &Modules, lines: &mut Lines)
    requires { length lines.old + domain_count ≤ turn_lines }
    ensures lines { lines.new ≡ lines.old ++ modules_dumped modules.now }
    ensures few { length lines.new ≤ length lines.old + domain_count }
{
    for domain in 0..DOMAINS {
        tell_module(modules, domain, lines);
    }
}

/// The line of the module in a domain, if there is one.
#[tactic(auto, using(crate::proofs::Dumps::told_row, crate::proofs::Dumps::told_none))]
fn tell_module(modules: &Modules, domain: u8, lines: &mut Lines)
    requires { length lines.old < turn_lines }
    ensures { lines.new ≡ lines.old ++ module_line (module_at modules.now domain) }
{
    if let Some(row) = modules.at(domain) {
        lines.add(TraceLine::DumpModule {
            id: row.id,
            domain: row.domain,
            state: row.state,
        });
    }
}

/// The lines of the blocks, at most one for each block of the heap.
fn dump_blocks(blocks: &MemoryMap, modules: &Modules, lines: &mut Lines)
    requires sorted { AreBlocks blocks.now }
    requires room { length lines.old + block_count ≤ turn_lines }
    ensures lines { lines.new ≡ lines.old ++ map (block_line modules.now) blocks.now }
    ensures few { length lines.new ≤ length lines.old + block_count }
{
    for block in 0..BLOCKS {
        tell_block(blocks, block, modules, lines);
    }
}

/// The line of the segment that begins with a block, if there is one.
fn tell_block(blocks: &MemoryMap, block: u16, modules: &Modules, lines: &mut Lines)
    requires block { block < block_count }
    requires room { length lines.old < turn_lines }
    ensures { lines.new ≡ lines.old ++ map (block_line modules.now) (at_most_one (starting_at blocks.now block)) }
{
    if let Some(segment) = starting_at(blocks, block) {
        lines.add(block_line(&segment, modules));
    }
}

/// The segment that begins with a block.
fn starting_at(blocks: &MemoryMap, block: u16) -> Option<Segment>
    requires { block < block_count }
    ensures at { result ≡ starting_at blocks.now block }
    ensures within { IfSome result (λ s. s.first + s.count ≤ block_count) }
{
    begun_by(block, blocks.segment_at(block_address(block)))
}

/// The segment, where it begins with a block.
fn begun_by(block: u16, segment: Option<Segment>) -> Option<Segment>
    ensures { result ≡ begun_by block segment }
{
    match segment {
        Some(segment) if segment.first == block => Some(segment),
        _ => None,
    }
}

/// The line of a segment.
fn block_line(segment: &Segment, modules: &Modules) -> TraceLine
    requires { segment.now.first + segment.now.count ≤ block_count }
    ensures { result ≡ block_line modules.now segment.now }
{
    TraceLine::DumpBlock {
        address: block_address(segment.first),
        bytes: BLOCK_BYTES * segment.count,
        owner: owner_told(modules, segment.owner),
    }
}

/// The id of the module that a block belongs to; none where it is the kernel's.
fn owner_told(modules: &Modules, owner: u8) -> Option<u8>
    ensures { result ≡ owner_told modules.now owner }
{
    if owner == KERNEL {
        None
    } else {
        Some(modules.id_at(owner))
    }
}

/// The lines of the messages in one of the queues, which are as few as a queue holds.
fn dump_messages(mail: &Mail, high: bool, lines: &mut Lines)
    requires { length lines.old + queue_limit ≤ turn_lines }
    ensures lines { lines.new ≡ lines.old ++ map (message_line high) (list_of high mail.now.queues) }
    ensures few { length lines.new ≤ length lines.old + queue_limit }
{
    for place in 0..mail.count(high) {
        let Some(message) = mail.at(high, place) else {
            unreachable!()
        };
        lines.add(message_line(high, message));
    }
}

/// The line of a message.
fn message_line(high: bool, message: &Msg<Parcel>) -> TraceLine
    ensures { result ≡ message_line high message.now }
{
    TraceLine::DumpMsg {
        high,
        from: message.from,
        to: message.to,
        sort: message.sort,
        address: address_of(message),
    }
}

/// The lines of the timers, which are as few as may run.
fn dump_timers(timers: &Timers, lines: &mut Lines)
    requires { length lines.old + timer_limit ≤ turn_lines }
    ensures lines { lines.new ≡ lines.old ++ map timer_line timers.now }
    ensures few { length lines.new ≤ length lines.old + timer_limit }
{
    for place in 0..TIMERS {
        tell_timer(timers, place, lines);
    }
}

/// The line of the timer at a place in the order in which they fire, if there is one.
#[tactic(auto, using(crate::proofs::Dumps::told_timer, crate::proofs::Dumps::told_no_timer))]
fn tell_timer(timers: &Timers, place: usize, lines: &mut Lines)
    requires { length lines.old < turn_lines }
    ensures lines { lines.new ≡ lines.old ++ timer_told (slice_get timers.now place) }
    ensures few { length timers.now ≤ timer_limit }
{
    if let Some(row) = timers.row(place) {
        lines.add(TraceLine::DumpTimer {
            module: row.module,
            id: row.id,
            due: row.due,
        });
    }
}
