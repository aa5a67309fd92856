//! A run's mote, before its first turn.
ghost use Rattle.std.specs.Prelude.{◌≡◌, ◌≤◌, ◌<◌, IfOk, map};
ghost use Rattle.std.specs.List.{AllByRecursion};
ghost use Rattle.mote_layout.specs.Limits.{unit_limit, handler_limit};
ghost use Rattle.domain_model.specs.Good.{ArePackets, AreTimes, IsGoodImage};
ghost use Rattle.domain_model.specs.Events.{event_times, loader_events, packet_times, packets_in};
ghost use Rattle.mod_loader.specs.Banks.{prepared_of};
ghost use Rattle.mote_sim.specs.Playing.{StandsAt};
ghost use Rattle.mote_sim.specs.Reading.{bytes_of};
ghost use Rattle.mote_sim.specs.Trace.{run_input};
ghost use Rattle.mote_sim.specs.WordRun.{AreReadied, IsReadied};

use event_script::Script;
use mod_loader::Ready;
use mote_base::NoMemory;
use mote_core::{Limits, Mote};
use std::alloc::Global;
use unit_run::FlashRunner;

// Bytes are below 256.
fn are_bytes(bytes: &[u8])
    ensures { AllByRecursion (λ byte. byte < 256) bytes.now }
{}

// The image of a file, prepared for its loads, with its words.
#[tactic(auto, using(crate::proofs::Readied::is_readied))]
fn prepare_image(alloc: Global, file: &[u8]) -> Result<Ready, NoMemory>
    ensures readied { IfOk result (λ image. IsReadied file.now image) }
    ensures good { IfOk result (λ image. IsGoodImage (prepared_of image)) }
{
    are_bytes(file);
    Ready::new(alloc, file)
}

// The images of these files, prepared for their loads.
fn prepare_images(alloc: Global, files: &[Vec<u8>]) -> Result<Vec<Ready>, NoMemory>
    ensures readied { IfOk result (λ images. AreReadied (bytes_of files.now) images.items) }
    ensures good { IfOk result (λ images. AllByRecursion IsGoodImage (map prepared_of images.items)) }
{
    let mut images = Vec::new(alloc);
    for file in files {
        images.push(prepare_image(alloc, file)?)?;
    }
    Ok(images)
}

/// A mote at the start of the word run of a script over its images within these limits. `words` says whether it tells the
/// instructions that it runs.
pub fn prepare(
    alloc: Global,
    limits: Limits,
    words: bool,
    script: Script,
    images: &[Vec<u8>],
) -> Result<Mote<FlashRunner>, NoMemory>
    requires units { limits.units ≤ unit_limit }
    requires handler { (1 ≤ limits.handler) × (limits.handler ≤ handler_limit) }
    requires packets { ArePackets (packets_in script.events.items) }
    requires packet_times { AreTimes (packet_times (packets_in script.events.items)) }
    requires times { AreTimes (event_times (loader_events script.events.items)) }
    ensures { IfOk result (λ mote. StandsAt mote
        (run_input limits.units limits.handler (bytes_of images.now) script.events.items) words) }
{
    let images = prepare_images(alloc, images)?;
    let runner = FlashRunner::new(alloc, words)?;
    Mote::new(alloc, images, script, limits, runner)
}
