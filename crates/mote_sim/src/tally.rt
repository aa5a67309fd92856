//! How many lines of each kind a run has written.
ghost use Rattle.std.specs.Prelude.{◌≡◌, [], ◌∷◌};
ghost use Rattle.mote_sim.specs.Summary.{IsKept, tally_of, with_lines};

use domain_model::TraceLine;

#[derive(Clone, Copy, Debug)]
pub struct Tally {
    /// Modules that were loaded.
    pub loads: u64,
    /// Handlers that began.
    pub runs: u64,
    /// Interrupts that queued a message.
    pub queued: u64,
    /// Interrupts that were dropped.
    pub drops: u64,
    /// Handlers that were stopped.
    pub faults: u64,
}

impl Tally {
    /// Before the first line.
    pub fn none() -> Tally
        ensures { result ≡ tally_of [] }
    {
        Tally {
            loads: 0,
            runs: 0,
            queued: 0,
            drops: 0,
            faults: 0,
        }
    }

    // Counts one line more.
    fn count(&mut self, line: &TraceLine)
        requires { IsKept (with_lines self.old (line.now ∷ [])) }
        ensures { self.new ≡ with_lines self.old (line.now ∷ []) }
    {
        match line {
            TraceLine::Load { .. } => self.loads += 1,
            TraceLine::Run { .. } => self.runs += 1,
            TraceLine::Queued { .. } => self.queued += 1,
            TraceLine::Dropped { .. } => self.drops += 1,
            TraceLine::Fault { .. } => self.faults += 1,
            _ => {}
        }
    }

    /// Counts further lines.
    pub fn count_all(&mut self, told: &[TraceLine])
        requires { IsKept (with_lines self.old told.now) }
        ensures { self.new ≡ with_lines self.old told.now }
    {
        for line in told {
            self.count(line);
        }
    }
}
