//! The limits of the run that a seed makes.
ghost use Rattle.std.specs.Prelude.{◌≡◌, ◌≤◌};
ghost use Rattle.mote_layout.specs.Limits.{handler_limit, unit_limit};
ghost use Rattle.mote_gen.specs.Generated.{generated_handler, generated_units};

/// How many units the run has at most.
pub const GENERATED_UNITS: u64 = 10_000_000;

/// How many units one handler of it has at most.
pub const GENERATED_HANDLER: u64 = 10_000;

/// Law: both limits are the numbers that the definitions give them, and a run may have them.
pub fn generated_limits_are_as_defined()
    ensures units { (GENERATED_UNITS ≡ generated_units) × (GENERATED_UNITS ≤ unit_limit) }
    ensures handler { (GENERATED_HANDLER ≡ generated_handler) × (1 ≤ GENERATED_HANDLER) × (GENERATED_HANDLER ≤ handler_limit) }
{}
