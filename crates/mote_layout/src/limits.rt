//! How much of each thing there may be. All of these limits are this project's own.
//!
//! The limits on messages, timers, frames and the bytes of a line stand in `mote_base`, beside the types that they
//! bound.

ghost use Rattle.std.specs.Prelude.{◌≡◌};
ghost use Rattle.mote_layout.specs.Limits.{provided_limit, subscribed_limit, payload_limit, script_limit, event_limit, image_limit, images_limit, unit_limit, default_units, handler_limit, default_handler_units, turn_lines};

/// How many functions a module provides.
pub const PROVIDED: usize = 16;

/// How many functions a module subscribes to.
pub const SUBSCRIBED: usize = 16;

/// How many bytes a payload from the radio or to it has.
pub const PAYLOAD_BYTES: usize = 96;

/// How many bytes a script file has.
pub const SCRIPT_BYTES: usize = 1_048_576;

/// How many events a script has.
pub const EVENTS: usize = 65_536;

/// How many bytes an image file has.
pub const IMAGE_BYTES: usize = 65_536;

/// How many images a run is given.
pub const IMAGES: usize = 64;

/// The largest budget of a run, in units.
pub const MAX_UNITS: u64 = 1_000_000_000;

/// The budget of a run where none is given, in units.
pub const DEFAULT_UNITS: u64 = 1_000_000;

/// The largest bound of the watchdog, in units of one handler.
pub const MAX_HANDLER_UNITS: u64 = 1_000_000;

/// The bound of the watchdog where none is given, in units of one handler.
pub const DEFAULT_HANDLER_UNITS: u64 = 10_000;

/// How many trace lines a turn writes.
pub const LINES_PER_TURN: usize = 512;

/// Law: each limit is the number that the definitions give it.
pub fn limits_are_as_defined()
    // What a module has.
    ensures entries { (PROVIDED ≡ provided_limit) × (SUBSCRIBED ≡ subscribed_limit) }
    ensures payloads { PAYLOAD_BYTES ≡ payload_limit }

    // What a run is given.
    ensures scripts { (SCRIPT_BYTES ≡ script_limit) × (EVENTS ≡ event_limit) }
    ensures images { (IMAGE_BYTES ≡ image_limit) × (IMAGES ≡ images_limit) }
    ensures budgets { (MAX_UNITS ≡ unit_limit) × (DEFAULT_UNITS ≡ default_units) }
    ensures watchdog { (MAX_HANDLER_UNITS ≡ handler_limit) × (DEFAULT_HANDLER_UNITS ≡ default_handler_units) }

    // What a run writes.
    ensures lines { LINES_PER_TURN ≡ turn_lines }
{}
