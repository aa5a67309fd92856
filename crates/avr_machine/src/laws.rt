//! Laws of the effects and of flash. Each is the contract of a function that does nothing.

ghost use Rattle.avr_machine.specs.Laws.{BanksRead, CallPushes, LoadsGoByMode, MemoryKeepsItsLength, OnlySkipsLookOver, RelativeCallPushes, RetGivesBack, SparedBytesStay, StoresGoByMode, StraightLeavesPc};

/// What an instruction does with PC: one that leads on leaves it, and only a skip looks further than the next one.
pub fn counter_laws()
    ensures straight { StraightLeavesPc }
    ensures skips { OnlySkipsLookOver }
{}

/// What a call pushes is what RET gives back.
pub fn return_laws()
    ensures call { CallPushes }
    ensures relative { RelativeCallPushes }
    ensures back { RetGivesBack }
{}

/// A byte that no change names stays.
pub fn memory_laws()
    ensures spared { SparedBytesStay }
    ensures length { MemoryKeepsItsLength }
{}

/// Loads and stores take the address of their mode.
pub fn mode_laws()
    ensures stores { StoresGoByMode }
    ensures loads { LoadsGoByMode }
{}

/// A bank reads as its words.
pub fn bank_laws()
    ensures { BanksRead }
{}
