//! Laws of spelling, over the definitions alone.

ghost use Rattle.std.specs.Prelude.{◌≡◌, ◌<◌, ◌^◌, ℕ, Bool, List};
ghost use Rattle.std.specs.List.{AllByRecursion};
ghost use Rattle.unit_code.specs.declared.unit.Unit.{Unit};
ghost use Rattle.avr_isa.specs.declared.instruction.Instr.{Instr};
ghost use Rattle.unit_code.specs.Beside.{AreWordsOf};
ghost use Rattle.unit_code.specs.declared.unit.Shape.{Shape};
ghost use Rattle.unit_code.specs.Proper.{IsProper};
ghost use Rattle.unit_code.specs.Spelling.{AreReadSo, AreShapesOf, AreTemplatesOf, Lays, Spells, starts_of};

/// Words of 16 bits, entered at the marks, spell at most one list of units, with one list of starts.
pub fn one_spelling()
    ensures { (words marks : List ℕ) (sealed : Bool) (units others : List Unit) (starts places : List ℕ)
        → AllByRecursion (λ word. word < 2 ^ 16) words → Spells words marks sealed units starts
        → Spells words marks sealed others places → (units ≡ others) × (starts ≡ places) }
{}

/// The templates of a proper list of units, side by side in shapes that they may have and are read in, spell the units.
pub fn templates_spell()
    ensures { (words : List ℕ) (sealed : Bool) (units : List Unit) (shapes : List Shape) → IsProper units sealed
        → AreShapesOf units shapes → AreReadSo units shapes → AreTemplatesOf units shapes words
        → Lays words sealed units (starts_of units shapes) }
{}

/// Instructions have at most one list of words.
pub fn one_wording()
    ensures { (instructions : List Instr) (words others : List ℕ) → AllByRecursion (λ word. word < 2 ^ 16) words
        → AllByRecursion (λ word. word < 2 ^ 16) others → AreWordsOf instructions words → AreWordsOf instructions others
        → words ≡ others }
{}
