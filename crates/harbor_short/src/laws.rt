//! Laws of the rounds, over the definitions alone.

ghost use Rattle.std.specs.Prelude.{◌≡◌, List, length};
ghost use Rattle.std.specs.List.{AllByRecursion};
ghost use Rattle.unit_code.specs.declared.unit.Shape.{Shape};
ghost use Rattle.unit_code.specs.declared.unit.Unit.{Unit};
ghost use Rattle.unit_code.specs.Proper.{LeadsBelow};
ghost use Rattle.unit_code.specs.Spelling.{AreReadSo, AreShapesOf};
ghost use Rattle.harbor_short.specs.Laws.{DistancesStay};
ghost use Rattle.harbor_short.specs.Rounds.{AreChosen, IsRound};

/// The rounds come to one list of shapes.
pub fn one_choice()
    ensures { (units : List Unit) (shapes others : List Shape) → AreChosen units shapes → AreChosen units others
        → shapes ≡ others }
{}

/// The rounds come to an end, after no more rounds that change a shape than there are units.
pub fn some_choice()
    ensures { (units : List Unit) → (shapes : List Shape) × AreChosen units shapes }
{}

/// From one round to the next no distance between starts grows.
pub fn distances_stay()
    ensures { (units : List Unit) (shapes next : List Shape) → IsRound units shapes next → DistancesStay units shapes next }
{}

/// What became short stays in reach: with the starts of the last shapes only skips and branches that reach their
/// targets are short, and each short template is read as one.
pub fn chosen_in_reach()
    ensures { (units : List Unit) (shapes : List Shape) → AllByRecursion (LeadsBelow (length units)) units
        → AreChosen units shapes → AreShapesOf units shapes × AreReadSo units shapes }
{}
