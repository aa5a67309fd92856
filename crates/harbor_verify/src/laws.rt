//! Laws of the verdict, over the definitions alone.

ghost use Rattle.std.specs.Prelude.{◌≡◌, ◌^◌, ◌<◌, ◌≤◌, ℕ, Bool, List, None, Some, length};
ghost use Rattle.std.specs.List.{AllByRecursion};
ghost use Rattle.unit_code.specs.declared.unit.Unit.{Unit};
ghost use Rattle.unit_code.specs.Spelling.{Spells};
ghost use Rattle.harbor_verify.specs.declared.error.VerifyError.{VerifyError};
ghost use Rattle.harbor_verify.specs.Law.{IsFirst};
ghost use Rattle.harbor_verify.specs.Verdict.{refusal, units_in};
ghost use Rattle.harbor_verify.specs.Walks.{starts_in};

/// Words that are not refused spell the units that are read from them, and words that spell units are not refused and
/// are read as these. The refusal of others is the first condition that holds.
pub fn words_are_judged()
    ensures spell { (words marks : List ℕ) (sealed : Bool) → AllByRecursion (λ word. word < 2 ^ 16) words
        → refusal words marks sealed ≡ None → Spells words marks sealed (units_in words) (starts_in words) }
    ensures read { (words marks : List ℕ) (sealed : Bool) (units : List Unit) (starts : List ℕ) → length words ≤ 65535
        → AllByRecursion (λ word. word < 2 ^ 16) words → Spells words marks sealed units starts
        → (refusal words marks sealed ≡ None) × (units_in words ≡ units) × (starts_in words ≡ starts) }
    ensures first { (words marks : List ℕ) (sealed : Bool) (e : VerifyError) → length words ≤ 65535
        → AllByRecursion (λ word. word < 2 ^ 16) words → refusal words marks sealed ≡ Some e
        → IsFirst words marks sealed e }
{}
