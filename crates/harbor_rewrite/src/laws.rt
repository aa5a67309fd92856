//! Laws of rewritten words.

ghost use Rattle.std.specs.Prelude.{◌≡◌, ℕ, Bool, List, None};
ghost use Rattle.harbor_short.specs.Rounds.{AreChosen};
ghost use Rattle.std.specs.List.{AllByRecursion, Contains};
ghost use Rattle.unit_code.specs.declared.unit.Unit.{Unit};
ghost use Rattle.unit_code.specs.Proper.{IsProper};
ghost use Rattle.unit_code.specs.Spelling.{Spells, starts_of};
ghost use Rattle.module_image.specs.Contents.{Contents};
ghost use Rattle.module_image.specs.Spelling.{Image};
ghost use Rattle.harbor_verify.specs.Verdict.{refusal, units_in};
ghost use Rattle.harbor_rewrite.specs.Emit.{AreEmitted};
ghost use Rattle.harbor_rewrite.specs.Rewritten.{SpellsOriginal, listing_of, marks_of};

use crate::bank::are_words;
use harbor_spell::{Template, spell_unit};
use harbor_verify::words_are_judged;
use module_image::one_reading;
use unit_code::{Shape, Unit};

/// The words that the rewriter gives to a proper list of units spell it, wherever they are entered at starts.
pub fn emitted_spell()
    ensures { (units : List Unit) (words marks starts : List ℕ) (sealed : Bool) → IsProper units sealed
        → AreEmitted units words starts → AllByRecursion (λ mark. Contains starts mark) marks
        → Spells words marks sealed units starts }
{}

/// Units have one list of words that the rewriter gives to them, with one list of starts.
pub fn one_emission()
    ensures { (units : List Unit) (words others starts places : List ℕ) → AreEmitted units words starts
        → AreEmitted units others places → (words ≡ others) × (starts ≡ places) }
{}

/// A proper list of units, in the shapes to which the rounds come, has words. This law has a body, which spells the
/// units one by one and takes no memory: that an instruction has words is known from `encode` alone.
pub fn words_exist(units: &[Unit], starts: &[u16], shapes: &[Shape])
    requires proper { (sealed : Bool) × IsProper units.now sealed }
    requires chosen { AreChosen units.now shapes.now }
    requires starts { starts.now ≡ starts_of units.now shapes.now }
    ensures { (words : List ℕ) × AreEmitted units.now words starts.now }
{
    let mut template = Template::new();
    for i in 0..units.len() {
        spell_unit(units, starts, shapes, i, &mut template);
        are_words(&template);
    }
}

/// Whatever file is made of an image, its words are not refused by the verifier, and the units that are read from them
/// are those of the original.
pub fn rewritten_is_accepted()
    ensures { (c r : Contents) (file : List ℕ) → SpellsOriginal c file → Image file r
        → (refusal r.code (marks_of r) r.sealed ≡ None) × (units_in r.code ≡ (listing_of c).units) }
{
    one_reading();
    words_are_judged();
}
