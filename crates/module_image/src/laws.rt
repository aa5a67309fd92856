//! Laws of the definitions.
ghost use Rattle.std.specs.Prelude.{◌≡◌, ◌↔◌, ℕ, List, length, Ok, Err};
ghost use Rattle.module_image.specs.declared.error.ImageError.TheVariants.{Short, Magic, Version, Field, Long};
ghost use Rattle.module_image.specs.Contents.{Contents};
ghost use Rattle.module_image.specs.Spelling.{Image};
ghost use Rattle.module_image.specs.Reading.{image_of};
ghost use Rattle.module_image.specs.Laws.{BreaksAt, EndsBefore, HasOtherVersion, IsOther};

/// A file spells at most one image, and reading gives its contents: so `parse` of what `write_image` or `write_image2`
/// wrote gives the values that were written.
pub fn one_reading()
    ensures read { (file : List ℕ) (c : Contents) → Image file c → image_of file ≡ Ok c }
    ensures one { (file : List ℕ) (a b : Contents) → Image file a → Image file b → a ≡ b }
{}

/// Each refusal by the bytes: which field it names, and that nothing behind that field has to do with it.
pub fn refusals_by_the_bytes()
    ensures short { (file : List ℕ) (at : ℕ) → image_of file ≡ Err (Short at) → at ≡ length file }
    ensures magic { (file : List ℕ) → (image_of file ≡ Err Magic) ↔ IsOther file }
    ensures version { (file : List ℕ) (v : ℕ) → (image_of file ≡ Err (Version v)) ↔ HasOtherVersion file v }
    ensures field { (file : List ℕ) (at : ℕ) → image_of file ≡ Err (Field at) → BreaksAt file at }
    ensures long { (file : List ℕ) (at : ℕ) → image_of file ≡ Err (Long at) → EndsBefore file at }
{}
