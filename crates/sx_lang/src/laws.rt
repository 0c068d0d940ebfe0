// Reading and printing are inverse.
ghost use Rattle.std.specs.Prelude.{◌≡◌, ℕ, List, IsTrue, Some};
ghost use Rattle.sx_ops.specs.Checks.{IsShaped};
ghost use Rattle.sx_ops.specs.declared.spec.Spec.{Spec};
ghost use Rattle.sx_lang.specs.Reading.{spec_read};
ghost use Rattle.sx_lang.specs.Spelling.{has_spelling, spec_text};

/// A transformation is read from its text.
pub fn specs_are_read_back()
    ensures { (spec : Spec) → IsShaped spec → IsTrue (has_spelling spec) → spec_read (spec_text spec) ≡ Some spec }
{}

/// A transformation is read from no other text, and has the numbers, names and constants that texts have.
pub fn specs_have_one_text()
    ensures text { (text : List ℕ) (spec : Spec) → spec_read text ≡ Some spec → text ≡ spec_text spec }
    ensures shaped { (text : List ℕ) (spec : Spec) → spec_read text ≡ Some spec → IsShaped spec }
    ensures spelled { (text : List ℕ) (spec : Spec) → spec_read text ≡ Some spec → IsTrue (has_spelling spec) }
{}
