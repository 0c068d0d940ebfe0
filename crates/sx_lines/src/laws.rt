// What is printed is read back.
ghost use Rattle.std.specs.Prelude.{◌≡◌, IsTrue, not, ℕ, List, Some};
ghost use Rattle.std.specs.List.{list_all};
ghost use Rattle.sx_values.specs.Texts.{is_printable};
ghost use Rattle.sx_values.specs.declared.catalog.Declared.{Declared};
ghost use Rattle.sx_lines.specs.declared.line.Line.{Line};
ghost use Rattle.sx_lines.specs.Lines.{is_passed_over};
ghost use Rattle.sx_lines.specs.Forms.{HasLayouts, line_of};
ghost use Rattle.sx_lines.specs.Printing.{line_text};

/// What a text shows as a line is shown by the line's own text, which is printable and has a meaning.
pub fn lines_are_read_back()
    ensures again { (catalog : List Declared) (text : List ℕ) (line : Line) → HasLayouts catalog → line_of catalog text ≡ Some line → line_of catalog (line_text line) ≡ Some line }
    ensures printable { (catalog : List Declared) (text : List ℕ) (line : Line) → HasLayouts catalog → line_of catalog text ≡ Some line → IsTrue (list_all is_printable (line_text line)) }
    ensures meant { (catalog : List Declared) (text : List ℕ) (line : Line) → HasLayouts catalog → line_of catalog text ≡ Some line → IsTrue (not (is_passed_over (line_text line))) }
{}
