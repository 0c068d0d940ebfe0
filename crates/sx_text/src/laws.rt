// What is printed is read back.
ghost use Rattle.std.specs.Prelude.{◌≡◌, ◌<◌, ◌^◌, ℕ, ℤ, List, IsTrue, Ok, Some};
ghost use Rattle.std.specs.List.{list_all};
ghost use Rattle.std.specs.Fmt.{decimal, signed_decimal};
ghost use Rattle.sx_values.specs.Texts.{is_printable};
ghost use Rattle.sx_values.specs.Layouts.{Layout, IsLayout, Admits, AdmitsKey};
ghost use Rattle.sx_values.specs.declared.value.Value.{Value as Datum};
ghost use Rattle.sx_text.specs.Numbers.{int_of, number_of};
ghost use Rattle.sx_text.specs.Records.{are_values, is_int64, record_text};
ghost use Rattle.sx_text.specs.Reading.{key_read, row_read};

/// A row that a schema admits is read from the record that shows it.
pub fn rows_are_read_back()
    ensures { (layout : Layout) (row : List Datum) → IsLayout layout → IsTrue (are_values row) → Admits layout row → row_read layout (record_text row) ≡ Ok row }
{}

/// A key that a schema admits is read from the record that shows it.
pub fn keys_are_read_back()
    ensures { (layout : Layout) (key : List Datum) → IsLayout layout → IsTrue (are_values key) → AdmitsKey layout key → key_read layout (record_text key) ≡ Ok key }
{}

/// The record that shows values has printable bytes alone.
pub fn records_are_printable()
    ensures { (values : List Datum) → IsTrue (are_values values) → IsTrue (list_all is_printable (record_text values)) }
{}

/// What rows and keys are read as is values of the program: numbers within 64 bits, and texts.
pub fn rows_read_are_values()
    ensures row { (layout : Layout) (text : List ℕ) (row : List Datum) → row_read layout text ≡ Ok row → IsTrue (are_values row) }
    ensures key { (layout : Layout) (text : List ℕ) (key : List Datum) → key_read layout text ≡ Ok key → IsTrue (are_values key) }
{}

/// A number is read from its decimal text, and from no other.
pub fn numbers_are_read_back()
    ensures again { (n : ℕ) → n < 2 ^ 64 → number_of (decimal n) ≡ Some n }
    ensures only { (bytes : List ℕ) (n : ℕ) → number_of bytes ≡ Some n → bytes ≡ decimal n }
{}

/// A number with a sign is read from its decimal text, and from no other.
pub fn ints_are_read_back()
    ensures again { (z : ℤ) → IsTrue (is_int64 z) → int_of (signed_decimal z) ≡ Some z }
    ensures only { (bytes : List ℕ) (z : ℤ) → int_of bytes ≡ Some z → bytes ≡ signed_decimal z }
{}
