// Transformations as texts.
ghost use Rattle.std.specs.Prelude.{◌≡◌, ◌++◌, ◌∷◌, [], IfOk, OnOk, codes};
ghost use Rattle.sx_ops.specs.Checks.{IsPart};
ghost use Rattle.sx_lang.specs.Spelling.{cmp_text, constant_text, doubled, further_text, source_text, spec_text, targets_text, test_text, tests_text};

use itoa::Buffer;
use std::alloc::{AllocError, Global};
use sx_lists::List;
use sx_ops::{Cmp, Spec, Test};
use sx_values::{Name, Value};

/// The text of a horizontal split.
pub fn print_spec(alloc: Global, spec: &Spec) -> Result<List<u8>, AllocError>
    requires { IsPart spec.now }
    ensures { IfOk result (λ text. text ≡ spec_text spec.now) }
{
    let mut out = Vec::new(alloc);
    put_spec(&mut out, spec)?;
    Ok(List::from_vec(out))
}

fn put_spec(out: &mut Vec<u8>, spec: &Spec) -> Result<(), AllocError>
    requires { IsPart spec.now }
    ensures { OnOk result (out.new.items ≡ out.old.items ++ spec_text spec.now) }
{
    match spec {
        Spec::Part {
            table,
            tests,
            yes,
            no,
        } => {
            put_source(out, table, tests.as_slice())?;
            put_targets(out, yes, no)
        }
        Spec::Join { .. } | Spec::Split { .. } | Spec::Union { .. } => unreachable!(),
    }
}

fn put_source(out: &mut Vec<u8>, table: &Name, tests: &[Test]) -> Result<(), AllocError>
    ensures { OnOk result (out.new.items ≡ out.old.items ++ source_text table.now tests.now) }
{
    out.extend_from_slice(b"part ")?;
    out.extend_from_slice(table.as_bytes())?;
    out.extend_from_slice(b" if ")?;
    put_tests(out, tests)
}

fn put_targets(out: &mut Vec<u8>, yes: &Name, no: &Name) -> Result<(), AllocError>
    ensures { OnOk result (out.new.items ≡ out.old.items ++ targets_text yes.now no.now) }
{
    out.extend_from_slice(b" into ")?;
    out.extend_from_slice(yes.as_bytes())?;
    out.extend_from_slice(b" ")?;
    out.extend_from_slice(no.as_bytes())
}

fn put_tests(out: &mut Vec<u8>, tests: &[Test]) -> Result<(), AllocError>
    ensures { OnOk result (out.new.items ≡ out.old.items ++ tests_text tests.now) }
{
    match tests {
        [] => Ok(()),
        [test, rest @ ..] => {
            put_test(out, test)?;
            put_further(out, rest)
        }
    }
}

fn put_further(out: &mut Vec<u8>, tests: &[Test]) -> Result<(), AllocError>
    ensures { OnOk result (out.new.items ≡ out.old.items ++ further_text tests.now) }
{
    match tests {
        [] => Ok(()),
        [test, rest @ ..] => {
            out.extend_from_slice(b" and ")?;
            put_test(out, test)?;
            put_further(out, rest)
        }
    }
}

fn put_test(out: &mut Vec<u8>, test: &Test) -> Result<(), AllocError>
    ensures { OnOk result (out.new.items ≡ out.old.items ++ test_text test.now) }
{
    out.extend_from_slice(test.column.as_bytes())?;
    out.extend_from_slice(cmp_text(test.cmp))?;
    put_constant(out, &test.value)
}

fn cmp_text(cmp: Cmp) -> &'static [u8]
    ensures { result.now ≡ cmp_text cmp }
{
    match cmp {
        Cmp::Eq => b"=",
        Cmp::Ne => b"<>",
        Cmp::Lt => b"<",
        Cmp::Le => b"<=",
        Cmp::Gt => b">",
        Cmp::Ge => b">=",
    }
}

fn put_constant(out: &mut Vec<u8>, value: &Value) -> Result<(), AllocError>
    ensures { OnOk result (out.new.items ≡ out.old.items ++ constant_text value.now) }
{
    match value {
        Value::Null => Ok(()),
        Value::Int(number) => {
            let mut digits = Buffer::new();
            out.extend_from_slice(digits.format(*number).as_bytes())
        }
        Value::Text(text) => {
            out.push(b'\'')?;
            put_doubled(out, text.as_bytes())?;
            out.push(b'\'')?;
            Ok(())
        }
    }
}

// Puts bytes with each quote written twice.
fn put_doubled(out: &mut Vec<u8>, bytes: &[u8]) -> Result<(), AllocError>
    ensures { OnOk result (out.new.items ≡ out.old.items ++ doubled bytes.now) }
{
    for b in bytes {
        put_byte(out, *b)?;
    }
    Ok(())
}

// Puts a byte; a quote is written twice.
fn put_byte(out: &mut Vec<u8>, b: u8) -> Result<(), AllocError>
    ensures { OnOk result (out.new.items ≡ out.old.items ++ doubled (b ∷ [])) }
{
    if b == b'\'' {
        out.extend_from_slice(b"''")
    } else {
        out.push(b)?;
        Ok(())
    }
}
