// Words, numbers and values at the end of a text.
ghost use Rattle.std.specs.Prelude.{◌≡◌, ◌++◌, OnOk, IfOk, decimal};
ghost use Rattle.sx_report.specs.Words.{numbers_text};

use itoa::Buffer;
use std::alloc::{AllocError, Global};
use sx_lists::{Copied, List};
use sx_values::Value;

// Puts bytes at the end.
pub(crate) fn put(out: &mut Vec<u8>, bytes: &[u8]) -> Result<(), AllocError>
    ensures { OnOk result (out.new.items ≡ out.old.items ++ bytes.now) }
{
    out.extend_from_slice(bytes)
}

// Puts a number in decimal at the end.
pub(crate) fn put_number(out: &mut Vec<u8>, number: u64) -> Result<(), AllocError>
    ensures { OnOk result (out.new.items ≡ out.old.items ++ decimal number) }
{
    let mut digits = Buffer::new();
    put(out, digits.format(number).as_bytes())
}

// Puts numbers at the end, each after a space.
pub(crate) fn put_numbers(out: &mut Vec<u8>, numbers: &[u64]) -> Result<(), AllocError>
    ensures { OnOk result (out.new.items ≡ out.old.items ++ numbers_text numbers.now) }
{
    for number in numbers {
        put(out, b" ")?;
        put_number(out, *number)?;
    }
    Ok(())
}

// Copies of values, and behind them copies of others.
pub(crate) fn joined(
    alloc: Global,
    front: &[Value],
    back: &[Value],
) -> Result<List<Value>, AllocError>
    ensures { IfOk result (λ values. values ≡ front.now ++ back.now) }
{
    let mut values = List::new(alloc);
    push_copies(alloc, &mut values, front)?;
    push_copies(alloc, &mut values, back)?;
    Ok(values)
}

// Puts copies of more values at the end.
fn push_copies(alloc: Global, values: &mut List<Value>, more: &[Value]) -> Result<(), AllocError>
    ensures { OnOk result (values.new ≡ values.old ++ more.now) }
{
    for value in more {
        values.push(value.copy(alloc)?)?;
    }
    Ok(())
}
