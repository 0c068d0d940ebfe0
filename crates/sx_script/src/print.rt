// The text of a script.
ghost use Rattle.std.specs.Prelude.{◌≡◌, ◌++◌, Some, OnOk, IfOk};
ghost use Rattle.std.specs.List.{All};
ghost use Rattle.sx_lines.specs.Printing.{HasText};
ghost use Rattle.sx_script.specs.Reading.{script_read};
ghost use Rattle.sx_script.specs.Printing.{ended, script_text};

use crate::Script;
use std::alloc::{AllocError, Global};
use sx_lines::{Line, put_line};
use sx_lists::List;

/// The text of a script, each line ended by a line feed.
pub fn print_script(alloc: Global, script: &Script) -> Result<List<u8>, AllocError>
    ensures text { IfOk result (λ text. text ≡ script_text script.now) }
    ensures again { IfOk result (λ text. script_read text ≡ Some script.now) }
{
    let mut out = Vec::new(alloc);
    put_lines(alloc, &mut out, script.lines())?;
    Ok(List::from_vec(out))
}

/// Puts the text of a script at the end.
pub fn put_script(alloc: Global, out: &mut Vec<u8>, script: &Script) -> Result<(), AllocError>
    ensures { OnOk result (out.new.items ≡ out.old.items ++ script_text script.now) }
{
    put_lines(alloc, out, script.lines())
}

fn put_lines(alloc: Global, out: &mut Vec<u8>, lines: &[Line]) -> Result<(), AllocError>
    requires { All HasText lines.now }
    ensures { OnOk result (out.new.items ≡ out.old.items ++ script_text lines.now) }
{
    for line in lines {
        put_ended(alloc, out, line)?;
    }
    Ok(())
}

fn put_ended(alloc: Global, out: &mut Vec<u8>, line: &Line) -> Result<(), AllocError>
    requires { HasText line.now }
    ensures { OnOk result (out.new.items ≡ out.old.items ++ ended line.now) }
{
    put_line(alloc, out, line)?;
    out.extend_from_slice(b"\n")
}
