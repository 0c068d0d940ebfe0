// Transformations from their texts.
ghost use Rattle.std.specs.Prelude.{◌≡◌, IfOk, IsTrue};
ghost use Rattle.sx_ops.specs.Checks.{IsShaped};
ghost use Rattle.sx_lang.specs.Spelling.{has_spelling};
ghost use Rattle.sx_lang.specs.Reading.{Gives, part_read, spec_read, test_at, tests_at};

use crate::LangFault;
use crate::constant::constant_at;
use crate::parts::{behind, behind_word, cmp_at, last_name, name_at};
use std::alloc::Global;
use sx_ops::{Spec, Test, Tests};

/// The transformation that a text spells.
pub fn parse_spec(alloc: Global, text: &[u8]) -> Result<Spec, LangFault>
    ensures read { Gives (λ spec. spec) result (spec_read text.now) }
    ensures shaped { IfOk result IsShaped }
    ensures spelled { IfOk result (λ spec. IsTrue (has_spelling spec)) }
{
    spec_of(alloc, text)
}

#[tactic(auto, unfolding(crate::specs::Reading::spec_read))]
fn spec_of(alloc: Global, text: &[u8]) -> Result<Spec, LangFault>
    ensures { Gives (λ spec. spec) result (spec_read text.now) }
{
    let part = behind(text, b"part ")?;
    part_of(alloc, part)
}

// The horizontal split that a text spells behind its first word.
#[tactic(auto, unfolding(crate::specs::Reading::part_read))]
fn part_of(alloc: Global, text: &[u8]) -> Result<Spec, LangFault>
    ensures { Gives (λ spec. spec) result (part_read text.now) }
{
    let (table, rest) = name_at(alloc, text)?;
    let rest = behind(rest, b" if ")?;
    let (tests, rest) = tests_at(alloc, rest)?;
    let rest = behind(rest, b" into ")?;
    let (yes, rest) = name_at(alloc, rest)?;
    let rest = behind(rest, b" ")?;
    let no = last_name(alloc, rest)?;
    Ok(Spec::Part {
        table,
        tests,
        yes,
        no,
    })
}

// Up to four tests, and what stands behind them.
#[tactic(auto, using(crate::proofs::TestLaws::more_tests, crate::proofs::TestLaws::last_test, crate::proofs::TestLaws::no_test))]
fn tests_at(alloc: Global, text: &[u8]) -> Result<(Tests, &[u8]), LangFault>
    ensures { Gives (λ read. (read.0, read.1.now)) result (tests_at 4 text.now) }
{
    let mut tests = Tests::new(alloc);
    let mut left = text;
    for _ in 0..4u8 {
        let (test, rest) = test_at(alloc, left)?;
        tests.push(test)?;
        match behind_word(rest, b" and ") {
            Some(next) => left = next,
            None => return Ok((tests, rest)),
        }
    }
    Err(LangFault::NotText)
}

// A test, and what stands behind it.
#[tactic(auto, unfolding(crate::specs::Reading::test_at))]
fn test_at(alloc: Global, text: &[u8]) -> Result<(Test, &[u8]), LangFault>
    ensures { Gives (λ read. (read.0, read.1.now)) result (test_at text.now) }
{
    let (column, rest) = name_at(alloc, text)?;
    let (cmp, rest) = cmp_at(rest)?;
    let (value, rest) = constant_at(alloc, rest)?;
    Ok((Test { column, cmp, value }, rest))
}
