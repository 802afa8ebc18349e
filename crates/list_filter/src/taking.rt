//! Which objects a filter takes.
ghost use Rattle.std.specs.Prelude.{◌≡◌, Some, None, IfOk, if◌then◌else◌, ◌&&◌, ◌||◌};
ghost use Rattle.rest_json.specs.Views.{view_data};
ghost use Rattle.list_filter.specs.Taking.{has_value, holds, is_same, is_taken, joined, negated, stepped};

use crate::truths::Truths;
use crate::values::value_of;
use filter_texts::{Choice, Comparison, Step, Test};
use records::View;
use rest_json::{Dialect, Terms};
use size_values::{NoMemory, Text};
use std::alloc::Global;

/// Whether two texts are the same, in the client's dialect without regard to the case of ASCII letters.
fn is_same(dialect: Dialect, a: &str, b: &str) -> bool
    ensures { result ≡ is_same dialect a.now b.now }
{
    match dialect {
        Dialect::Plain => a == b,
        Dialect::Client => a.as_bytes().eq_ignore_ascii_case(b.as_bytes()),
    }
}

/// Whether there is a value, and it is this one.
fn has_value(dialect: Dialect, value: &Option<Text>, wanted: &str) -> bool
    ensures { result ≡ has_value dialect value.now wanted.now }
{
    match value {
        Some(value) => is_same(dialect, value.view(), wanted),
        None => false,
    }
}

/// Whether a test holds of an object.
fn holds(alloc: Global, terms: Terms, shown: &View, test: &Test) -> Result<bool, NoMemory>
    ensures { IfOk result (λ b. b ≡ holds terms.dialect (view_data terms shown.now) test.now) }
{
    let value = value_of(alloc, terms, shown, test.field.view())?;
    let has = has_value(terms.dialect, &value, test.value.view());
    drop(value);
    match test.comparison {
        Comparison::Equal => Ok(has),
        Comparison::Unequal => Ok(!has),
    }
}

/// Puts the opposite of the uppermost truth in its place, and answers whether there was one.
fn negate(truths: &mut Truths) -> Result<bool, NoMemory>
    ensures { IfOk result (λ going. negated truths.old ≡ (if going then Some truths.new else None)) }
{
    match truths.pop() {
        Some(truth) => {
            truths.push(!truth)?;
            Ok(true)
        }
        None => Ok(false),
    }
}

/// Puts whether both are true in the place of the two uppermost truths, and answers whether there were two.
fn join_and(truths: &mut Truths) -> Result<bool, NoMemory>
    ensures { IfOk result (λ going. joined (λ a b. a && b) truths.old ≡ (if going then Some truths.new else None)) }
{
    match truths.pop_two() {
        Some((first, second)) => {
            truths.push(first && second)?;
            Ok(true)
        }
        None => Ok(false),
    }
}

/// Puts whether one is true in the place of the two uppermost truths, and answers whether there were two.
fn join_or(truths: &mut Truths) -> Result<bool, NoMemory>
    ensures { IfOk result (λ going. joined (λ a b. a || b) truths.old ≡ (if going then Some truths.new else None)) }
{
    match truths.pop_two() {
        Some((first, second)) => {
            truths.push(first || second)?;
            Ok(true)
        }
        None => Ok(false),
    }
}

/// Takes a step of a filter, and answers whether it found as many truths as it needs.
fn take_step(
    alloc: Global,
    terms: Terms,
    shown: &View,
    step: &Step,
    truths: &mut Truths,
) -> Result<bool, NoMemory>
    ensures { IfOk result (λ going. stepped (holds terms.dialect (view_data terms shown.now)) step.now truths.old
        ≡ (if going then Some truths.new else None)) }
{
    match step {
        Step::Test(test) => {
            let truth = holds(alloc, terms, shown, test)?;
            truths.push(truth)?;
            Ok(true)
        }
        Step::Not => negate(truths),
        Step::And => join_and(truths),
        Step::Or => join_or(truths),
    }
}

/// Whether a filter takes an object as a reply shows it. `eq` holds where the field has a value and it is the one that
/// the filter names, `ne` everywhere else, also where the object has no such field. The plain dialect compares bytes;
/// the client's does not regard the case of ASCII letters, as Incus does not.
pub fn takes(alloc: Global, terms: Terms, choice: &Choice, shown: &View) -> Result<bool, NoMemory>
    ensures { IfOk result (λ taken. taken ≡ is_taken terms.dialect (view_data terms shown.now) choice.now) }
{
    let mut truths = Truths::new(alloc);
    for step in choice.steps() {
        if !take_step(alloc, terms, shown, step, &mut truths)? {
            return Ok(false);
        }
    }
    Ok(truths.only())
}
