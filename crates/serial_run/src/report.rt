ghost use Rattle.std.specs.Prelude.{◌≡◌, ◌+◌, ◌-◌, ◌≤◌, ◌++◌, IfOk, string_bytes};
ghost use Rattle.size_values.specs.Amounts.{part};
ghost use Rattle.size_values.specs.declared.amounts.Part.{Part};
ghost use Rattle.row_machine.specs.facts.Whole.{AreBalanced};
ghost use Rattle.serial_run.specs.Report.{amounts_line, books_of, count_line, counts_of, number_at_end, report_of};

use reservations::Books;
use row_readings::StateRef;
use size_values::{Amounts, NoMemory, Text};
use std::alloc::Global;

/// Adds the line that tells how many rows of a kind there are.
fn push_count(alloc: Global, text: &mut String, kind: &str, count: usize) -> Result<(), NoMemory>
    ensures { IfOk result (λ _. string_bytes text.new ≡ string_bytes text.old ++ count_line kind.now count) }
{
    let line = format!(in alloc; "{kind} {count}\n")?;
    text.push_str(line.as_str())?;
    Ok(())
}

/// Adds a number after a space.
fn push_number(alloc: Global, text: &mut String, number: u128) -> Result<(), NoMemory>
    ensures { IfOk result (λ _. string_bytes text.new ≡ string_bytes text.old ++ number_at_end number) }
{
    let word = format!(in alloc; " {number}")?;
    text.push_str(word.as_str())?;
    Ok(())
}

/// Adds the line of seven numbers.
fn push_amounts(
    alloc: Global,
    text: &mut String,
    name: &str,
    amounts: &Amounts,
) -> Result<(), NoMemory>
    ensures { IfOk result (λ _. string_bytes text.new
        ≡ string_bytes text.old ++ amounts_line name.now (λ k. part k amounts.now)) }
{
    text.push_str(name)?;
    push_number(alloc, text, amounts.instances)?;
    push_number(alloc, text, amounts.containers)?;
    push_number(alloc, text, amounts.machines)?;
    push_number(alloc, text, amounts.cpu)?;
    push_number(alloc, text, amounts.memory)?;
    push_number(alloc, text, amounts.processes)?;
    push_number(alloc, text, amounts.disk)?;
    text.push_str("\n")?;
    Ok(())
}

/// What operations still hold: what was granted and neither became an object's nor went back.
fn held_of(books: &Books) -> Amounts
    requires { (k : Part) → part k books.now.converted + part k books.now.returned ≤ part k books.now.granted }
    ensures { (k : Part) → part k result
        ≡ part k books.now.granted - part k books.now.converted - part k books.now.returned }
{
    let left = books.granted.minus(&books.converted);
    left.minus(&books.returned)
}

/// The lines of the rows.
#[tactic(auto, unfolding(crate::specs::Report::counts_of))]
fn counts_of(alloc: Global, view: &StateRef<'_>) -> Result<String, NoMemory>
    ensures { IfOk result (λ text. string_bytes text ≡ counts_of view.now) }
{
    let mut text = String::new(alloc);
    push_count(alloc, &mut text, "projects", view.projects.len())?;
    push_count(alloc, &mut text, "profiles", view.profiles.len())?;
    push_count(alloc, &mut text, "networks", view.networks.len())?;
    push_count(alloc, &mut text, "pools", view.pools.len())?;
    push_count(alloc, &mut text, "volumes", view.volumes.len())?;
    push_count(alloc, &mut text, "instances", view.instances.len())?;
    push_count(alloc, &mut text, "snapshots", view.snapshots.len())?;
    Ok(text)
}

/// Adds the lines of the books.
fn push_books(alloc: Global, text: &mut String, view: &StateRef<'_>) -> Result<(), NoMemory>
    requires { AreBalanced view.now }
    ensures { IfOk result (λ _. string_bytes text.new ≡ string_bytes text.old ++ books_of view.now) }
{
    let books = view.books;
    push_amounts(alloc, text, "granted", &books.granted)?;
    push_amounts(alloc, text, "converted", &books.converted)?;
    push_amounts(alloc, text, "returned", &books.returned)?;
    push_amounts(alloc, text, "held", &held_of(&books))
}

/// The lines of `check`: `projects N`, `profiles N`, `networks N`, `pools N`, `volumes N`, `instances N` and `snapshots
/// N`, the numbers of rows; and `granted`, `converted`, `returned` and `held`, each with seven numbers, which are
/// numbers of instances, containers and virtual machines, processors, bytes of memory, processes, and bytes of disk,
/// summed over all projects. Words are joined by one space, and each line ends with LF.
pub fn check_report(alloc: Global, view: &StateRef<'_>) -> Result<Text, NoMemory>
    requires { AreBalanced view.now }
    ensures { IfOk result (λ text. text ≡ report_of view.now) }
{
    let mut text = counts_of(alloc, view)?;
    push_books(alloc, &mut text, view)?;
    Ok(Text::from_string(text))
}
