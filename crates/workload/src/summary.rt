ghost use Rattle.std.specs.Prelude.{◌≡◌, ◌==◌, ◌++◌, IfOk, count_by, string_bytes};
ghost use Rattle.workload.specs.Summary.{code_line, summary, summary_by};

use crate::replies::codes_of;
use size_values::{NoMemory, Seq, Text};
use std::alloc::Global;

/// How many whole replies the text begins with, as `requests N`, and how many of them have each status code that
/// occurs, as `replies CODE N`, rising. Each is a line that ends with LF.
pub fn summary_of(alloc: Global, replies: &Seq<u8>) -> Result<Text, NoMemory>
    ensures { IfOk result (λ text. text ≡ summary replies.now) }
{
    let codes = codes_of(alloc, replies.view())?;
    let text = summary_by(alloc, &codes)?;
    Ok(Text::from_string(text))
}

/// The lines for replies with these codes.
#[tactic(auto, unfolding(crate::specs::Summary::summary_by))]
fn summary_by(alloc: Global, codes: &[u16]) -> Result<String, NoMemory>
    ensures { IfOk result (λ text. string_bytes text ≡ summary_by codes.now) }
{
    let requests = codes.len();
    let mut text = format!(in alloc; "requests {requests}\n")?;
    for code in 100..1000 {
        push_code_line(alloc, &mut text, codes, code)?;
    }
    Ok(text)
}

/// Adds the line of one code, if any reply has it.
fn push_code_line(
    alloc: Global,
    text: &mut String,
    codes: &[u16],
    code: u16,
) -> Result<(), NoMemory>
    ensures { IfOk result (λ _. string_bytes text.new ≡ string_bytes text.old ++ code_line codes.now code) }
{
    let count = count_of(codes, code);
    if count == 0 {
        return Ok(());
    }
    let line = format!(in alloc; "replies {code} {count}\n")?;
    text.push_str(line.as_str())?;
    Ok(())
}

fn count_of(codes: &[u16], code: u16) -> usize
    ensures { result ≡ count_by (λ c. c == code) codes.now }
{
    codes.iter().filter(|other| **other == code).count()
}
