ghost use Rattle.filter_texts.specs.Reading.{choice_read};
ghost use Rattle.filter_texts.specs.Views.{Reads};

use crate::choice::{Choice, ChoiceFault};
use crate::reader::Reader;
use crate::token::front;
use size_values::Or;
use std::alloc::Global;

/// How many bytes a filter's text has at most.
const MOST_BYTES: usize = 4096;

/// Reads the text of a filter, as `filter` in the query of a list has it (Incus documentation, "REST API", "Filtering").
///
/// Its tokens are `(`, `)`, values between two `"`, and words, which are of other bytes than space, quote and parenthesis;
/// spaces may stand between them. A filter is factors joined by `and` or `or`, which bind alike, from the left. A factor
/// is `not` and a factor, a filter in parentheses, or a field, `eq` or `ne`, and a value. A field is a word other than
/// `not`, and a value a word or quoted. Words are compared by their bytes. `not` and parentheses nest at most 64 deep, and
/// a text has at most 4,096 bytes.
#[tactic(auto, unfolding(crate::specs::Reading::choice_read))]
pub fn read_choice(alloc: Global, text: &str) -> Result<Choice, Or<ChoiceFault>>
    ensures { Reads (choice_read text.now) result }
{
    if text.len() > MOST_BYTES {
        return Err(Or::Why(ChoiceFault {
            place: MOST_BYTES as u64,
        }));
    }
    let mut reader = Reader::new(alloc);
    let mut rest = text;
    while !rest.is_empty() {
        let place = (text.len() - rest.len()) as u64;
        let (token, behind) = front(rest);
        if let Some(token) = token {
            reader.take(alloc, token, place)?;
        }
        rest = behind;
    }
    reader.finish(text.len() as u64)
}
