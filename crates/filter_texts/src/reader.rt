ghost use Rattle.std.specs.Prelude.{◌≡◌, ◌<◌, List, [], ◌∷◌, ◌++◌, reverse, count_by, vec_len, IfOk, OnOk, IfSome, IfNone};
ghost use Rattle.std.specs.Option.{option_map};
ghost use Rattle.filter_texts.specs.declared.choice.Step.{Step as StepValue};
ghost use Rattle.filter_texts.specs.Tokens.{value_in};
ghost use Rattle.filter_texts.specs.Reading.{behind, start, is_nested, due, ended, nested};
ghost use Rattle.filter_texts.specs.Reading.{comparison_in, joiner_in, closed, advance, read_tokens};
ghost use Rattle.filter_texts.specs.Reading.{at_factor, at_comparison, at_value, at_behind};
ghost use Rattle.filter_texts.specs.Views.{token_of, state_of, Takes, Reads};

use crate::choice::{Choice, ChoiceFault, Comparison, Step, Test};
use crate::token::Token;
use size_values::{NoMemory, Or, Text};
use std::alloc::Global;

/// How deep `not` and parentheses nest at most.
const MOST_NESTED: usize = 64;

/// What a factor lies in: an open parenthesis, or a step that waits for the end of the factor.
#[derive(Clone, Copy)]
pub(crate) enum Frame {
    Opening,
    Not,
    And,
    Or,
}

/// What the next token is to be.
#[derive(Clone, Copy)]
pub(crate) enum Stage<'a> {
    /// The first of a factor.
    Factor,
    /// `eq` or `ne`, behind this field.
    Comparison(&'a str),
    /// A value that this field is compared with.
    Value(&'a str, Comparison),
    /// What may stand behind a factor: `and`, `or` or a closing parenthesis.
    Behind,
}

/// A filter as far as its tokens have been read.
#[derive(Drop)]
pub(crate) struct Reader<'a> {
    /// The outermost first.
    frames: Vec<Frame>,
    stage: Stage<'a>,
    steps: Vec<Step>,
}

impl<'a> Reader<'a> {
    /// Nothing has been read.
    pub(crate) fn new(alloc: Global) -> Reader<'a>
        ensures { state_of result ≡ start }
    {
        Reader {
            frames: Vec::new(alloc),
            stage: Stage::Factor,
            steps: Vec::new(alloc),
        }
    }

    /// Reads the next token, which begins at this place.
    #[tactic(auto, unfolding(crate::specs::Reading::advance))]
    pub(crate) fn take(
        &mut self,
        alloc: Global,
        token: Token<'a>,
        place: u64,
    ) -> Result<(), Or<ChoiceFault>>
        ensures { Takes (advance (state_of self.old) (token_of token.entry)) place (state_of self.new) result }
    {
        match self.stage {
            Stage::Factor => self.take_factor(token, place),
            Stage::Comparison(field) => self.take_comparison(field, token, place),
            Stage::Value(field, comparison) => {
                self.take_value(alloc, field, comparison, token, place)
            }
            Stage::Behind => self.take_behind(token, place),
        }
    }

    /// The whole filter, where the text may end here.
    #[tactic(auto, unfolding(crate::specs::Reading::read_tokens))]
    pub(crate) fn finish(self, end: u64) -> Result<Choice, Or<ChoiceFault>>
        ensures { Reads (read_tokens end (state_of self.entry) []) result }
    {
        let Stage::Behind = self.stage else {
            return Err(unfit(end));
        };
        if !self.frames.is_empty() {
            return Err(unfit(end));
        }
        Ok(Choice::of(self.steps))
    }

    /// Reads the first token of a factor.
    fn take_factor(&mut self, token: Token<'a>, place: u64) -> Result<(), Or<ChoiceFault>>
        ensures { Takes (at_factor (state_of self.old) (token_of token.entry)) place (state_of self.new) result }
    {
        match token {
            Token::Opening => self.nest(Frame::Opening, place),
            Token::Word(word) => {
                if word == "not" {
                    return self.nest(Frame::Not, place);
                }
                self.stage = Stage::Comparison(word);
                Ok(())
            }
            _ => Err(unfit(place)),
        }
    }

    /// Goes one deeper.
    #[tactic(auto, using(crate::proofs::Frames::depth_turned))]
    fn nest(&mut self, frame: Frame, place: u64) -> Result<(), Or<ChoiceFault>>
        ensures { Takes (nested frame (state_of self.old)) place (state_of self.new) result }
    {
        if nested_in(&self.frames) >= MOST_NESTED {
            return Err(unfit(place));
        }
        self.frames.push(frame)?;
        Ok(())
    }

    /// Reads how a field is compared.
    fn take_comparison(
        &mut self,
        field: &'a str,
        token: Token<'a>,
        place: u64,
    ) -> Result<(), Or<ChoiceFault>>
        ensures { Takes (at_comparison field.now (state_of self.old) (token_of token.entry)) place (state_of self.new) result }
    {
        let Token::Word(word) = token else {
            return Err(unfit(place));
        };
        let Some(comparison) = comparison_in(word) else {
            return Err(unfit(place));
        };
        self.stage = Stage::Value(field, comparison);
        Ok(())
    }

    /// Reads the value that a field is compared with.
    fn take_value(
        &mut self,
        alloc: Global,
        field: &'a str,
        comparison: Comparison,
        token: Token<'a>,
        place: u64,
    ) -> Result<(), Or<ChoiceFault>>
        ensures { Takes (at_value field.now comparison (state_of self.old) (token_of token.entry)) place (state_of self.new) result }
    {
        let Some(value) = value_in(token) else {
            return Err(unfit(place));
        };
        let test = test_of(alloc, field, comparison, value)?;
        self.steps.push(Step::Test(test))?;
        self.end_factor()?;
        Ok(())
    }

    /// Reads what stands behind a factor.
    fn take_behind(&mut self, token: Token<'a>, place: u64) -> Result<(), Or<ChoiceFault>>
        ensures { Takes (at_behind (state_of self.old) (token_of token.entry)) place (state_of self.new) result }
    {
        match token {
            Token::Closing => self.close(place),
            Token::Word(word) => {
                let Some(joiner) = joiner_in(word) else {
                    return Err(unfit(place));
                };
                self.frames.push(joiner)?;
                self.stage = Stage::Factor;
                Ok(())
            }
            _ => Err(unfit(place)),
        }
    }

    /// Ends the filter in the parentheses that were opened last.
    fn close(&mut self, place: u64) -> Result<(), Or<ChoiceFault>>
        ensures { let s = state_of self.old in Takes (closed s.frames s.steps) place (state_of self.new) result }
    {
        match self.frames.pop() {
            Some(Frame::Opening) => {
                self.end_factor()?;
                Ok(())
            }
            _ => Err(unfit(place)),
        }
    }

    /// Ends a factor: takes the steps that waited for it.
    fn end_factor(&mut self) -> Result<(), NoMemory>
        ensures { let s = state_of self.old in OnOk result (state_of self.new ≡ ended s.frames s.steps) }
    {
        while let Some(step) = pop_due(&mut self.frames) {
            self.steps.push(step)?;
        }
        self.stage = Stage::Behind;
        Ok(())
    }
}

/// Takes out the innermost frame, where a step waits in it.
fn pop_due(frames: &mut Vec<Frame>) -> Option<Step>
    ensures some { IfSome result (λ step. (steps : List StepValue) →
        ended (reverse frames.old.items) steps ≡ ended (reverse frames.new.items) (steps ++ step ∷ [])) }
    ensures fewer { IfSome result (λ step. vec_len frames.new < vec_len frames.old) }
    ensures none { IfNone result ((steps : List StepValue) → ended (reverse frames.old.items) steps
        ≡ record { frames = reverse frames.new.items; stage = behind; steps = steps }) }
{
    let step = due(*frames.last()?)?;
    frames.pop();
    Some(step)
}

/// The step that waits in a frame for the end of a factor.
fn due(frame: Frame) -> Option<Step>
    ensures { result ≡ due frame }
{
    match frame {
        Frame::Opening => None,
        Frame::Not => Some(Step::Not),
        Frame::And => Some(Step::And),
        Frame::Or => Some(Step::Or),
    }
}

/// How deep the next factor lies.
fn nested_in(frames: &[Frame]) -> usize
    ensures { result ≡ count_by is_nested frames.now }
{
    frames.iter().filter(|frame| is_nested(**frame)).count()
}

fn is_nested(frame: Frame) -> bool
    ensures { result ≡ is_nested frame }
{
    match frame {
        Frame::Opening | Frame::Not => true,
        Frame::And | Frame::Or => false,
    }
}

/// The comparison that a word names.
fn comparison_in(word: &str) -> Option<Comparison>
    ensures { result ≡ comparison_in word.now }
{
    match word {
        "eq" => Some(Comparison::Equal),
        "ne" => Some(Comparison::Unequal),
        _ => None,
    }
}

/// The frame of a word that joins one more factor.
fn joiner_in(word: &str) -> Option<Frame>
    ensures { result ≡ joiner_in word.now }
{
    match word {
        "and" => Some(Frame::And),
        "or" => Some(Frame::Or),
        _ => None,
    }
}

/// The value that a token gives.
fn value_in(token: Token<'_>) -> Option<&str>
    ensures { option_map (λ bytes. bytes.now) result ≡ value_in (token_of token.entry) }
{
    match token {
        Token::Word(value) => Some(value),
        Token::Quoted(value) => Some(value),
        _ => None,
    }
}

/// The comparison of a field with a value.
fn test_of(
    alloc: Global,
    field: &str,
    comparison: Comparison,
    value: &str,
) -> Result<Test, NoMemory>
    ensures { IfOk result (λ test.
        test ≡ record { field = field.now; comparison = comparison; value = value.now }) }
{
    Ok(Test {
        field: Text::from_text(alloc, field)?,
        comparison,
        value: Text::from_text(alloc, value)?,
    })
}

/// No filter can have a token at this place.
fn unfit(place: u64) -> Or<ChoiceFault>
    ensures { result ≡ Or.Why (record { place = place }) }
{
    Or::Why(ChoiceFault { place })
}
