ghost use Rattle.std.specs.Prelude.{◌≡◌};

use size_values::Text;
use std::marker::Model;

/// How a field of an object is compared with a value.
#[derive(Clone, Copy, PartialEq, Eq)]
pub enum Comparison {
    /// `eq`: the field has a value, and it is this one.
    Equal,
    /// `ne`: the field has another value, or none.
    Unequal,
}

/// A comparison of one field with a value, as `name eq a` says it.
#[derive(Drop)]
pub struct Test {
    /// The name of the field, with its dots, as `config.user.x`.
    pub field: Text,
    pub comparison: Comparison,
    pub value: Text,
}

/// A step of a filter, in the order in which they are taken: a test puts a truth upon a stack, `Not` turns the
/// uppermost around, and `And` and `Or` put one truth in the place of the two uppermost.
#[derive(Drop)]
pub enum Step {
    Test(Test),
    Not,
    And,
    Or,
}

/// A filter that was read: which objects of a list it chooses. Contracts see it as the list of its steps.
#[derive(Drop)]
pub struct Choice {
    steps: Vec<Step>,
}

impl Model for Choice {
    ghost use Rattle.std.specs.Prelude.{List};
    ghost use Rattle.filter_texts.specs.declared.choice.Step.{Step};

    ghost Value = { List Step };

    ghost view = { λ c. c.steps.items };
}

impl Choice {
    /// The choice with these steps. It takes no memory.
    pub(crate) fn of(steps: Vec<Step>) -> Choice
        ensures { result ≡ steps.items }
    {
        Choice { steps }
    }

    /// The steps, in their order. After the last of them, the stack has the one truth that says whether the object is
    /// chosen.
    pub fn steps(&self) -> &[Step]
        ensures { result.now ≡ self.now }
    {
        self.steps.as_slice()
    }
}

/// A text is no filter.
#[derive(Clone, Copy, PartialEq, Eq)]
pub struct ChoiceFault {
    /// Where the first token begins that no filter can have there, in bytes from 0: the length of the text where it ends
    /// too early, and 4,096 where it is longer.
    pub place: u64,
}
