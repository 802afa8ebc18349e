//! A stack of truths, on which the steps of a filter work.
ghost use Rattle.std.specs.Prelude.{◌≡◌, [], ◌∷◌, Some, None, OnOk, OnErr, IfSome, IfNone, length, ◌<◌};
ghost use Rattle.filter_texts.specs.Meaning.{only_truth};

use size_values::NoMemory;
use std::alloc::Global;
use std::marker::Model;

/// A stack of truths. Contracts see the uppermost first.
#[derive(Drop)]
pub(crate) struct Truths {
    items: Vec<bool>,
}

impl Model for Truths {
    ghost use Rattle.std.specs.Prelude.{List, Bool, reverse};

    ghost Value = { List Bool };

    ghost view = { λ t. reverse t.items.items };
}

impl Truths {
    /// None. It takes no memory.
    pub(crate) fn new(alloc: Global) -> Truths
        ensures { result ≡ [] }
    {
        Truths {
            items: Vec::new(alloc),
        }
    }

    /// Puts one on top.
    pub(crate) fn push(&mut self, truth: bool) -> Result<(), NoMemory>
        ensures { OnOk result (self.new ≡ truth ∷ self.old) }
    {
        self.items.push(truth)?;
        Ok(())
    }

    /// Takes the uppermost away.
    pub(crate) fn pop(&mut self) -> Option<bool>
        ensures some { IfSome result (λ truth. self.old ≡ truth ∷ self.new) }
        ensures none { IfNone result (self.old ≡ []) }
    {
        self.items.pop()
    }

    /// Takes the two uppermost away, where there are two: first the lower one.
    pub(crate) fn pop_two(&mut self) -> Option<(bool, bool)>
        ensures some { IfSome result (λ pair. self.old ≡ pair.1 ∷ pair.0 ∷ self.new) }
        ensures none { IfNone result (length self.old < 2) }
    {
        match (self.pop(), self.pop()) {
            (Some(second), Some(first)) => Some((first, second)),
            _ => None,
        }
    }

    /// The one truth, where there is just one; else false.
    pub(crate) fn only(&self) -> bool
        ensures { result ≡ only_truth self.now }
    {
        match self.items.as_slice() {
            [truth] => *truth,
            _ => false,
        }
    }
}
