//! Laws of the definitions: functions that do nothing, whose contracts are the laws.
ghost use Rattle.std.specs.Prelude.{◌≡◌, ◌≤◌, ◌<◌, ℕ, Bool, List, [], ◌∷◌, length, Ok, Err, codes};
ghost use Rattle.filter_texts.specs.declared.choice.Step.{Step as StepValue};
ghost use Rattle.filter_texts.specs.declared.choice.Test.{Test as TestValue};
ghost use Rattle.filter_texts.specs.Tokens.{Token, Placed, placed_tokens, tokens_of};
ghost use Rattle.filter_texts.specs.Spelling.{AreSpelled};
ghost use Rattle.filter_texts.specs.Grammar.{Filter, IsFilter};
ghost use Rattle.filter_texts.specs.Meaning.{meaning, postfix, run, holds_for};
ghost use Rattle.filter_texts.specs.Reading.{choice_read, most_bytes};
ghost use Rattle.filter_texts.specs.Places.{IsFaultPlace};
ghost use Rattle.filter_texts.specs.Worked.{name_is, a_is_b, in_parentheses};

use crate::choice::Step;

/// What is read is a filter of the grammar, in at most 4,096 bytes, and the steps are those of the filter.
pub fn what_is_read_is_a_filter()
    ensures { (text : List ℕ) (steps : List StepValue) → choice_read text ≡ Ok steps
        → (length text ≤ most_bytes) × (f : Filter) × IsFilter 0 (tokens_of text) f × (steps ≡ postfix f) }
{}

/// Each filter of the grammar in at most 4,096 bytes is read, as its steps.
pub fn each_filter_is_read()
    ensures { (text : List ℕ) (f : Filter) → length text ≤ most_bytes → IsFilter 0 (tokens_of text) f
        → choice_read text ≡ Ok (postfix f) }
{}

/// Tokens are of one filter at most.
pub fn tokens_are_of_one_filter()
    ensures { (tokens : List Token) (f g : Filter) → IsFilter 0 tokens f → IsFilter 0 tokens g → f ≡ g }
{}

/// The steps of a filter never want a truth that is not there, and leave one, which says whether the filter is true of the
/// object.
pub fn steps_choose_as_their_filter()
    ensures stack { (holds : TestValue → Bool) (f : Filter) → run holds (postfix f) [] ≡ meaning holds f ∷ [] }
    ensures choice { (holds : TestValue → Bool) (f : Filter) → holds_for holds (postfix f) ≡ meaning holds f }
{}

/// A fault has the place of the first token that no filter can have behind those before it, or that of the end of a text
/// that can go on to a filter and is none. A text of more than 4,096 bytes has place 4096.
pub fn faults_stand_where_a_text_leaves_all_filters()
    ensures place { (text : List ℕ) (place : ℕ) → length text ≤ most_bytes → choice_read text ≡ Err place
        → IsFaultPlace text place }
    ensures long { (text : List ℕ) → most_bytes < length text → choice_read text ≡ Err most_bytes }
{}

/// A text spells its tokens at their places, with nothing but spaces between them, and no others.
pub fn a_text_spells_its_tokens()
    ensures spells { (text : List ℕ) → AreSpelled (length text) text (placed_tokens text) }
    ensures only { (text : List ℕ) (tokens : List Placed) → AreSpelled (length text) text tokens → placed_tokens text ≡ tokens }
{}

/// Examples: `and` and `or` bind alike; texts with a fault, and its place; 64 parentheses and 65.
pub fn filters_by_example()
    ensures from_the_left { choice_read (codes "name eq a or name eq b and name eq b")
        ≡ Ok (name_is (codes "a") ∷ name_is (codes "b") ∷ Step.Or ∷ name_is (codes "b") ∷ Step.And ∷ []) }
    ensures empty { choice_read [] ≡ Err 0 }
    ensures too_early { choice_read (codes "name eq") ≡ Err 7 }
    ensures too_much { choice_read (codes "name eq a b") ≡ Err 10 }
    ensures two_tokens { choice_read (codes "name eq a\"b\"") ≡ Err 9 }
    ensures unclosed { choice_read (codes "name eq \"a") ≡ Err 8 }
    ensures other_case { choice_read (codes "NAME EQ a") ≡ Err 5 }
    ensures closed { choice_read (codes ")") ≡ Err 0 }
    ensures deep { choice_read (in_parentheses 64) ≡ Ok (a_is_b ∷ []) }
    ensures too_deep { choice_read (in_parentheses 65) ≡ Err 64 }
{}
