//! Tests of the filters of lists: which texts are read, as which steps, and where the others go wrong. There is nothing
//! else here.
#![tactic(auto)]

#[cfg(test)]
mod texts;
