//! Tests of the rules, and of the operations that commands begin, by their public calls.
#![tactic(auto)]

#[cfg(test)]
mod asked;
#[cfg(test)]
mod begun;
#[cfg(test)]
mod cases;
#[cfg(test)]
mod creations;
#[cfg(test)]
mod parts;
#[cfg(test)]
mod profiles;
#[cfg(test)]
mod rows;
#[cfg(test)]
mod tables;
#[cfg(test)]
mod urls;
