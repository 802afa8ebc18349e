//! Tests of which objects filters take, and of the values of the fields of objects.
#![tactic(auto)]

#[cfg(test)]
mod chosen;
#[cfg(test)]
mod fields;
#[cfg(test)]
mod shown;
#[cfg(test)]
mod urls;
