//! Tests of the keeper of an SQLite file, over files in folders of their own. They call public functions alone.
#![tactic(auto)]

#[cfg(test)]
mod files;
#[cfg(test)]
mod kept;
#[cfg(test)]
mod refused;
