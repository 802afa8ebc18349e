//! Tests of the keeper of a journal, over disks in memory that fail and crash, and over files. They call public functions
//! alone.
#![tactic(auto)]

#[cfg(test)]
mod crashes;
#[cfg(test)]
mod day;
#[cfg(test)]
mod days;
#[cfg(test)]
mod files;
#[cfg(test)]
mod rows;
