//! Tests of readings, totals and the estate by their public calls.
#![tactic(auto)]

#[cfg(test)]
mod fillings;
#[cfg(test)]
mod kept_rows;
#[cfg(test)]
mod openings;
#[cfg(test)]
mod readings;
#[cfg(test)]
mod reports;
