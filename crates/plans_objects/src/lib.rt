//! What each command that changes rows at once is to do: the changes of rows in their order, and the notice that tells
//! of them. The rows are lent; what commands make of them is read off the request and the rows that stand.
#![tactic(auto)]

mod changes;
mod made;
mod notices;
mod planned;
mod plans;
mod projects;

pub use planned::Planned;
pub use plans::plan_change;
