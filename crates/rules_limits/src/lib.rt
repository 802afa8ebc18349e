//! Rules on limits, L0 to L9: that what counts gives its numbers, and that each project stands within its limits.
#![tactic(auto)]

mod all_projects;
mod counts;
mod exceeded;
mod limited;
mod one_operation;
mod one_project;
mod parts;
mod pool_lines;
mod sums;
mod usage;

pub use all_projects::{limits_broken, standing_limits_broken};
pub use counts::{counts_broken, project_without_amount};
pub use limited::{Limited, limited_named, limited_projects, limits_named};
pub use one_operation::{
    Beside, claim_lacks_amount, limit_on_pool, needs_usage, needs_use_of_pool, share_broken,
};
pub use one_project::{InUse, uses_exceed};
pub use parts::{is_any_limit_set, is_limited_by};
pub use usage::{Usage, usage_before, usage_before_changes};
