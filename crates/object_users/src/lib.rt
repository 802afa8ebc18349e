//! The users of objects: which rows use a row, and the URLs of rows.
#![tactic(auto)]

mod at_home;
mod gathered;
mod row_ref;
mod row_urls;
mod users;
mod uses;

pub use at_home::project_may_use;
pub use gathered::{
    add_instances, add_networks, add_pools, add_profiles, add_projects, add_snapshots, add_volumes,
    add_volumes_in,
};
pub use row_ref::RowRef;
pub use row_urls::{row_url, urls_of_rows};
pub use users::used_by;
pub use uses::{instance_uses, names_profile, profile_uses, volume_uses};
