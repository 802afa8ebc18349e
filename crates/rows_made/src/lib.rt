//! The rows that commands make: new ones, and those that are replaced, patched or renamed.
#![tactic(auto)]

mod caps;
mod contents;
mod instances;
mod networks;
mod parts;
mod pools;
mod profiles;
mod projects;
mod volumes;

pub use caps::{LARGEST_ROW, cap_of, largest_row_is_64_kib};
pub use instances::patched_instance;
pub use networks::{made_network, patched_network, put_network, renamed_network};
pub use parts::{
    new_config, new_description, new_devices, patched_config, patched_description, patched_devices,
};
pub use pools::{made_pool, patched_pool, put_pool};
pub use profiles::{
    default_profile, made_profile, patched_profile, put_profile, rehomed_profile, renamed_profile,
};
pub use projects::{made_project, patched_project, put_project, renamed_project};
pub use volumes::{made_volume, patched_volume, put_volume, renamed_volume};
