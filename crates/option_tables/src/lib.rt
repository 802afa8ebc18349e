//! Which option takes which value. `tables` lists each option of instances, devices, projects, networks,
//! pools and volumes with the form of its value; the `check_` calls find the first setting or device that
//! the tables refuse. Commands check every row that they would put.
#![tactic(auto)]

mod checks;
mod devices;
mod faults;
mod form;
mod laws;
mod names;
mod tables;

pub use checks::{check_instance, check_network, check_pool, check_project, check_volume};
pub use devices::check_devices;
pub use faults::{DeviceFault, SettingFault};
pub use laws::each_line_is_the_rule_of_its_keys;
pub use tables::{Scope, takes_key};
