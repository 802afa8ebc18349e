//! Cases of settings and devices, alone and in layers, and of what reads them: the tables of options, the limits of
//! projects, and the names that objects have and that devices give. The cases are laws, and each call is run once.
#![tactic(auto)]

#[cfg(test)]
mod calls;
#[cfg(test)]
mod given;
pub mod laws;
#[cfg(test)]
mod limits;
