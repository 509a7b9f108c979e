//! Which units of the segments are free, and where a new run is placed.
//!
//! Stands on the definitions of `space_model`. A `Space` knows the runs that are taken and those that are deferred, which
//! are held until they are settled; all other units are free. `take` gives the place of the definition, and `claim` a run
//! of the caller's choice.
#![tactic(auto)]

pub use space::Space;
pub use std::alloc::AllocError as Memory;

pub mod laws;
mod marks;
mod search;
mod space;
#[cfg(test)]
mod tests;
