//! How far back versions are wanted: floors and the horizon, over plain numbers of commits.
//!
//! Contracts see a floor and a horizon as `least` of specs/Floors. Nothing of the repository stands below; `iq_world` stands
//! above, and says its floors and its horizon by the same words. Its one law: both are the greatest number that none is below.
#![tactic(auto)]

mod floors;

pub use floors::{floor, horizon};
