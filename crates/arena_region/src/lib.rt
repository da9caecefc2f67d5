//! Memory of which only the upper part has been touched.
#![tactic(auto)]

mod fill;
mod region;
mod store;

pub use region::Region;
#[doc(hidden)]
pub use store::{Base, Deed, Store};
