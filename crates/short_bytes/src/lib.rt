//! Lists of bytes, of which short ones are stored inline.
#![tactic(auto)]

mod bytes;
mod short;

pub use bytes::Bytes;
