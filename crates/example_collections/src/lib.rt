//! Small callers of the arena's collections and of pools: examples of what a layer above can prove, and how.
//!
//! - Vectors: values are sorted, filtered, removed, replaced, compared and added up.
//! - Maps: pairs are inserted next to other maps, many pairs are inserted at a known cost, and a hasher has a seed for
//!   keys that others choose.
//! - Texts and sets: texts are built, and numbers are added to a set next to another.
//! - Copies: a tree of the caller's own types is copied part by part, an enum by its variants, a list changes next to
//!   its copy, and a copy's bytes are counted.
//! - Pools: a thread borrows an arena, claims words, and owns an arena together with another thread.
//!
//! The proofs use the contracts and laws of the crates below and the lemmas of `Layers` alone, never their bodies.
#![tactic(auto)]

mod beside;
mod bits;
mod books;
mod borrow;
mod branches;
mod bytes;
mod claims;
mod comparing;
mod filling;
mod lender;
mod loans;
mod nodes;
mod owners;
mod pushing;
mod ranking;
mod seeded;
mod sorting;
mod taking;
mod texts;
mod threads;

pub use beside::{copy_and_push, put_beside};
pub use bits::{copied, count, insert_beside};
pub use books::through_book;
pub use borrow::{put_in, read_back, take_out, through};
pub use branches::Branch;
pub use bytes::copy_numbers;
pub use claims::{claim_all, claim_by_two};
pub use comparing::{earlier, feed_alike};
pub use filling::put_all;
pub use lender::{Guard, put};
pub use loans::{all_through_fixed, all_through_standard, through_fixed, through_standard};
pub use nodes::Node;
pub use owners::{alone, freed, freed_by_two};
pub use pushing::{push_below, push_beside, push_copies, sum_of};
pub use ranking::split_lowest;
pub use seeded::SeededHasher;
pub use sorting::{insert_sorted, place_of, sorted_of};
pub use taking::{exchange, keep_from, put_numbers, take_front};
pub use texts::{push_and_count, push_line, push_number, row_of, rule_of};
pub use threads::{all_through, over_fixed, over_limited, over_standard};
