// Tests of copies, into another arena and within the same one, of conversions and of exchange. The values are the Rust
// crate's test cases, or worked out by hand.
mod checked;
mod kept;
mod lists;
mod rust_cases;
