//! Uses each public item of the libraries with its whole type written out. If a name, a parameter, a result, a bound, a
//! field or a variant is removed or changed, this crate doesn't compile. Nothing of it runs: code after a `return` is
//! only type-checked. `tools/surface.py` prints items that no line uses.
#![tactic(auto)]

mod allocator;
mod arenas;
mod bits;
mod blocks;
mod calls;
mod clone;
mod drawing;
mod facade;
mod hash;
mod items;
mod kinds;
mod lint;
mod places;
mod pool;
mod program;
mod scripts;
mod sharing;
mod symbols;
mod text;
mod trees;
mod vec;
mod workers;
