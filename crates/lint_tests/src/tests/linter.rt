// Tests of the linter, alone and over pools: with few workers and many, in arenas that are full or starved.
mod gates;
mod many;
mod one;
mod over;
mod pools;
mod stages;
mod starved;
mod two;
