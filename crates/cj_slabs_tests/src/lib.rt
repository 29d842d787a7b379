//! Tests of the whole list slab by slab, over public calls alone.
#![tactic(auto)]

#[cfg(test)]
mod cases;
#[cfg(test)]
mod primaries;
#[cfg(test)]
mod slabs;
