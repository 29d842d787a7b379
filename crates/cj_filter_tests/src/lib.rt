//! Tests of the filters, over public calls alone: in a crate of their own they do not have the others proved a second time.
#![tactic(auto)]

#[cfg(test)]
mod boxes;
#[cfg(test)]
mod filter;
