//! Tests of certificates, their text and their judge, over public calls alone: in a crate of their own they do not have the others proved a second time.
#![tactic(auto)]

#[cfg(test)]
mod blocks;
#[cfg(test)]
mod brief;
#[cfg(test)]
mod brief_checks;
#[cfg(test)]
mod brief_leaves;
#[cfg(test)]
mod brief_primaries;
#[cfg(test)]
mod brief_slots;
#[cfg(test)]
mod cells;
#[cfg(test)]
mod certificates;
#[cfg(test)]
mod crowds;
#[cfg(test)]
mod faults;
#[cfg(test)]
mod lines;
#[cfg(test)]
mod listing;
#[cfg(test)]
mod rows;
