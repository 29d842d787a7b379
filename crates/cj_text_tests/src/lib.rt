//! Tests of texts and lists, over public calls alone: in a crate of their own they do not have the others proved a second time.
#![tactic(auto)]

#[cfg(test)]
mod arithmetic;
#[cfg(test)]
mod dealing;
#[cfg(test)]
mod decimals;
#[cfg(test)]
mod digits;
#[cfg(test)]
mod epochs;
#[cfg(test)]
mod faults;
#[cfg(test)]
mod lines;
#[cfg(test)]
mod lists;
#[cfg(test)]
mod outputs;
#[cfg(test)]
mod outside;
#[cfg(test)]
mod runs;
#[cfg(test)]
mod scaled;
#[cfg(test)]
mod tables;
