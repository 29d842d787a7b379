//! Tests of interpolants and hulls, over public calls alone: in a crate of their own they do not have the others proved a second time.
#![tactic(auto)]

#[cfg(test)]
mod coverage;
#[cfg(test)]
mod crowds;
#[cfg(test)]
mod gaps;
#[cfg(test)]
mod pieces;
#[cfg(test)]
mod tracks;
