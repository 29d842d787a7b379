//! Tests of halving, by one thread and by workers, over public calls alone: in a crate of their own they do not have the others proved a second time.
#![tactic(auto)]

#[cfg(test)]
mod leaves;
#[cfg(test)]
mod shares;
#[cfg(test)]
mod turns;
