//! Tests of screening again, over public calls alone.
#![tactic(auto)]

#[cfg(test)]
mod cases;
#[cfg(test)]
mod lists;
#[cfg(test)]
mod matches;
#[cfg(test)]
mod searching;
