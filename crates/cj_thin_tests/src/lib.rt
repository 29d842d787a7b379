//! Tests of tracks with fewer nodes, over public calls alone.
#![tactic(auto)]

#[cfg(test)]
mod texts;
#[cfg(test)]
mod thinning;
