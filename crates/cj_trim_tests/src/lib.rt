//! Tests of tracks without the nodes that a window does not need, over public calls alone.
#![tactic(auto)]

#[cfg(test)]
mod segments;
#[cfg(test)]
mod texts;
#[cfg(test)]
mod windows;
