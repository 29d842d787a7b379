//! Tests of words, fault lines and the real outside, over public calls alone: in a crate of their own they do not have the others proved a second time.
#![tactic(auto)]

#[cfg(test)]
mod advised;
#[cfg(test)]
mod again;
#[cfg(test)]
mod asked;
#[cfg(test)]
mod directories;
#[cfg(test)]
mod examples;
#[cfg(test)]
mod fault_lines;
#[cfg(test)]
mod inputs;
#[cfg(test)]
mod lines;
#[cfg(test)]
mod named_directories;
#[cfg(test)]
mod new_directories;
#[cfg(test)]
mod other_runs;
#[cfg(test)]
mod parts;
#[cfg(test)]
mod progress_lines;
#[cfg(test)]
mod refused;
#[cfg(test)]
mod telling;
#[cfg(test)]
mod tellings;
#[cfg(test)]
mod usage_faults;
#[cfg(test)]
mod versions;
#[cfg(test)]
mod warning_lines;
