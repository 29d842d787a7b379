//! Tests of encounters, the report and messages, over public calls alone: in a crate of their own they do not have the others proved a second time.
#![tactic(auto)]

#[cfg(test)]
mod approaches;
#[cfg(test)]
mod choosing;
#[cfg(test)]
mod expected;
#[cfg(test)]
mod leaves;
#[cfg(test)]
mod reading_messages;
#[cfg(test)]
mod relative_messages;
#[cfg(test)]
mod relative_states;
#[cfg(test)]
mod reports;
#[cfg(test)]
mod writing_messages;
