//! Tests of the readers of ephemerides and sizes, and of what is made up, over public calls alone: in a crate of their own they do not have the others proved a second time.
#![tactic(auto)]

#[cfg(test)]
mod cases;
#[cfg(test)]
mod catalogues;
#[cfg(test)]
mod covariances;
#[cfg(test)]
mod files;
#[cfg(test)]
mod made_tracks;
#[cfg(test)]
mod metadata;
#[cfg(test)]
mod primaries;
#[cfg(test)]
mod printing;
#[cfg(test)]
mod rows;
#[cfg(test)]
mod samples;
#[cfg(test)]
mod segments;
#[cfg(test)]
mod sizes;
#[cfg(test)]
mod texts;
