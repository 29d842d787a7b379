//! Tests of `cj_screen`, over its one call: in a crate of their own they do not have it proved a second time.
#![tactic(auto)]

#[cfg(test)]
mod advised;
#[cfg(test)]
mod all_faults;
#[cfg(test)]
mod brief;
#[cfg(test)]
mod catalogues;
#[cfg(test)]
mod certificates;
#[cfg(test)]
mod checks;
#[cfg(test)]
mod coverage;
#[cfg(test)]
mod cuts;
#[cfg(test)]
mod damages;
#[cfg(test)]
mod differing;
#[cfg(test)]
mod directories;
#[cfg(test)]
mod failures;
#[cfg(test)]
mod large;
#[cfg(test)]
mod many;
#[cfg(test)]
mod messages;
#[cfg(test)]
mod primaries;
#[cfg(test)]
mod refusals;
#[cfg(test)]
mod refusing;
#[cfg(test)]
mod relative;
#[cfg(test)]
mod reports;
#[cfg(test)]
mod rescreens;
#[cfg(test)]
mod results;
#[cfg(test)]
mod runs;
#[cfg(test)]
mod scenes;
#[cfg(test)]
mod selfruns;
#[cfg(test)]
mod thinnings;
#[cfg(test)]
mod told;
#[cfg(test)]
mod updated;
#[cfg(test)]
mod versions;
#[cfg(test)]
mod warned;
#[cfg(test)]
mod workers;
