//! What a person is warned of when objects have been screened. No clause speaks of it.
use cj_case::Problem;
use cj_io::{Gate, Warning};
use cj_outputs::Findings;

/// Warns of encounters that have no message.
pub fn warn_of_messages<G: Gate>(gate: &G, found: &Findings) {
    if !gate.is_warned() {
        return;
    }
    let missing = found.messages.iter().filter(|has| !**has).count();
    if let Some(first) = found.messages.iter().position(|has| !*has) {
        gate.warn(Warning::NoMessage, missing as u64, first_file(found, first));
    }
}

/// The file of the first object of an encounter.
fn first_file(found: &Findings, encounter: usize) -> &[u8] {
    match found.encounters.get(encounter) {
        Some(encounter) => file_of(&found.problem, encounter.pair.a),
        None => b"",
    }
}

fn file_of(problem: &Problem, object: u32) -> &[u8] {
    match problem.tracks.as_slice().get(object as usize) {
        Some(track) => track.file.as_slice(),
        None => b"",
    }
}
