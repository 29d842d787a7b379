use cj_case::{Problem, Shell};
use cj_track::Track;

/// The track of an object of a problem, and the shell that is listed for the object.
#[derive(Clone, Copy)]
pub(crate) struct Course<'c> {
    pub problem: &'c Problem,
    pub track: &'c Track,
    pub shell: Shell,
}
