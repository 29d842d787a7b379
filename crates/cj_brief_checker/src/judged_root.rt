use cj_bezier::Verdict;
use cj_checker::Root;

/// A root, and the verdict on all of its ticks.
#[derive(Clone, Copy)]
pub(crate) struct JudgedRoot {
    pub root: Root,
    pub verdict: Verdict,
}
