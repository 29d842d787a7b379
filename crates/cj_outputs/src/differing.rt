//! In what a certificate differs from the case for which it is checked. What is told is no part of any clause.
use crate::any_certificate::Stated;
use cj_case::Problem;
use cj_formats::CheckCause;
use cj_io::{Difference, Differing, Gate};

/// Tells in what the head and the sizes of a certificate differ from those of a problem, where it is refused for one of them.
pub fn tell_differences<G: Gate>(
    gate: &G,
    problem: &Problem,
    stated: Stated<'_>,
    cause: CheckCause,
) {
    if cause == CheckCause::Header || cause == CheckCause::SizeOf {
        tell_head(gate, problem, stated);
        tell_size(gate, problem, stated);
    }
}

fn tell_head<G: Gate>(gate: &G, problem: &Problem, stated: Stated<'_>) {
    tell_if(
        gate,
        Differing::Start,
        stated.window.first.micros,
        problem.window.first.micros,
    );
    tell_if(
        gate,
        Differing::Stop,
        stated.window.last.micros,
        problem.window.last.micros,
    );
    tell_if(
        gate,
        Differing::Threshold,
        stated.threshold,
        problem.threshold,
    );
    tell_if(
        gate,
        Differing::Objects,
        u64::from(stated.objects),
        problem.tracks.as_slice().len() as u64,
    );
}

/// Tells the first size that a line states otherwise.
fn tell_size<G: Gate>(gate: &G, problem: &Problem, stated: Stated<'_>) {
    let sizes = problem.sizes.as_slice();
    for line in stated.sizes {
        match sizes.get(line.object as usize) {
            Some(size) if *size != line.size => {
                let object = u64::from(line.object) + 1;
                tell_if(gate, Differing::Size { object }, line.size, *size);
                return;
            }
            _ => {}
        }
    }
}

fn tell_if<G: Gate>(gate: &G, of: Differing, stated: u64, asked: u64) {
    if stated != asked {
        gate.differ(Difference { of, stated, asked });
    }
}
