use std::marker::Brand;

/// Names the problem, the roots and the number of workers of a run, for the types that speak of them. It has no call: the caller of
/// a function that is generic over it picks the three.
pub trait Run {
    ghost use Rattle.std.specs.Prelude.{ℕ, List};
    ghost use Rattle.cj_case.specs.declared.problem.Problem.{Problem};
    ghost use Rattle.cj_case.specs.declared.cell.Cell.{Cell};

    ghost problem: { Problem };

    ghost roots: { List Cell };

    ghost workers: { ℕ };
}

impl Run for Brand {
    ghost use Rattle.cj_pool.specs.Runs.{no_problem, no_roots};

    ghost problem = { no_problem };

    ghost roots = { no_roots };

    ghost workers = { 0 };
}
