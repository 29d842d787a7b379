ghost use Rattle.std.specs.Prelude.{◌≡◌};
ghost use Rattle.cj_case.specs.Problems.{plain_problem};
ghost use Rattle.cj_pool.specs.Tree.{InTree};

use crate::run::Run;
use cj_case::Cell;
use std::marker::{Model, PhantomData};

/// What stands in a deque: a cell in the halving tree of a root of the run. Contracts see the cell.
#[derive(Drop)]
pub struct Work<K: Run> {
    cell: Cell,
    of: PhantomData<K>,
}

impl<K: Run> Model for Work<K> {
    ghost use Rattle.cj_case.specs.declared.cell.Cell.{Cell};
    ghost use Rattle.cj_case.specs.Problems.{plain_problem};
    ghost use Rattle.cj_pool.specs.Tree.{InTree};

    ghost Value = { Cell };

    ghost view = { λ w. w.cell };

    ghost invariant = { λ w. InTree (plain_problem K.problem) K.roots w.cell };
}

impl<K: Run> Work<K> {
    pub fn new(cell: Cell) -> Work<K>
        requires { InTree (plain_problem K.problem) K.roots cell }
        ensures { result ≡ cell }
    {
        Work {
            cell,
            of: PhantomData,
        }
    }

    pub fn into_cell(self) -> Cell
        ensures cell { result ≡ self }
        ensures tree { InTree (plain_problem K.problem) K.roots result }
    {
        let Work { cell, of: _ } = self;
        cell
    }
}
