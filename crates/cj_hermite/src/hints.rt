use cj_case::Pair;
use std::alloc::{AllocError, Global};

/// Where a track was looked at last: a segment, and a node of it. It says where to look first, and need not be right.
#[derive(Clone, Copy, Debug, Default, PartialEq, Eq)]
pub struct Hint {
    pub segment: u32,
    pub node: u32,
}

/// The hints of a pair.
#[derive(Clone, Copy, Debug, Default, PartialEq, Eq)]
pub struct PairHint {
    pub a: Hint,
    pub b: Hint,
}

/// A hint for each object.
#[derive(Debug, Drop)]
pub struct Hints {
    items: Vec<Hint>,
}

impl Hints {
    /// Hints for so many objects.
    pub fn new(alloc: Global, objects: usize) -> Result<Self, AllocError> {
        let mut items = Vec::with_capacity(alloc, objects)?;
        for _ in 0..objects {
            items.push(Hint::default())?;
        }
        Ok(Hints { items })
    }

    /// The hints of a pair.
    pub fn of_pair(&self, pair: Pair) -> PairHint {
        PairHint {
            a: self.of_object(pair.a),
            b: self.of_object(pair.b),
        }
    }

    /// Keeps the hints of a pair.
    pub fn keep(&mut self, pair: Pair, hint: PairHint) {
        self.keep_one(pair.a, hint.a);
        self.keep_one(pair.b, hint.b);
    }

    fn of_object(&self, object: u32) -> Hint {
        let object = object as usize;
        if object < self.items.len() {
            self.items[object]
        } else {
            Hint::default()
        }
    }

    fn keep_one(&mut self, object: u32, hint: Hint) {
        let object = object as usize;
        if object < self.items.len() {
            self.items[object] = hint;
        }
    }
}
