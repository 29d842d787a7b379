use crate::vector::Vector;

/// A place in nm and a rate in nm/s.
#[derive(Clone, Copy)]
pub struct State {
    pub place: Vector,
    pub rate: Vector,
}
