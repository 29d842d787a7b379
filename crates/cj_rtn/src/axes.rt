use crate::vector::Vector;

/// The axes of an object: along its place, along the vector product of its place and its rate, and across both, on the side of the rate.
#[derive(Clone, Copy)]
pub struct Axes {
    pub radial: Vector,
    pub transverse: Vector,
    pub normal: Vector,
}
