/// An axis of space, along which a sweep goes.
#[derive(Clone, Copy)]
pub enum Axis {
    X,
    Y,
    Z,
}
