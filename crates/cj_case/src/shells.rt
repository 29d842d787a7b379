/// A spherical shell about the origin, by its inner and its outer radius in nm.
#[derive(Clone, Copy, Debug, PartialEq, Eq)]
pub struct Shell {
    pub lo: u64,
    pub hi: u64,
}
