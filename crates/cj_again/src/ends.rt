ghost use Rattle.std.specs.Prelude.{◌≤◌};

/// Of some objects the first and the last.
#[derive(Clone, Copy, Debug, PartialEq, Eq)]
pub struct Ends {
    pub first: u32,
    pub last: u32,
    pub ghost ordered: { first ≤ last },
}
