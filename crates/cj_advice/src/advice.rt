use crate::hint::Hint;

/// What a person is told of a cause. All of it is printed as it stands, in lines of at most 78 characters.
#[derive(Clone, Copy, Debug, PartialEq, Eq)]
pub struct Advice {
    /// What the cause means, in a few words.
    pub means: &'static str,
    /// What helps, in one line.
    pub helps: &'static str,
    /// The same at length, in whole lines.
    pub more: &'static str,
    /// Whole lines that are refused with this cause.
    pub wrong: &'static str,
    /// What stands in their place where it is not.
    pub right: &'static str,
}

impl Advice {
    /// What of it stands behind a fault line.
    pub fn hint(&self) -> Hint {
        Hint {
            means: self.means,
            helps: self.helps,
        }
    }
}
