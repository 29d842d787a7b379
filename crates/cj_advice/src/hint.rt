/// Two lines that stand behind a fault line.
#[derive(Clone, Copy, Debug, PartialEq, Eq)]
pub struct Hint {
    /// What is meant.
    pub means: &'static str,
    /// What helps.
    pub helps: &'static str,
}
