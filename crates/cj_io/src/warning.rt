/// What of a run a person may not have meant. It is no fault.
#[derive(Clone, Copy, Debug, PartialEq, Eq)]
pub enum Warning {
    /// The folder has no file.
    NoFiles,
    /// No file is taken, and these are there.
    NothingTaken,
    /// Files are not taken whose names are nearly those of files that are.
    LeftOut,
    /// Files have the designator of a file before them.
    SameObject,
    /// None of the objects has a state in the window.
    OutsideWindow,
    /// Some objects have no state in the window.
    NoState,
    /// Rows of sizes name no object.
    StrangeSize,
    /// Encounters have no message.
    NoMessage,
}
