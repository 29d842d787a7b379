/// Why a text is no epoch.
#[derive(Clone, Copy, Debug, PartialEq, Eq)]
pub enum EpochFault {
    /// The text has not the form of an epoch.
    Form,
    /// The years from 1972 to 2099 have no such day, or a day has no such time.
    Range,
    /// The second is 60.
    SecondSixty,
    /// A digit past the sixth decimal of the second is not 0.
    TooFine,
}
