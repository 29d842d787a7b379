/// What a line of a certificate is about. The kinds stand in the order in which their lines do.
#[derive(Clone, Copy, PartialEq, Eq)]
pub(crate) enum Rank {
    Heading,
    Window,
    Threshold,
    Objects,
    Size,
    Primary,
    Shell,
    Box,
    Cell,
    End,
}

impl Rank {
    ghost use Rattle.std.specs.Prelude.{◌≡◌};
    ghost use Rattle.cj_cert_text.specs.Ranks as spec;

    /// The kind of the lines that begin with this word.
    #[tactic(auto, unfolding(crate::specs::Ranks::rank_of_word))]
    pub(crate) fn of_word(word: &[u8]) -> Option<Rank>
        ensures { result ≡ spec.rank_of_word word.now }
    {
        if word == b"CELL".as_slice() {
            Some(Rank::Cell)
        } else if word == b"BOX".as_slice() {
            Some(Rank::Box)
        } else if word == b"SHELL".as_slice() {
            Some(Rank::Shell)
        } else if word == b"SIZE".as_slice() {
            Some(Rank::Size)
        } else if word == b"PRIMARY".as_slice() {
            Some(Rank::Primary)
        } else if word == b"CONJ-CERT".as_slice() {
            Some(Rank::Heading)
        } else if word == b"WINDOW".as_slice() {
            Some(Rank::Window)
        } else if word == b"THRESHOLD".as_slice() {
            Some(Rank::Threshold)
        } else if word == b"OBJECTS".as_slice() {
            Some(Rank::Objects)
        } else if word == b"END".as_slice() {
            Some(Rank::End)
        } else {
            None
        }
    }

    /// Whether a line of this kind may stand behind a line of that one, or first of all: one of each of the first four kinds in their
    /// order, then any number of each.
    pub(crate) fn may_follow(self, before: Option<Rank>) -> bool
        ensures { result ≡ spec.may_follow self before }
    {
        match before {
            None => self.place() == 1,
            Some(before) if before.place() < 4 => self.place() == before.place() + 1,
            Some(before) => 4 < self.place() && before.place() <= self.place(),
        }
    }

    /// The place of the kind in their order.
    pub(crate) fn place(self) -> u8
        ensures { result ≡ spec.place self }
    {
        match self {
            Rank::Heading => 1,
            Rank::Window => 2,
            Rank::Threshold => 3,
            Rank::Objects => 4,
            Rank::Size => 5,
            Rank::Primary => 6,
            Rank::Shell => 7,
            Rank::Box => 8,
            Rank::Cell => 9,
            Rank::End => 10,
        }
    }
}
