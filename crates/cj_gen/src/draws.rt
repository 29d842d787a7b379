ghost use Rattle.std.specs.Prelude.{◌≡◌};
ghost use Rattle.cj_gen.specs.Draws.{next_state, drawn_at};

/// Numbers that are drawn one after another from a seed.
#[derive(Drop)]
pub(crate) struct Draws {
    state: u64,
}

impl Draws {
    pub(crate) fn new(seed: u64) -> Self
        ensures { result.state ≡ seed }
    {
        Draws { state: seed }
    }

    /// The next number, of 31 bits.
    #[tactic(auto, using(crate::proofs::DrawLemmas::wrapped_twice))]
    pub(crate) fn draw(&mut self) -> u64
        ensures state { self.new.state ≡ next_state self.old.state }
        ensures value { result ≡ drawn_at (next_state self.old.state) }
    {
        self.state = self
            .state
            .wrapping_mul(6_364_136_223_846_793_005)
            .wrapping_add(1_442_695_040_888_963_407);
        self.state >> 33
    }
}
