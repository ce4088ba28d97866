// Numbers drawn from a seed.
ghost use Rattle.std.specs.Prelude.{◌≡◌, ◌<◌, ◌≤◌};
ghost use Rattle.sample_maker.specs.Draws.{next_state, number_from};

const FACTOR: u128 = 6_364_136_223_846_793_005;

const TERM: u128 = 1_442_695_040_888_963_407;

/// Draws, each from the state that the one before left.
#[derive(Drop)]
pub(crate) struct Draws {
    pub(crate) state: u64,
}

impl Draws {
    /// A number below `most`.
    #[tactic(auto, unfolding(crate::specs::Draws::next_state, crate::specs::Draws::number_from))]
    pub(crate) fn draw(&mut self, most: u32) -> u32
        requires { 1 ≤ most }
        ensures state { self.new.state ≡ next_state self.old.state }
        ensures value { result ≡ number_from self.new.state most }
        ensures below { result < most }
    {
        self.state = ((u128::from(self.state) * FACTOR + TERM) % (1 << 64)) as u64;
        (self.state / (1 << 33) % u64::from(most)) as u32
    }
}
