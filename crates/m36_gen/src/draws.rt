//! The numbers that a seed draws.

ghost use Rattle.std.specs.Prelude.{◌≡◌, ◌+◌, ◌*◌, ◌/◌, ◌%◌, ◌^◌, ◌<◌, ◌≤◌};
ghost use Rattle.m36_gen.specs.Draws.{next_state, draw_of, draws_from, state_after_draws};

/// The three numbers that are drawn for one program.
#[derive(Clone, Copy, Debug, PartialEq, Eq)]
pub struct Draws {
    /// What the loop adds in each round: below 1,000.
    pub add: u64,
    /// The number of rounds of the loop: 1 to 200.
    pub count: u64,
    /// The word of the data segment before the first one that the program stores: below 2^16.
    pub offset: u64,
}

/// A generator of draws.
#[derive(Drop)]
pub struct Sequence {
    state: u64,
}

// The state after one more draw.
#[tactic(auto, unfolding(crate::specs::Draws::next_state))]
fn next_state(state: u64) -> u64
    ensures { result ≡ next_state state }
{
    ((6_364_136_223_846_793_005 * state as u128 + 1_442_695_040_888_963_407) % (1 << 64)) as u64
}

impl Sequence {
    /// The generator of a seed.
    pub fn new(seed: u64) -> Sequence
        ensures { result.state ≡ seed }
    {
        Sequence { state: seed }
    }

    // The next draw: below 2^31.
    fn draw(&mut self) -> u64
        ensures state { self.new.state ≡ next_state self.old.state }
        ensures draw_of { result ≡ draw_of self.new.state }
    {
        self.state = next_state(self.state);
        self.state >> 33
    }

    /// Three draws, for one program.
    #[tactic(auto, unfolding(crate::specs::Draws::draws_from))]
    pub fn draws(&mut self) -> Draws
        ensures state { self.new.state ≡ state_after_draws self.old.state }
        ensures draws { result ≡ draws_from self.old.state }
    {
        let add = self.draw() % 1000;
        let count = 1 + self.draw() % 200;
        let offset = self.draw() % (1 << 16);
        Draws { add, count, offset }
    }
}
