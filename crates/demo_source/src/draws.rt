//! Numbers drawn one after another from a seed.

ghost use Rattle.std.specs.Prelude.{◌≡◌, ◌<◌, ◌==◌};
ghost use Rattle.demo_source.specs.Drawing.{next_state, drawn};

const MULTIPLIER: u64 = 1_103_515_245;

const INCREMENT: u64 = 12_345;

const MODULUS: u64 = 1 << 31;

/// What is below this in a state counts for no draw.
const SCALE: u32 = 1 << 16;

/// The state of the drawing.
#[derive(Drop)]
pub struct Draws {
    pub state: u32,
}

impl Draws {
    /// A number below `bound`. Takes no memory.
    pub fn draw(&mut self, bound: u32) -> u32
        requires { 0 < bound }
        ensures value { result ≡ drawn self.old.state bound }
        ensures below { result < bound }
        ensures moved { self.new.state ≡ next_state self.old.state }
    {
        let next = (MULTIPLIER * u64::from(self.state) + INCREMENT) % MODULUS;
        self.state = next as u32;
        self.state / SCALE % bound
    }

    /// A truth value. Takes no memory.
    pub fn coin(&mut self) -> bool
        ensures value { result ≡ (drawn self.old.state 2 == 1) }
        ensures moved { self.new.state ≡ next_state self.old.state }
    {
        self.draw(2) == 1
    }
}
