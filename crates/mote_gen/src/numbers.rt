//! The numbers of a seed, one after the other.
ghost use Rattle.std.specs.Prelude.{◌≡◌, ◌<◌};
ghost use Rattle.mote_gen.specs.Numbers.{behind, draw, next};

/// The factor and the summand of the congruence by which a number follows another.
const FACTOR: u64 = 1_664_525;

const SUMMAND: u64 = 1_013_904_223;

/// The numbers have 32 bits.
const MODULUS: u64 = 1 << 32;

/// The number that came last, which is the seed before any other.
#[derive(Drop)]
pub struct Numbers {
    pub last: u32,
}

#[tactic(auto, unfolding(crate::specs::Numbers::next))]
fn next(number: u32) -> u32
    ensures { result ≡ next number }
{
    ((FACTOR * u64::from(number) + SUMMAND) % MODULUS) as u32
}

impl Numbers {
    /// Draws below a bound, from the upper half of the next number: its lower bits repeat after few numbers.
    #[tactic(auto, unfolding(crate::specs::Numbers::number))]
    pub fn draw(&mut self, bound: u16) -> u16
        requires { 0 < bound }
        ensures last { self.new.last ≡ next self.old.last }
        ensures drawn { result ≡ draw (behind self.old.last) 0 bound }
        ensures below { result < bound }
    {
        self.last = next(self.last);
        ((self.last >> 16) % u32::from(bound)) as u16
    }
}
