//! The dice of the long tests, and one number for all that they answer. Models elsewhere roll and sum in the same way.
#![tactic(auto)]

ghost use Rattle.std.specs.Prelude.{◌≡◌};
ghost use Rattle.rolls.specs.Rolls.{next_state, roll_of, sum_with, sum_with_all};

/// A linear congruential generator, with the constants of "Numerical Recipes".
#[derive(Drop)]
pub struct Dice {
    pub state: u32,
}

impl Dice {
    /// The next roll, below 65,536: the upper half of the next state.
    pub fn roll(&mut self) -> u32
        ensures state { self.new.state ≡ next_state self.old.state }
        ensures value { result ≡ roll_of self.new.state }
    {
        self.state = self
            .state
            .wrapping_mul(1_664_525)
            .wrapping_add(1_013_904_223);
        self.state >> 16
    }
}

fn sum_with(sum: usize, number: usize) -> usize
    ensures { result ≡ sum_with sum number }
{
    sum.wrapping_mul(1_099_511_628_211).wrapping_add(number)
}

fn sum_with_byte(sum: usize, byte: u8) -> usize
    ensures { result ≡ sum_with sum byte }
{
    sum_with(sum, usize::from(byte))
}

/// One number for many, which depends on each of them and on their order. It multiplies by the prime of 64-bit FNV.
#[derive(Drop)]
pub struct Sum {
    pub value: usize,
}

impl Sum {
    /// Takes one more number in.
    pub fn add(&mut self, number: usize)
        ensures { self.new.value ≡ sum_with self.old.value number }
    {
        self.value = sum_with(self.value, number);
    }

    /// Takes these bytes in, one number each.
    pub fn add_all(&mut self, bytes: &[u8])
        ensures { self.new.value ≡ sum_with_all self.old.value bytes.now }
    {
        self.value = bytes.iter().copied().fold(self.value, sum_with_byte);
    }
}
