//! The generator of numbers, and what is drawn by it.
ghost use Rattle.std.specs.Prelude.{◌≡◌, ℕ, ◌<◌};
ghost use Rattle.hs_stream.specs.Drawing.{stepped, drawn, after, first_of, letter, letters, byte, piece_length};

/// How many numbers the generator has.
const NUMBERS: u64 = 2_147_483_648;

/// A generator of numbers: the multiplier and the addend of the C standard's example.
#[derive(Clone, Copy, Debug)]
pub struct Generator {
    number: u32,
}

impl Generator {
    /// The generator of a seed.
    ///
    /// # Examples
    ///
    /// ```
    /// let mut generator = Generator::new(1);
    /// let below_six = generator.draw(6);
    /// ```
    pub fn new(seed: u32) -> Self
        ensures { result.number ≡ first_of seed }
    {
        Generator {
            number: seed % NUMBERS as u32,
        }
    }

    /// A number below the bound: the higher 15 of the next number's 31 bits, divided by it.
    ///
    /// # Cost
    ///
    /// A multiplication and two divisions.
    pub fn draw(&mut self, bound: u32) -> u32
        requires { 0 < bound }
        ensures value { result ≡ drawn bound self.old.number }
        ensures next { self.new.number ≡ stepped self.old.number }
    {
        let next = (1_103_515_245 * u64::from(self.number) + 12_345) % NUMBERS;
        self.number = next as u32;
        self.number / 65_536 % bound
    }

    /// A letter `a` to `f`.
    fn letter(&mut self) -> u8
        ensures value { result ≡ letter self.old.number }
        ensures next { self.new.number ≡ stepped self.old.number }
    {
        b'a' + self.draw(6) as u8
    }

    /// Three letters.
    pub(crate) fn letters(&mut self) -> [u8; 3]
        ensures value { result ≡ letters self.old.number }
        ensures next { self.new.number ≡ after 3 self.old.number }
    {
        [self.letter(), self.letter(), self.letter()]
    }

    /// A byte of a stream: `a` to `f`, a line feed, a space, `0` or `1`.
    pub(crate) fn byte(&mut self) -> u8
        ensures value { result ≡ byte (drawn 10 self.old.number) }
        ensures next { self.new.number ≡ stepped self.old.number }
    {
        byte_of(self.draw(10))
    }

    /// The length of a piece of a run.
    pub(crate) fn piece_length(&mut self) -> usize
        ensures value { result ≡ piece_length self.old.number }
        ensures next { self.new.number ≡ stepped self.old.number }
    {
        1 + self.draw(97) as usize
    }
}

/// The byte of a draw below 10.
fn byte_of(draw: u32) -> u8
    requires { draw < 10 }
    ensures { result ≡ byte draw }
{
    match draw {
        6 => b'\n',
        7 => b' ',
        8 => b'0',
        9 => b'1',
        _ => b'a' + draw as u8,
    }
}
