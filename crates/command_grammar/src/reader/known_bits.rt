//! Bits that are known before they come: those of a check number, and those that are always 0.
ghost use Rattle.std.specs.Prelude.{◌≡◌, ◌≤◌, ◌∷◌, IsTrue, IsFalse};
ghost use Rattle.command_grammar.specs.reading.KnownBits.{known_bits, next_bit};

/// The bits of a number that is known, of which some were read.
#[derive(Clone, Copy)]
pub(crate) struct KnownBits {
    /// How many bits come behind the next one.
    pub(crate) behind: u32,
    pub(crate) value: u32,
}

impl KnownBits {
    /// The next bit.
    pub(crate) fn next(&self) -> bool
        requires { self.now.behind ≤ 15 }
        ensures { result ≡ next_bit self.now }
    {
        (self.value >> self.behind) % 2 == 1
    }

    /// Takes the next bit where it isn't the last one and doesn't differ, and gives whether it did.
    pub(crate) fn take_inside(&mut self, bit: bool) -> bool
        requires { self.old.behind ≤ 15 }
        ensures reads { IsTrue result → known_bits self.old ≡ bit ∷ known_bits self.new }
        ensures few { self.new.behind ≤ self.old.behind }
        ensures last { IsFalse result → bit ≡ next_bit self.old → self.old.behind ≡ 0 }
        ensures same { IsFalse result → self.new ≡ self.old }
    {
        if self.behind == 0 {
            return false;
        }
        if bit != self.next() {
            return false;
        }
        self.behind -= 1;
        true
    }
}
