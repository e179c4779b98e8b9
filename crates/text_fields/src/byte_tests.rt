//! Whether each byte of a field passes a test.
ghost use Rattle.std.specs.Prelude.{◌≡◌, ◌↔◌, ℕ, Bool, IsTrue};
ghost use Rattle.std.specs.List.{AllPass};

/// A test of bytes.
pub(crate) trait ByteTest {
    /// Whether a byte passes.
    ghost test: { ℕ → Bool };

    /// Whether a byte passes.
    fn passes(byte: u8) -> bool
        ensures { result ≡ test byte };
}

/// Whether each byte passes the test.
#[tactic(auto, using(crate::proofs::EachByte::each_byte))]
pub(crate) fn all_pass<T: ByteTest>(bytes: &[u8]) -> bool
    ensures { IsTrue result ↔ AllPass T.test bytes.now }
{
    // The loop goes on to the end, so that the compiler can look at many bytes at once.
    let mut pass = true;
    for byte in bytes {
        pass &= T::passes(*byte);
    }
    pass
}
