//! Texts with a room of their own, which take no memory.
ghost use Rattle.std.specs.Prelude.{◌≡◌, ◌+◌, ◌≤◌, ◌++◌, length};

use arrayvec::ArrayVec;

/// Adds bytes to a text that has room for them.
pub fn push_bytes<const N: usize>(text: &mut ArrayVec<u8, N>, more: &[u8])
    requires { length text.old.items + length more.now ≤ N }
    ensures bytes { text.new.items ≡ text.old.items ++ more.now }
    ensures count { length text.new.items ≡ length text.old.items + length more.now }
{
    // There is room.
    let _ = text.try_extend_from_slice(more);
}
