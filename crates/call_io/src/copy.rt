// Copies between a list of bytes and a buffer, as far as both go.
ghost use Rattle.std.specs.Prelude.{◌≡◌, ℕ, ◌+◌, ◌-◌, ◌≤◌, ◌++◌, length, take, drop, min};

/// Copies the front of `bytes`, at most `most` of them, to the front of `into`.
pub fn give(bytes: &[u8], most: usize, into: &mut [u8]) -> usize
    ensures count { result ≡ min most (min (length into.old) (length bytes.now)) }
    ensures given { take result into.new ≡ take result bytes.now }
    ensures rest { bytes.now ≡ take result into.new ++ drop result bytes.now }
{
    let n = most.min(into.len()).min(bytes.len());
    into[..n].copy_from_slice(&bytes[..n]);
    n
}

/// Copies the front of `piece` behind the first `used` bytes, as far as there is room.
pub fn put(bytes: &mut [u8], used: usize, piece: &[u8]) -> usize
    requires { used ≤ length bytes.old }
    ensures count { result ≡ min (length piece.now) (length bytes.old - used) }
    ensures behind { take (used + result) bytes.new ≡ take used bytes.old ++ take result piece.now }
{
    let n = piece.len().min(bytes.len() - used);
    bytes[used..used + n].copy_from_slice(&piece[..n]);
    n
}
