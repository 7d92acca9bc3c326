//! How a source in memory gives its next bytes.
ghost use Rattle.std.specs.Prelude.{◌≡◌, ◌<◌, ◌≤◌, [], length, min, take, drop};

/// Copies the next bytes to the front of `buf`, as many as `piece` and `buf` let through.
pub fn serve(rest: &[u8], piece: usize, buf: &mut [u8]) -> usize
    requires { 0 < piece }
    ensures count { result ≡ min (length rest.now) (min piece (length buf.old)) }
    ensures bound { result ≤ length buf.new }
    ensures within { result ≤ length rest.now }
    ensures bytes { take result buf.new ≡ take result rest.now }
    ensures end { result ≡ 0 → 0 < length buf.new → rest.now ≡ [] }
    ensures behind { drop result buf.new ≡ drop result buf.old }
{
    let count = rest.len().min(piece.min(buf.len()));
    buf[..count].copy_from_slice(&rest[..count]);
    count
}
