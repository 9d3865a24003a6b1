// Sixteen bytes by value, read out of a slice, and bytes stored into one.
ghost use Rattle.std.specs.Prelude.{◌≡◌, ◌+◌, ◌≤◌, length};
ghost use Rattle.model.specs.State.{content_bytes, value_bytes};
ghost use Rattle.state.specs.Splice.{splice, part};

use model::CONTENT_BYTES;

// The sixteen bytes from place `at` on.
pub fn load(s: &[u8], at: usize) -> [u8; CONTENT_BYTES]
    requires { at + content_bytes ≤ length s.now }
    ensures { result ≡ part s.now at content_bytes }
{
    let mut out = [0u8; CONTENT_BYTES];
    out.copy_from_slice(&s[at..at + CONTENT_BYTES]);
    out
}

// Bytes go to the places from `at` on.
pub fn save(s: &mut [u8], at: usize, v: &[u8])
    requires { at + length v.now ≤ length s.old }
    ensures { s.new ≡ splice s.old at v.now }
{
    s[at..at + v.len()].copy_from_slice(v);
}

// The sixteen bytes of a value number: the number, then zeros.
pub fn value_bytes(v: u8) -> [u8; CONTENT_BYTES]
    ensures { result ≡ value_bytes v }
{
    let mut out = [0u8; CONTENT_BYTES];
    out[0] = v;
    out
}
