// Whether two stretches of bytes are the same.
#![tactic(auto)]

ghost use Rattle.std.specs.Prelude.{◌≡◌};
ghost use Rattle.hmac.specs.Calls.{same};

// Where the lengths agree every byte is looked at: the bits in which bytes differ are gathered, and tested once.
pub fn same(a: &[u8], b: &[u8]) -> bool
    ensures { result ≡ same a.now b.now }
{
    if a.len() != b.len() {
        return false;
    }
    a.iter().zip(b).fold(0, |bits, (x, y)| bits | (x ^ y)) == 0
}
