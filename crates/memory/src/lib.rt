// Copies of lent bytes. The definitions and laws of words in bytes stand here too, for every width, and those of parts and sums of lists.
#![tactic(auto)]

ghost use Rattle.std.specs.Prelude.{◌≡◌, ◌++◌, ◌+◌, ◌≤◌, length, drop, take};

// `src` into `dst` from place `at` on; the rest of `dst` stays.
pub fn copy_at(dst: &mut [u8], at: usize, src: &[u8])
    requires { at + length src.now ≤ length dst.old }
    ensures { dst.new ≡ take at dst.old ++ src.now ++ drop (at + length src.now) dst.old }
{
    for i in 0..src.len() {
        dst[at + i] = src[i];
    }
}
