ghost use Rattle.std.specs.Prelude.{◌≡◌, ◌<◌, ◌↔◌, IsTrue};
ghost use Rattle.std.specs.Int.{bit_at};

// Whether the bit of a word that stands for a number is set.
pub(crate) fn is_set(word: u64, n: u8) -> bool
    requires { n < 64 }
    ensures { IsTrue result ↔ (bit_at word n ≡ 1) }
{
    (word >> n) & 1 == 1
}
