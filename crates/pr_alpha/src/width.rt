//! Numbers that depend on the bit depth of a value.

ghost use Rattle.std.specs.Prelude.{◌≡◌, ◌^◌, ◌<◌, ◌≤◌, IsTrue};
ghost use Rattle.pr_alpha.specs.Alpha.{is_width, short_size, greatest};

/// The number of bits of a short difference's magnitude.
pub(crate) fn size_of_short(bits: u8) -> u8
    requires { IsTrue (is_width bits) }
    ensures size { result ≡ short_size bits }
    ensures small { result ≤ 6 }
{
    if bits == 8 { 3 } else { 6 }
}

/// The greatest value.
pub(crate) fn greatest_value(bits: u8) -> u16
    requires { IsTrue (is_width bits) }
    ensures value { result ≡ greatest bits }
    ensures below { result < 2 ^ bits }
{
    if bits == 8 { 255 } else { 65535 }
}
