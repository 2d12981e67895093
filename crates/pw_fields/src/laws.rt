//! Laws over the definitions alone. The functions do nothing; their contracts are the laws.

ghost use Rattle.std.specs.Int.{w8, w16, w32, w64};
ghost use Rattle.pw_fields.specs.Numbers.{IsReadAgain};

/// std's `from_be_bytes` of a number's bytes is the number, and the bytes of the number that it reads are the
/// bytes: at one, two, four and eight bytes.
pub fn numbers_are_read_again()
    ensures one { IsReadAgain 1 w8 }
    ensures two { IsReadAgain 2 w16 }
    ensures four { IsReadAgain 4 w32 }
    ensures eight { IsReadAgain 8 w64 }
{}
