//! The codebooks by context (SMPTE RDD 36, the adaptation tables of scanned coefficients).

ghost use Rattle.std.specs.Prelude.{◌≡◌, IsTrue};
ghost use Rattle.pr_codes.specs.Words.{is_book};
ghost use Rattle.pr_coeff.specs.Component.{dc_book, run_book, level_book};

use pr_codes::Codebook;

/// A codebook by its three parameters.
const fn book(last: u8, rice: u8, exp: u8) -> Codebook
    ensures { result ≡ record { last = last; rice = rice; exp = exp } }
{
    Codebook { last, rice, exp }
}

/// The codebook of the first DC coefficient.
pub fn first_book() -> Codebook
    ensures value { result ≡ record { last = 0; rice = 5; exp = 6 } }
    ensures book { IsTrue (is_book result) }
{
    book(0, 5, 6)
}

/// The codebook of a DC difference, by the previous code.
#[tactic(auto, unfolding(crate::specs::Component::dc_book))]
pub fn book_of_difference(code: u32) -> Codebook
    ensures value { result ≡ dc_book code }
    ensures book { IsTrue (is_book result) }
{
    match code {
        0 => book(0, 0, 1),
        1..=2 => book(0, 1, 2),
        3..=4 => book(1, 2, 3),
        _ => book(0, 3, 4),
    }
}

/// The codebook of a run, by the previous run.
#[tactic(auto, unfolding(crate::specs::Component::run_book))]
pub fn book_of_run(run: u32) -> Codebook
    ensures value { result ≡ run_book run }
    ensures book { IsTrue (is_book result) }
{
    match run {
        0..=1 => book(2, 0, 1),
        2..=3 => book(1, 0, 1),
        4 => book(0, 0, 1),
        5..=8 => book(1, 1, 2),
        9..=14 => book(0, 1, 2),
        _ => book(0, 2, 3),
    }
}

/// The codebook of a level, by the previous magnitude.
#[tactic(auto, unfolding(crate::specs::Component::level_book))]
pub fn book_of_level(magnitude: u32) -> Codebook
    ensures value { result ≡ level_book magnitude }
    ensures book { IsTrue (is_book result) }
{
    match magnitude {
        0..=1 => book(2, 0, 2),
        2 => book(1, 0, 1),
        3 => book(2, 0, 1),
        4 => book(0, 0, 1),
        5..=8 => book(0, 1, 2),
        _ => book(0, 2, 3),
    }
}
