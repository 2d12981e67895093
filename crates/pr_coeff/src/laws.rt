//! Laws of components. The functions do nothing; their contracts are the laws.

ghost use Rattle.std.specs.Prelude.{◌≡◌, ◌↔◌, ◌⊎◌, ℕ, ◌*◌, ◌<◌, ◌≤◌, Bool, List, [], length, get_or, Ok, Err, ℤ, pos, nat_abs};
ghost use Rattle.pr_coeff.specs.Component.{Block, IsScan, Stands, places, component};
ghost use Rattle.pr_coeff.specs.Reading.{Fault, component_at};
ghost use Rattle.pr_coeff.specs.declared.scan.Scan.{Scan};
ghost use Rattle.pr_coeff.specs.Known.{KnownAtFirst, KnownBehindZero, KnownBehindValue, KnownAtLast, ComponentHasBytes};
ghost use Rattle.pr_coeff.specs.Lengths.{ClassesNameBooks};
ghost use Rattle.pr_coeff.specs.Triples.{HaveOneListOfTriples, StandsAreTriples, ComponentIsOfTriples, CoefficientsAreShort};

/// Both scans visit each position once.
pub fn scans_have_each_place()
    ensures { (scan : Scan) → IsScan (places scan) }
{}

/// Bits stand for blocks exactly where these blocks are read from them.
pub fn component_is_read()
    ensures { (scan : Scan) (l : List Bool) (blocks : List Block) (count : ℕ) → 0 < count → count ≤ 32 →
        (component_at count (places scan) l ≡ Ok blocks) ↔ ((length blocks ≡ count) × Stands l blocks (places scan)) }
{}

/// Bits stand for exactly one list of n blocks, or have a fault, and never both.
pub fn one_list_or_fault()
    ensures one { (scan : Scan) (l : List Bool) (a b : List Block) → 0 < length a → length a ≤ 32 → length b ≡ length a →
        Stands l a (places scan) → Stands l b (places scan) → a ≡ b }
    ensures some { (scan : Scan) (l : List Bool) (count : ℕ) → 0 < count → count ≤ 32 →
        ((blocks : List Block) × (length blocks ≡ count) × Stands l blocks (places scan)) ⊎ ((fault : Fault) × (component_at count (places scan) l ≡ Err fault)) }
    ensures not_both { (scan : Scan) (l : List Bool) (a : List Block) (fault : Fault) → length a ≤ 32 →
        Stands l a (places scan) → component_at (length a) (places scan) l ≡ Err fault → ⊥ }
{}

/// Coefficients of magnitude at most 8,191 cost fewer than 57 bits each, including the zeros that fill the last
/// byte.
pub fn components_are_short()
    ensures { (scan : Scan) (blocks : List Block) → 0 < length blocks → length blocks ≤ 32 →
        ((i place : ℕ) → nat_abs (get_or (get_or blocks i []) place (pos 0)) ≤ 8191) →
        8 * length (component (places scan) blocks) < 57 * (64 * length blocks) }
{}

/// Every list of coefficients is written as exactly one list of triples of a run, a level and a sign.
pub fn one_list_of_triples()
    ensures { (vs : List ℤ) → HaveOneListOfTriples vs }
{}

/// The codewords of a component are those of its DC coefficients' codes and of the triples of its other
/// coefficients, each in the codebook that the previous code, run or magnitude selects.
pub fn components_are_of_triples()
    ensures stands { StandsAreTriples }
    ensures written { ComponentIsOfTriples }
{}

/// Each coefficient of magnitude at most 8,191 costs fewer than 57 bits.
pub fn coefficients_are_short()
    ensures { CoefficientsAreShort }
{}

/// The class of a run, or of a magnitude, alone selects the next codebook.
pub fn classes_name_books()
    ensures { ClassesNameBooks }
{}

/// The bits of codewords are counted coefficient by coefficient. The state is the number of zeros since the last
/// nonzero coefficient, and the classes of the run and the magnitude before them.
pub fn bits_are_counted()
    ensures first { KnownAtFirst }
    ensures zero { KnownBehindZero }
    ensures value { KnownBehindValue }
    ensures last { KnownAtLast }
    ensures bytes { ComponentHasBytes }
{}
