//! The weight matrices.

ghost use Rattle.std.specs.Prelude.{◌≡◌};
ghost use Rattle.pr_quant.specs.Steep.{steep_weights};

/// A weight matrix with a name.
#[derive(Clone, Copy, Debug, PartialEq, Eq)]
pub enum Matrix {
    /// 4 everywhere.
    Flat,
    /// 4, and one more for each row and each column.
    Steep,
}

/// The weights of a frame, in raster order. A frame that is read may have any, also 0; those of a
/// frame that is written are from 2 to 63.
#[derive(Clone, Copy, Debug, PartialEq, Eq)]
pub struct Weights {
    pub luma: [u8; 64],
    pub chroma: [u8; 64],
}

impl Weights {
    ghost use Rattle.pr_quant.specs.Matrices.{weights_of};

    /// The matrix of this name, for luma and for chroma. Its weights are from 2 to 63.
    pub fn named(name: Matrix) -> Weights
        ensures luma { result.luma ≡ weights_of name }
        ensures chroma { result.chroma ≡ weights_of name }
    {
        let weights = match name {
            Matrix::Flat => [4; 64],
            Matrix::Steep => steep(),
        };
        Weights {
            luma: weights,
            chroma: weights,
        }
    }
}

/// The matrix that grows by one for each row and each column.
fn steep() -> [u8; 64]
    ensures { result ≡ steep_weights }
{
    let mut weights = [0; 64];
    for place in 0..64 {
        weights[place] = (4 + place / 8 + place % 8) as u8;
    }
    weights
}
