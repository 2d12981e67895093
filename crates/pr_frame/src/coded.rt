//! Frames as they are coded: quantised values in blocks, slices and pictures.

use pr_coeff::Block;
use pr_head::FrameHeader;
use std::marker::Model;

/// The blocks of a component of a slice, macroblock by macroblock from the left.
#[derive(Drop)]
pub struct Blocks {
    blocks: Vec<Block>,
}

impl Model for Blocks {
    ghost use Rattle.std.specs.Prelude.{List, ℤ};

    ghost Value = { List (List ℤ) };

    ghost view = { λ b. b.blocks.items };
}

impl Blocks {
    ghost use Rattle.std.specs.Prelude.{◌≡◌};

    /// These blocks.
    pub fn from_vec(blocks: Vec<Block>) -> Blocks
        ensures { result ≡ blocks.items }
    {
        Blocks { blocks }
    }

    /// The blocks, in order.
    pub fn as_slice(&self) -> &[Block]
        ensures { result.now ≡ self.now }
    {
        self.blocks.as_slice()
    }

    /// The blocks, in the vector that holds them.
    pub fn into_vec(self) -> Vec<Block>
        ensures { result.items ≡ self }
    {
        self.blocks
    }
}

/// The alpha values of a slice, row by row.
#[derive(Drop)]
pub struct AlphaValues {
    values: Vec<u16>,
}

impl Model for AlphaValues {
    ghost use Rattle.std.specs.Prelude.{List, ℕ};

    ghost Value = { List ℕ };

    ghost view = { λ a. a.values.items };
}

impl AlphaValues {
    ghost use Rattle.std.specs.Prelude.{◌≡◌};

    /// These values.
    pub fn from_vec(values: Vec<u16>) -> AlphaValues
        ensures { result ≡ values.items }
    {
        AlphaValues { values }
    }

    /// The values, in order.
    pub fn as_slice(&self) -> &[u16]
        ensures { result.now ≡ self.now }
    {
        self.values.as_slice()
    }

    /// The values, in the vector that holds them.
    pub fn into_vec(self) -> Vec<u16>
        ensures { result.items ≡ self }
    {
        self.values
    }
}

/// A slice (SMPTE RDD 36, slice): the quantisation index and the quantised values of its components. The layout
/// gives the number of blocks of each component and the number of alpha values.
#[derive(Drop)]
pub struct CodedSlice {
    /// The quantisation index, from 1 to 224.
    pub index: u8,
    /// Luma, 1 to 32 blocks.
    pub y: Blocks,
    /// The first component of chroma, 1 to 32 blocks.
    pub cb: Blocks,
    /// The second component of chroma, with as many blocks as the first.
    pub cr: Blocks,
    /// The alpha values; none where the frame has no alpha.
    pub alpha: AlphaValues,
}

/// The slices of a picture, row by row of macroblocks, each row from the left.
#[derive(Drop)]
pub struct CodedSlices {
    slices: Vec<CodedSlice>,
}

impl Model for CodedSlices {
    ghost use Rattle.std.specs.Prelude.{List};
    ghost use Rattle.pr_frame.specs.declared.coded.CodedSlice.{CodedSlice};

    ghost Value = { List CodedSlice };

    ghost view = { λ s. s.slices.items };
}

impl CodedSlices {
    ghost use Rattle.std.specs.Prelude.{◌≡◌};

    /// These slices.
    pub fn from_vec(slices: Vec<CodedSlice>) -> CodedSlices
        ensures { result ≡ slices.items }
    {
        CodedSlices { slices }
    }

    /// The slices, in order.
    pub fn as_slice(&self) -> &[CodedSlice]
        ensures { result.now ≡ self.now }
    {
        self.slices.as_slice()
    }

    /// The slices, in the vector that holds them.
    pub fn into_vec(self) -> Vec<CodedSlice>
        ensures { result.items ≡ self }
    {
        self.slices
    }
}

/// A picture: a progressive frame, or a field of an interlaced one.
#[derive(Drop)]
pub struct CodedPicture {
    /// The binary logarithm of the desired width of a slice in macroblocks, from 0 to 3.
    pub log2: u8,
    /// The slices of its layout, from 1 to `pr_geom::MAX_SLICES`.
    pub slices: CodedSlices,
}

/// The pictures of a frame: one, or the two fields in the order of time.
#[derive(Drop)]
pub struct CodedPictures {
    pictures: Vec<CodedPicture>,
}

impl Model for CodedPictures {
    ghost use Rattle.std.specs.Prelude.{List};
    ghost use Rattle.pr_frame.specs.declared.coded.CodedPicture.{CodedPicture};

    ghost Value = { List CodedPicture };

    ghost view = { λ p. p.pictures.items };
}

impl CodedPictures {
    ghost use Rattle.std.specs.Prelude.{◌≡◌};

    /// These pictures.
    pub fn from_vec(pictures: Vec<CodedPicture>) -> CodedPictures
        ensures { result ≡ pictures.items }
    {
        CodedPictures { pictures }
    }

    /// The pictures, in order.
    pub fn as_slice(&self) -> &[CodedPicture]
        ensures { result.now ≡ self.now }
    {
        self.pictures.as_slice()
    }

    /// The pictures, in the vector that holds them.
    pub fn into_vec(self) -> Vec<CodedPicture>
        ensures { result.items ≡ self }
    {
        self.pictures
    }
}

/// A frame as it is coded: its header, and the quantised values of its pictures.
#[derive(Drop)]
pub struct CodedFrame {
    /// The header.
    pub header: FrameHeader,
    /// One picture where the frame is progressive, and two where it is interlaced.
    pub pictures: CodedPictures,
}
