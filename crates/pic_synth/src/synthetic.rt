//! The parameters of synthetic pictures, and their levels.

ghost use Rattle.std.specs.Prelude.{◌≡◌, ◌<◌, ◌≤◌};
ghost use Rattle.pic_synth.specs.Pictures.{luma_level, chroma_level};

/// The size and the number of synthetic pictures, and the seed of their noise.
#[derive(Clone, Copy, Debug, PartialEq, Eq)]
pub struct Synthetic {
    /// The width in samples, 1 to 8192.
    pub width: u16,
    /// The height in samples, 1 to 4320.
    pub height: u16,
    /// The number of pictures, up to 100.
    pub frames: u8,
    /// The initial state of the noise.
    pub seed: u32,
}

/// The luma level at a column and row of a frame.
fn luma_level(frame: u64, x: u64, y: u64) -> u16
    requires { (frame < 100) × (x < 8192) × (y < 4320) }
    ensures value { result ≡ luma_level frame x y }
    ensures small { result ≤ 736 }
{
    (256 + 32 * ((x / 16 + 3 * (y / 16) + frame) % 16)) as u16
}

/// The chroma level at a column and row of a chroma plane of a frame.
fn chroma_level(frame: u64, x: u64, y: u64) -> u16
    requires { (frame < 100) × (x < 8192) × (y < 4320) }
    ensures value { result ≡ chroma_level frame x y }
    ensures small { result ≤ 560 }
{
    (448 + 16 * ((x / 8 + y / 16 + frame) % 8)) as u16
}

impl Synthetic {
    ghost use Rattle.std.specs.Prelude.{◌≡◌, ◌<◌, ◌≤◌, ◌^◌};
    ghost use Rattle.pic_synth.specs.Pictures.{IsSynthetic, chroma_columns, luma_samples, chroma_samples, frame_samples};
    ghost use Rattle.pic_synth.specs.Numbered.{sample_count, level_of, chroma_level_at};

    /// The width of the chroma planes.
    fn chroma_columns(&self) -> u64
        ensures { result ≡ chroma_columns self.now }
    {
        (u64::from(self.width) + 1) / 2
    }

    /// The number of luma samples of a frame.
    fn luma_samples(&self) -> u64
        ensures { result ≡ luma_samples self.now }
    {
        u64::from(self.height) * u64::from(self.width)
    }

    /// The number of samples of each chroma plane of a frame.
    fn chroma_samples(&self) -> u64
        ensures { result ≡ chroma_samples self.now }
    {
        u64::from(self.height) * self.chroma_columns()
    }

    /// The number of samples of a frame.
    fn frame_samples(&self) -> u64
        requires limits { IsSynthetic self.now }
        ensures { result ≡ frame_samples self.now }
    {
        self.luma_samples() + (self.chroma_samples() + self.chroma_samples())
    }

    /// The number of samples of all frames.
    pub(crate) fn samples(&self) -> u64
        requires limits { IsSynthetic self.now }
        ensures value { result ≡ sample_count self.now }
        ensures few { result < 2 ^ 33 }
    {
        u64::from(self.frames) * self.frame_samples()
    }

    /// The level at index `number` of a chroma plane, in raster order.
    fn chroma_level_at(&self, frame: u64, number: u64) -> u16
        requires limits { IsSynthetic self.now }
        requires frame { frame < 100 }
        requires number { number < chroma_samples self.now }
        ensures value { result ≡ chroma_level_at self.now frame number }
        ensures small { result ≤ 560 }
    {
        let columns = self.chroma_columns();
        chroma_level(frame, number % columns, number / columns)
    }

    /// The level of sample `number`.
    pub(crate) fn level(&self, number: u64) -> u16
        requires limits { IsSynthetic self.now }
        requires number { number < sample_count self.now }
        ensures value { result ≡ level_of self.now number }
        ensures small { result ≤ 736 }
    {
        let frame = number / self.frame_samples();
        let within = number % self.frame_samples();
        let luma = self.luma_samples();
        if within < luma {
            let columns = u64::from(self.width);
            luma_level(frame, within % columns, within / columns)
        } else {
            self.chroma_level_at(frame, (within - luma) % self.chroma_samples())
        }
    }
}
