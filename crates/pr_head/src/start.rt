//! The fields of a frame's first 28 bytes, and their faults.

ghost use Rattle.std.specs.Prelude.{◌≡◌, ◌+◌, ◌/◌, ◌%◌, ◌==◌, ◌<◌, ◌≤◌, length, OnOk, false};
ghost use Rattle.pw_outside.specs.Reading.{Answers};
ghost use Rattle.pr_geom.specs.Slices.{pictures_of};
ghost use Rattle.pr_head.specs.Faults.{told_fault, is_failed, is_out_of_memory};
ghost use Rattle.pr_head.specs.Header.{start_of, chroma_of, interlace_of, alpha_of, chroma_bits, interlace_bits, alpha_bits, loads_luma, loads_chroma, matrices_size, size_fault, form_fault, header_of, HasSizes, HasForm};

use crate::fault::{FrameFault, FrameKind, bad};
use crate::frame::FrameHeader;
use crate::pieces::{u16_at, u32_at};
use pw_planes::{AlphaKind, Chroma, Interlace, MAX_HEIGHT, MAX_WIDTH};

// `icpf`
const MARK: u32 = 0x6963_7066;

/// The fields of a frame's first 28 bytes.
#[derive(Clone, Copy)]
pub(crate) struct Start {
    pub(crate) size: u32,
    pub(crate) mark: u32,
    pub(crate) header: u16,
    pub(crate) version: u8,
    pub(crate) encoder: [u8; 4],
    pub(crate) width: u16,
    pub(crate) height: u16,
    pub(crate) forms: u8,
    pub(crate) rates: u8,
    pub(crate) primaries: u8,
    pub(crate) transfer: u8,
    pub(crate) matrix: u8,
    pub(crate) alpha: u8,
    pub(crate) loads: u8,
}

fn chroma(code: u8) -> Chroma
    ensures { result ≡ chroma_of code }
{
    if code == 2 {
        Chroma::C422
    } else {
        Chroma::C444
    }
}

fn interlace(code: u8) -> Interlace
    ensures { result ≡ interlace_of code }
{
    if code == 0 {
        Interlace::Progressive
    } else if code == 1 {
        Interlace::TopFirst
    } else {
        Interlace::BottomFirst
    }
}

fn alpha(code: u8) -> AlphaKind
    ensures { result ≡ alpha_of code }
{
    if code == 0 {
        AlphaKind::Absent
    } else if code == 1 {
        AlphaKind::Eight
    } else {
        AlphaKind::Sixteen
    }
}

/// The number of pictures of a frame.
fn pictures(interlace: Interlace) -> u16
    ensures { result ≡ pictures_of interlace }
{
    match interlace {
        Interlace::Progressive => 1,
        Interlace::TopFirst | Interlace::BottomFirst => 2,
    }
}

impl Start {
    pub(crate) fn of(bytes: &[u8; 28]) -> Start
        ensures { result ≡ start_of bytes.now }
    {
        Start {
            size: u32_at(bytes, 0),
            mark: u32_at(bytes, 4),
            header: u16_at(bytes, 8),
            version: bytes[11],
            encoder: [bytes[12], bytes[13], bytes[14], bytes[15]],
            width: u16_at(bytes, 16),
            height: u16_at(bytes, 18),
            forms: bytes[20],
            rates: bytes[21],
            primaries: bytes[22],
            transfer: bytes[23],
            matrix: bytes[24],
            alpha: bytes[25],
            loads: bytes[27],
        }
    }

    /// Whether a luma matrix is loaded.
    pub(crate) fn loads_luma(&self) -> bool
        ensures { result ≡ loads_luma self.now }
    {
        self.loads / 2 % 2 == 1
    }

    /// Whether a chroma matrix is loaded.
    pub(crate) fn loads_chroma(&self) -> bool
        ensures { result ≡ loads_chroma self.now }
    {
        self.loads % 2 == 1
    }

    /// The number of bytes of the matrices.
    pub(crate) fn matrices(&self) -> u16
        ensures value { result ≡ matrices_size self.now }
        ensures few { result ≤ 128 }
    {
        let luma = if self.loads_luma() { 64 } else { 0 };
        let chroma = if self.loads_chroma() { 64 } else { 0 };
        luma + chroma
    }

    /// The first fault of the mark and of the sizes, in a sample of `size` bytes.
    #[tactic(auto, unfolding(crate::specs::Header::size_fault, pw_outside::specs::Reading::bind))]
    pub(crate) fn judge_sizes(&self, size: u32) -> Result<(), FrameFault>
        ensures fault { Answers told_fault (λ x. x) result (size_fault size self.now) }
        ensures sizes { OnOk result (HasSizes size self.now) }
        ensures cause { is_failed result ≡ false }
        ensures memory { is_out_of_memory result ≡ false }
    {
        if self.mark != MARK {
            return Err(bad(FrameKind::NoIcpf, 4));
        }
        if self.size < 28 || size < self.size {
            return Err(bad(FrameKind::FrameSize, 0));
        }
        let header = u32::from(self.header);
        if header < 20 + u32::from(self.matrices()) || self.size < 8 + header {
            return Err(bad(FrameKind::HeaderSize, 8));
        }
        Ok(())
    }

    /// The first fault of the version and of the form.
    #[tactic(auto, unfolding(crate::specs::Header::form_fault, pw_outside::specs::Reading::bind))]
    pub(crate) fn judge_form(&self) -> Result<(), FrameFault>
        ensures fault { Answers told_fault (λ x. x) result (form_fault self.now) }
        ensures form { OnOk result (HasForm self.now) }
        ensures cause { is_failed result ≡ false }
        ensures memory { is_out_of_memory result ≡ false }
    {
        if 1 < self.version {
            return Err(bad(FrameKind::Version, 11));
        }
        if self.forms / 64 < 2 {
            return Err(bad(FrameKind::Chroma, 20));
        }
        let mode = self.forms / 4 % 4;
        if mode == 3 {
            return Err(bad(FrameKind::Interlace, 20));
        }
        if 2 < self.alpha % 16 {
            return Err(bad(FrameKind::AlphaType, 25));
        }
        if self.width == 0 || self.height == 0 {
            return Err(bad(FrameKind::SizeZero, 16));
        }
        if u32::from(self.width) > MAX_WIDTH || u32::from(self.height) > MAX_HEIGHT {
            return Err(bad(FrameKind::SizeLimit, 16));
        }
        if self.height % pictures(interlace(mode)) != 0 {
            return Err(bad(FrameKind::OddInterlaced, 16));
        }
        Ok(())
    }

    /// The header of these fields and matrices.
    pub(crate) fn header(&self, luma: [u8; 64], chroma_weights: [u8; 64]) -> FrameHeader
        ensures { result ≡ header_of self.now luma chroma_weights }
    {
        FrameHeader {
            version: self.version,
            encoder: self.encoder,
            width: self.width,
            height: self.height,
            chroma: chroma(self.forms / 64),
            interlace: interlace(self.forms / 4 % 4),
            aspect: self.rates / 16,
            rate: self.rates % 16,
            primaries: self.primaries,
            transfer: self.transfer,
            matrix: self.matrix,
            alpha: alpha(self.alpha % 16),
            luma,
            chroma_weights,
        }
    }
}
