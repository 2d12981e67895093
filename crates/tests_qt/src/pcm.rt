//! WAVs read and copied, and the sound of a movie taken out.

ghost use Rattle.std.specs.Prelude.{◌≤◌};

use pcm_track::*;
use pw_outside::{MemSink, MemSource, MemStore};
use std::test::Fail;

/// A WAV of one channel, 50 frames a second, with four frames.
const WAV: &[u8; 52] =
    b"RIFF\x2c\0\0\0WAVEfmt \x10\0\0\0\x01\0\x01\0\x32\0\0\0\x64\0\0\0\x02\0\x10\0data\x08\0\0\0\x01\x02\x03\x04\x05\x06\x07\x08";

/// A movie of an independent reference, in hexadecimal, with 1 frame of sound.
const MOVIE: &str = "\
    0000001466747970717420200000000071742020\
    000001846d6461740000017c696370660094000070776b300008000488000202020000030405060708090a0b05060708090a0b0c060708090a\
    0b0c0d0708090a0b0c0d0e08090a0b0c0d0e0f090a0b0c0d0e0f100a0b0c0d0e0f10110b0c0d0e0f1011120405060708090a0b05060708090a\
    0b0c060708090a0b0c0d0708090a0b0c0d0e08090a0b0c0d0e0f090a0b0c0d0e0f100a0b0c0d0e0f10110b0c0d0e0f10111240000000610001\
    3000573002002f001202beca09c8d222d26e1a2448d19111c4135768b1f7891228785c4e1b3a3b849325ad7891c78fed836e38f1e70f84e01e\
    d9c8cbb5981070b825cc078e0b976394160238a73bb0b76c550371d51155b026a0400000007f00013000753001004700130162708808f0979a\
    490fd11d8114ca94c718214d558420489810c361c38d59b98c40f58248d44c2c1767ca627a5d7161404d35990687a6c246637333238e38e346\
    cf38e38e38e00e7e1bb049e2f1177e30a60101c173fd81350001180861890027259132730a60101c1708a4092880\
    0000000a6d646174336c\
    000003f26d6f6f76\
    0000006c6d76686400000000000000000000000000007530000003e90001000001000000000000000000000000010000000000000000000000\
    000000000100000000000000000000000000004000000000000000000000000000000000000000000000000000000000000003\
    000001dc7472616b\
    0000005c746b68640000000f00000000000000000000000100000000000003e900000000000000000000000000000000000100000000000000\
    0000000000000000010000000000000000000000000000400000000008000000040000\
    000001786d646961\
    000000206d64686400000000000000000000000000007530000003e900000000\
    0000002168646c72000000006d686c727669646500000000000000000000000000\
    0000012f6d696e66\
    00000014766d6864000000010000000000000000\
    0000002168646c720000000064686c72616c697300000000000000000000000000\
    0000002464696e66\
    0000001c6472656600000000000000010000000c616c697300000001\
    000000ce7374626c\
    00000066737473640000000000000001000000566170636800000000000000010000000070776b300000000000000000000800040048000000\
    48000000000000000100000000000000000000000000000000000000000000000000000000000000000018ffff\
    0000001873747473000000000000000100000001000003e9\
    0000001c737473630000000000000001000000010000000100000001\
    000000187374737a0000000000000000000000010000017c\
    000000147374636f00000000000000010000001c\
    000001a27472616b\
    0000005c746b68640000000f000000000000000000000002000000000000000000000000000000000000000001000000000100000000000000\
    0000000000000000010000000000000000000000000000400000000000000000000000\
    0000013e6d646961\
    000000206d6468640000000000000000000000000000ffff0000000100000000\
    0000002168646c72000000006d686c72736f756e00000000000000000000000000\
    000000f56d696e66\
    00000010736d68640000000000000000\
    0000002168646c720000000064686c72616c697300000000000000000000000000\
    0000002464696e66\
    0000001c6472656600000000000000010000000c616c697300000001\
    000000987374626c\
    0000003473747364000000000000000100000024736f7774000000000000000100000000000000000001001000000000ffff0000\
    000000187374747300000000000000010000000100000001\
    0000001c737473630000000000000001000000010000000100000001\
    000000147374737a000000000000000200000001\
    000000147374636f0000000000000001000001a0";

/// What is taken out of it: the head of a WAV and a frame.
const TAKEN: &[u8] =
    b"RIFF&\x00\x00\x00WAVEfmt \x10\x00\x00\x00\x01\x00\x01\x00\xff\xff\x00\x00\xfe\xff\x01\x00\x02\x00\x10\x00data\x02\x00\x00\x003l";

/// What reading a file as a WAV and copying all of its sound gives: its form, or the fault; and what was copied.
fn copied(
    rt: &HostRuntime,
    file: &[u8],
    step: usize,
) -> Result<(Result<Pcm, CopyFault>, Vec<u8>), Fail>
    requires { 1 ≤ step }
{
    let alloc = rt.alloc();
    let mut source = MemSource::new(file.to_vec(alloc)?, step, Vec::new(alloc));
    let mut sink = MemSink::new(alloc, 64, step, Vec::new(alloc))?;
    let mut reader = match WavReader::start(&mut source) {
        Ok(reader) => reader,
        Err(fault) => return Ok((Err(CopyFault::Sound(fault)), Vec::new(alloc))),
    };
    let form = reader.form();
    let answer = match reader.copy(&mut source, &mut sink, form.frames) {
        Ok(()) => Ok(form),
        Err(fault) => Err(fault),
    };
    Ok((answer, sink.bytes().to_vec(alloc)?))
}

/// The worked WAV with another byte at a place, cut to so many bytes.
fn changed(rt: &HostRuntime, place: usize, byte: u8, length: usize) -> Result<Vec<u8>, Fail> {
    let mut file = Vec::new(rt.alloc());
    for (k, old) in WAV.iter().enumerate() {
        if k < length {
            file.push(if k == place { byte } else { *old })?;
        }
    }
    Ok(file)
}

#[test]
fn a_wav_is_read_and_copied(rt: HostRuntime) -> Result<(), Fail> {
    let (answer, sound) = copied(&rt, WAV, 3)?;
    let form = Pcm {
        channels: 1,
        rate: 50,
        frames: 4,
    };
    assert_eq!(rt; answer, Ok(form));
    assert!(rt; sound.as_slice() == b"\x01\x02\x03\x04\x05\x06\x07\x08".as_slice());
    Ok(())
}

#[test]
fn the_first_fault_of_a_wav(rt: HostRuntime) -> Result<(), Fail> {
    // The place and the new byte, the length, and the fault with its place.
    let cases = [
        (0, b'R', 51, SoundKind::Truncated, 51),
        (0, b'R', 43, SoundKind::Truncated, 43),
        (0, b'R', 3, SoundKind::Truncated, 3),
        (0, b'S', 52, SoundKind::Magic, 0),
        (8, b'X', 52, SoundKind::Magic, 8),
        (20, 3, 52, SoundKind::Form, 12),
        (22, 3, 52, SoundKind::Form, 12),
        (26, 1, 52, SoundKind::Form, 12),
        (32, 4, 52, SoundKind::Form, 12),
        (34, 8, 52, SoundKind::Form, 12),
        (40, 7, 52, SoundKind::Form, 36),
    ];
    for (place, byte, length, kind, at) in cases {
        let file = changed(&rt, place, byte, length)?;
        let (answer, _) = copied(&rt, &file, 4096)?;
        let fault = CopyFault::Sound(SoundFault::Bad { kind, place: at });
        assert_eq!(rt; answer, Err(fault), "byte {byte} at {place}, of {length}");
    }
    Ok(())
}

fn digit_of(byte: u8) -> u8 {
    match byte {
        b'0'..=b'9' => byte - b'0',
        b'a'..=b'f' => byte - b'a' + 10,
        _ => 0,
    }
}

#[test]
fn the_sound_of_a_movie(rt: HostRuntime) -> Result<(), Fail> {
    let alloc = rt.alloc();
    let mut file = Vec::new(alloc);
    for pair in MOVIE.as_bytes().chunks_exact(2) {
        file.push(digit_of(pair[0]).wrapping_mul(16) | digit_of(pair[1]))?;
    }
    let mut movie = MemStore::new(file, 4096, Vec::new(alloc));
    let mut out = MemSink::new(alloc, 4096, 4096, Vec::new(alloc))?;
    let mut text = MemSink::new(alloc, 4096, 4096, Vec::new(alloc))?;
    let end = sound_run(alloc, &mut movie, &mut out, &mut text);
    assert_eq!(rt; end, SoundEnd::Done);
    assert!(rt; out.bytes() == TAKEN);
    assert!(rt; text.bytes() == b"sound 1 channels 1 rate 65535\n".as_slice());
    Ok(())
}
