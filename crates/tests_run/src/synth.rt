//! Runs of an independent reference.

ghost use Rattle.std.specs.Prelude.{IfSome};
ghost use Rattle.run_synth.specs.Synthesis.{AreSynthWords};

use pw_outside::MemSink;
use run_synth::*;
use std::alloc::Global;
use std::test::Fail;

/// Words within the limits.
fn words(size: (u16, u16, u8), seed: u32, budget: u32) -> Option<SynthWords>
    ensures { IfSome result AreSynthWords }
{
    let (width, height, frames) = size;
    if width == 0 || width > 8192 || height == 0 || height > 4320 {
        return None;
    }
    if frames == 0 || frames > 100 || budget == 0 || budget >= 1 << 31 {
        return None;
    }
    Some(SynthWords {
        width,
        height,
        frames,
        seed,
        budget,
    })
}

/// How a run with these words ends, and its text, where these calls of the text's sink fail.
fn given(alloc: Global, words: &SynthWords, fails: &[u64]) -> Result<(SynthEnd, Vec<u8>), Fail>
    requires { AreSynthWords words.now }
{
    let mut text = MemSink::new(alloc, 4096, 16, fails.to_vec(alloc)?)?;
    let end = synth_run(alloc, words, &mut text);
    Ok((end, text.bytes().to_vec(alloc)?))
}

#[test]
fn runs_of_a_reference(rt: HostRuntime) -> Result<(), Fail> {
    let alloc = rt.alloc();
    let done = SynthEnd::Done;
    let cases = [
        (
            (33, 21, 1),
            4_294_967_295,
            228,
            done,
            "frame 0 size 228 error 240764\nframes 1\npictures 1\nrecords 1 yes\n",
        ),
        (
            (30, 2, 1),
            0,
            360,
            done,
            "frame 0 size 343 error 3002\nframes 1\npictures 1\nrecords 1 yes\n",
        ),
        (
            (37, 30, 1),
            3_844_359_104,
            2_147_483_647,
            done,
            "frame 0 size 1515 error 4151\nframes 1\npictures 1\nrecords 1 yes\n",
        ),
        (
            (10, 34, 2),
            4_294_967_295,
            1030,
            done,
            "frame 0 size 771 error 1981\nframe 1 size 755 error 1971\nframes 2\npictures 2\nrecords 2 yes\n",
        ),
        (
            (1, 9, 1),
            4_294_967_295,
            356,
            done,
            "frame 0 size 222 error 39\nframes 1\npictures 1\nrecords 1 yes\n",
        ),
        (
            (22, 4, 3),
            3_601_726_199,
            364,
            done,
            "frame 0 size 336 error 5869\nframe 1 size 317 error 5906\nframe 2 size 363 error 2791\nframes 3\npictures 3\nrecords 3 yes\n",
        ),
        (
            (26, 22, 2),
            0,
            199,
            SynthEnd::TooSmall {
                frame: 0,
                least: 200,
            },
            "",
        ),
        (
            (28, 13, 2),
            1,
            181,
            SynthEnd::TooSmall {
                frame: 1,
                least: 182,
            },
            "frame 0 size 181 error 286310\n",
        ),
    ];
    for (size, seed, budget, end, text) in cases {
        match words(size, seed, budget) {
            Some(words) => {
                let (gave, printed) = given(alloc, &words, &[])?;
                assert_eq!(rt; gave, end, "{text}");
                assert!(rt; printed.as_slice() == text.as_bytes(), "{text}");
            }
            None => assert!(rt; false, "{text}"),
        }
    }
    Ok(())
}

#[test]
fn each_write_fails_once(rt: HostRuntime) -> Result<(), Fail> {
    let alloc = rt.alloc();
    let text = b"frame 0 size 222 error 39\nframes 1\npictures 1\nrecords 1 yes\n";
    match words((1, 9, 1), 4_294_967_295, 356) {
        Some(words) => {
            // Four writes of sixteen bytes at most, and the flush.
            for call in 0..5u8 {
                let (end, printed) = given(alloc, &words, &[u64::from(call)])?;
                assert_eq!(rt; end, SynthEnd::WriteFault, "call {call}");
                assert!(rt; text.as_slice().starts_with(&printed), "call {call}");
            }
            let (end, _) = given(alloc, &words, &[5])?;
            assert_eq!(rt; end, SynthEnd::Done);
        }
        None => assert!(rt; false),
    }
    Ok(())
}
