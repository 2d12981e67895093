//! The line and the number of each status. Whole runs are cases of `run_cases`.

use pcm_track::SoundKind;
use pic_y4m::PictureKind;
use pr_head::FrameKind;
use qt_tables::MovieKind;
use rate_table::ProofKind;
use std::test::Fail;
use workshop::{Status, UsageKind};

#[test]
fn each_status_has_its_line_and_its_number(rt: HostRuntime) -> Result<(), Fail> {
    let usage = Status::Usage {
        kind: UsageKind::ExtraOperand,
        word: 2,
    };
    let cases: [(Status, &str, u8); 13] = [
        (Status::Done, "", 0),
        (usage, "usage: ExtraOperand at word 2", 1),
        (Status::NoMemory, "no memory", 2),
        (Status::ReadFault, "read fault", 3),
        (Status::WriteFault, "write fault", 4),
        (
            Status::BadProof {
                kind: ProofKind::TableShort,
                place: 55,
            },
            "proof: TableShort at 55",
            10,
        ),
        (
            Status::BadPictures {
                kind: PictureKind::Truncated,
                place: 1064,
            },
            "pictures: Truncated at 1064",
            5,
        ),
        (
            Status::TooSmall {
                frame: 0,
                least: 178,
            },
            "frame 0: no choice fits, least is 178",
            6,
        ),
        (
            Status::LayersFull { frame: 0 },
            "frame 0: too many pairs",
            7,
        ),
        (
            Status::BadMovie {
                kind: MovieKind::AtomSize,
                place: 206,
            },
            "movie: AtomSize at 206",
            8,
        ),
        (
            Status::BadFrame {
                sample: 2,
                kind: FrameKind::Differs,
                place: 8,
            },
            "sample 2: Differs at 8",
            9,
        ),
        (
            Status::Refused {
                frame: 3,
                clause: 7,
            },
            "frame 3: refused by clause 7",
            11,
        ),
        (
            Status::BadSound {
                kind: SoundKind::Truncated,
                place: 51,
            },
            "sound: Truncated at 51",
            13,
        ),
    ];
    for (status, line, code) in cases {
        let told = format!(in rt.alloc(); "{status}")?;
        assert_eq!(rt; told.as_str(), line);
        assert_eq!(rt; status.code(), code);
    }
    Ok(())
}
