//! Numbers and words of printed texts.

use pw_text::{Bad, put_decimal, put_words, read_decimal};

#[test]
fn reads_digits_alone_below_two_to_64(rt: HostRuntime) {
    let cases: [(&[u8], Result<u64, Bad>); 9] = [
        (b"0", Ok(0)),
        (b"7", Ok(7)),
        (b"0042", Ok(42)),
        (b"18446744073709551615", Ok(18_446_744_073_709_551_615)),
        (b"18446744073709551616", Err(Bad)),
        (b"", Err(Bad)),
        (b"-1", Err(Bad)),
        (b"1 ", Err(Bad)),
        (b"12a", Err(Bad)),
    ];
    for (bytes, want) in cases {
        assert_eq!(rt; read_decimal(bytes), want);
    }
}

#[test]
fn appends_words_and_numbers(rt: HostRuntime) {
    let mut text = Vec::new(rt.alloc());
    assert_eq!(rt; put_words(&mut text, "size "), Ok(()));
    assert_eq!(rt; put_decimal(&mut text, 0), Ok(()));
    assert_eq!(rt; put_words(&mut text, ", "), Ok(()));
    assert_eq!(rt; put_decimal(&mut text, 18_446_744_073_709_551_615), Ok(()));
    assert!(rt; text.as_slice() == b"size 0, 18446744073709551615".as_slice());
}
