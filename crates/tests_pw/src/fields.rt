//! Big-endian numbers.

use pw_fields::{Fields, Short, be16, be32, be64};

#[test]
fn reads_each_width_from_the_front(rt: HostRuntime) {
    let bytes = [
        0x01, 0x12, 0x34, 0x89, 0xAB, 0xCD, 0xEF, 0, 1, 2, 3, 4, 5, 6, 7, 0xFF, 0xFE,
    ];
    let mut fields = Fields::new(&bytes);
    assert_eq!(rt; fields.left(), 17);
    assert_eq!(rt; fields.u8(), Ok(0x01));
    assert_eq!(rt; fields.u16(), Ok(0x1234));
    assert_eq!(rt; fields.u32(), Ok(0x89AB_CDEF));
    assert_eq!(rt; fields.u64(), Ok(0x0001_0203_0405_0607));
    assert_eq!(rt; fields.left(), 2);
    assert_eq!(rt; fields.u32(), Err(Short));
    assert_eq!(rt; fields.u16(), Ok(0xFFFE));
    assert_eq!(rt; fields.u8(), Err(Short));
}

#[test]
fn gives_the_bytes_of_each_width(rt: HostRuntime) {
    assert_eq!(rt; be16(0x1234), [0x12, 0x34]);
    assert_eq!(rt; be32(0x89AB_CDEF), [0x89, 0xAB, 0xCD, 0xEF]);
    assert_eq!(rt; be64(0x0001_0203_0405_0607), [0, 1, 2, 3, 4, 5, 6, 7]);
}
