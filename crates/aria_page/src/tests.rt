use super::*;
use std::alloc::AllocError;
use std::test::*;

#[test]
fn the_checksum_is_the_common_crc_32(rt: HostRuntime) {
    assert_eq!(rt; checksum(b""), 0);
    assert_eq!(rt; checksum(b"123456789"), 0xCBF4_3926);
    assert_eq!(rt;
        checksum(b"The quick brown fox jumps over the lazy dog"),
        0x414F_A339
    );
}

#[test]
fn an_lsn_is_stored_in_seven_bytes(rt: HostRuntime) {
    let lsn = Lsn {
        file: 1,
        offset: 0x10,
    };
    assert_eq!(rt; lsn.to_bytes(), [0, 0, 1, 0, 0, 0, 0x10]);
    assert_eq!(rt; lsn_of(&lsn.to_bytes()), lsn);
    assert!(rt; lsn_at(&[0, 0, 1, 0, 0, 0]).is_none());
    assert!(rt; lsn.is_before(Lsn { file: 2, offset: 0 }));
}

#[test]
fn an_lsn_is_printed_with_its_offset_in_hexadecimal(rt: HostRuntime) -> Result<(), AllocError> {
    let first = Lsn {
        file: 1,
        offset: 0x10,
    };
    let last = Lsn {
        file: 16_777_215,
        offset: 0xFFAB_CDEF,
    };
    assert_eq!(rt;
        format!(in rt.alloc(); "{first} {last}")?.as_bytes(),
        "(1,0x10) (16777215,0xffabcdef)".as_bytes()
    );
    Ok(())
}

#[test]
fn a_sealed_page_is_sound_until_a_byte_changes(rt: HostRuntime) {
    let lsn = Lsn {
        file: 1,
        offset: 0x10,
    };
    let mut page = Page::zero();
    assert!(rt; page.is_sound() && !page.sums());
    page.put(BODY_AT, b"row");
    assert!(rt; !page.is_sound());
    page.seal(lsn);
    assert!(rt; page.is_sound() && page.sums());
    assert_eq!(rt; page.lsn(), lsn);
    assert_eq!(rt; &page.body()[..4], b"row\0".as_slice());
    page.put(8191, &[1]);
    assert!(rt; !page.is_sound());
}

#[test]
fn a_shift_may_overlap(rt: HostRuntime) -> Result<(), Fail> {
    let mut page = Page::zero();
    page.put(BODY_AT, &[1, 2, 3, 4, 5]);
    let shift = Edit::Shift {
        at: 1,
        len: 3,
        to: 2,
    };
    assert!(rt; apply(&shift, &mut page).is_ok());
    assert_eq!(rt; &page.body()[..6], [1, 2, 2, 3, 4, 0].as_slice());
    Ok(())
}

#[test]
fn an_edit_that_passes_the_body_is_refused(rt: HostRuntime) -> Result<(), Fail> {
    let mut page = Page::zero();
    let last = Edit::Set {
        at: 8180,
        bytes: Bytes::from_slice(rt.alloc(), &[7])?,
    };
    assert_eq!(rt; apply(&last, &mut page), Ok(()));
    let past = Edit::Set {
        at: 8181,
        bytes: Bytes::from_slice(rt.alloc(), &[7])?,
    };
    assert_eq!(rt; apply(&past, &mut page), Err(EditFault::OutOfPage));
    let short = Edit::Whole {
        body: Bytes::from_slice(rt.alloc(), &[7])?,
    };
    assert_eq!(rt; apply(&short, &mut page), Err(EditFault::OutOfPage));
    assert_eq!(rt; page.bytes()[8191], 7);
    Ok(())
}

#[test]
fn numbers_are_stored_highest_byte_first(rt: HostRuntime) {
    assert_eq!(rt; u16_bytes(0x0102), [1, 2]);
    assert_eq!(rt; u24_bytes(0x01_0203), [1, 2, 3]);
    assert_eq!(rt; u40_bytes(0x01_0203_0405), [1, 2, 3, 4, 5]);
    assert_eq!(rt; u64_of(&u64_bytes(u64::MAX - 1)), u64::MAX - 1);
    assert!(rt; matches!(u40_at(&[0, 0, 0, 1, 0, 9]), Some((256, [9]))));
    assert!(rt; u32_at(&[1, 2, 3]).is_none());
    assert!(rt; matches!(u8_at(&[5]), Some((5, []))));
}

#[test]
fn a_name_is_a_word_of_at_most_64_bytes(rt: HostRuntime) -> Result<(), Fail> {
    assert!(rt; Name::read(b"1a").is_none());
    assert!(rt; Name::read(&[b'a'; 65]).is_none());
    let name = Name::read(b"a1_").ok_or("a word is a name")?;
    assert_eq!(rt; name.as_slice(), b"a1_".as_slice());
    assert!(rt; matches!(name_at(b"\x03a1_x"), Some((found, b"x")) if found == name));
    assert!(rt; name_at(b"\x04a1_").is_none());
    Ok(())
}
