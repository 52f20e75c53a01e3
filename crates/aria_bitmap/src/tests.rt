use super::*;
use aria_page::{BODY_AT, Page, apply};
use std::test::*;

#[test]
fn patterns_lie_as_the_format_says(rt: HostRuntime) -> Result<(), Fail> {
    let mut page = Page::zero();
    let mut edited = page;
    for (nth, code) in [(0, 1), (1, 4), (2, 7)] {
        set(&mut page, nth, code);
        assert_eq!(rt; get(&page, nth), code);
        let put = set_bytes(&edited, nth, code);
        assert_eq!(rt; put.at, 1);
        assert_eq!(rt; put.bytes.as_slice(), &page.body()[1..4]);
        let edit = set_edit(rt.alloc(), &edited, nth, code)?;
        assert!(rt; apply(&edit, &mut edited).is_ok());
    }
    assert_eq!(rt; &page.body()[..4], [0, 0xE1, 0x01, 0].as_slice());
    assert_eq!(rt; page.bytes(), edited.bytes());
    set(&mut page, PATTERNS - 1, 6);
    assert_eq!(rt; &page.body()[8175..], [0, 0, 0, 0xC0, 0, 0].as_slice());
    Ok(())
}

#[test]
fn a_head_page_with_two_small_rows_has_code_1(rt: HostRuntime) {
    let mut page = Page::zero();
    assert_eq!(rt; code_of(&page), 0);
    page.put(BODY_AT, &[3, 2, 0, 62]);
    page.put(BODY_AT + 8181 - 8, &[0, 33, 0, 29, 0, 4, 0, 29]);
    assert_eq!(rt; code_of(&page), 1);
    page.put(BODY_AT, &[4]);
    assert_eq!(rt; code_of(&page), 5);
    page.put(BODY_AT, &[5]);
    assert_eq!(rt; code_of(&page), 7);
}

#[test]
fn the_lowest_page_that_promises_is_found(rt: HostRuntime) {
    let mut page = Page::zero();
    for nth in 0..PATTERNS {
        set(&mut page, nth, 4);
    }
    assert_eq!(rt; find_room(&page, false, 1), None);
    assert_eq!(rt; find_empty_run(&page, 1), None);
    set(&mut page, 21807, 0);
    set(&mut page, 700, 3);
    set(&mut page, 90, 6);
    assert_eq!(rt; find_room(&page, false, 2000), Some(700));
    assert_eq!(rt; find_room(&page, false, 2001), Some(21807));
    assert_eq!(rt; find_room(&page, true, 1000), Some(90));
    assert_eq!(rt; find_empty_run(&page, 1), Some(21807));
    assert_eq!(rt; find_empty_run(&page, 2), None);
    for nth in [5, 6, 8, 9, 10] {
        set(&mut page, nth, 0);
    }
    assert_eq!(rt; find_empty_run(&page, 2), Some(5));
    assert_eq!(rt; find_empty_run(&page, 3), Some(8));
    assert_eq!(rt; find_empty_run(&page, 4), None);
    assert_eq!(rt; find_empty_run(&page, 0), Some(0));
    assert_eq!(rt; find_empty_run(&page, u32::MAX), None);
}
