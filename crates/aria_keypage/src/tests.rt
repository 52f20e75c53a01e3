use super::*;
use aria_page::{BODY_AT, Page, apply_all};
use std::alloc::{AllocError, Global};
use std::test::*;

// The page whose body this is.
fn page_of(body: &[u8]) -> Page {
    let mut page = Page::zero();
    if body.len() <= 8181 {
        page.put(BODY_AT, body);
    }
    page
}

const SHARING: &[u8] = &[
    10, 0, 0, 20, 0, 0, 3, 1, 0x61, 0x62, 0, 0, 0, 1, 0, 2, 0, 1, 0x63, 0, 0, 0, 1, 1,
];

#[test]
fn an_item_shares_all_leading_bytes_with_the_one_before(rt: HostRuntime) -> Result<(), Fail> {
    let page = page_of(SHARING);
    let view = KeyPage::view(&page).ok_or("a leaf")?;
    assert!(rt; view.kind() == Kind::Leaf && view.is_low() && view.count() == 2);
    let less = page_of(&[
        10, 0, 0, 21, 0, 0, 3, 1, 0x61, 0x62, 0, 0, 0, 1, 0, 1, 0, 2, 0x61, 0x63, 0, 0, 0, 1, 1,
    ]);
    assert!(rt; KeyPage::view(&less).is_none());
    assert!(rt; KeyPage::view(&Page::zero()).is_none());
    Ok(())
}

#[test]
fn the_position_of_an_entry_is_found(rt: HostRuntime) -> Result<(), Fail> {
    let page = page_of(SHARING);
    let view = KeyPage::view(&page).ok_or("a leaf")?;
    assert_eq!(rt; view.find(&[1, 0x61, 0x62]), (0, true));
    assert_eq!(rt; view.find(&[1, 0x61, 0x62, 0]), (1, false));
    assert_eq!(rt; view.find(&[1, 0x61, 0x63]), (1, true));
    assert_eq!(rt; view.find(&[1, 0x62]), (2, false));
    assert_eq!(rt; view.find(&[]), (0, false));
    Ok(())
}

#[test]
fn items_are_put_in_and_taken_out(rt: HostRuntime) -> Result<(), Fail> {
    let body = root_leaf(rt.alloc(), 0, &[1, 0x61, 0x62], 256)?;
    let mut page = page_of(body.as_slice());
    let view = KeyPage::view(&page).ok_or("a leaf")?;
    let Kind::Leaf = view.kind() else {
        return Err("a leaf".into());
    };
    if view.count() != 1 || !view.has_room(1, &[1, 0x61, 0x63]) {
        return Err("room for one more".into());
    }
    let edits = view
        .insert(rt.alloc(), 1, &[1, 0x61, 0x63], 257)?
        .ok_or("room")?;
    apply_all(&edits.edits(), &mut page);
    assert!(rt; page.body().starts_with(SHARING));
    let view = KeyPage::view(&page).ok_or("a leaf")?;
    if view.count() != 2 {
        return Err("two items".into());
    }
    assert_eq!(rt; view.target_at(1), 257);
    assert_eq!(rt;
        view.entry_at(rt.alloc(), 1)?.as_slice(),
        [1, 0x61, 0x63].as_slice()
    );
    let edits = view.remove(rt.alloc(), 0)?;
    apply_all(&edits.edits(), &mut page);
    let view = KeyPage::view(&page).ok_or("a leaf")?;
    assert!(rt; view.count() == 1 && view.find(&[1, 0x61, 0x63]) == (0, true));
    Ok(())
}

#[test]
fn a_node_has_a_child_more_than_entries(rt: HostRuntime) -> Result<(), Fail> {
    let body = root_node(rt.alloc(), 3, 7, &[5], 9)?;
    let page = page_of(body.as_slice());
    let view = KeyPage::view(&page).ok_or("a node")?;
    let Kind::Node = view.kind() else {
        return Err("a node".into());
    };
    if view.count() != 1 {
        return Err("a node with an item".into());
    }
    assert_eq!(rt; (view.first_child(), view.target_at(0)), (7, 9));
    Ok(())
}

// The front of a page whose entries have 900 bytes, the first of which rises; each leads to that number.
fn page_front(
    alloc: Global,
    head: &[u8],
    leaf: bool,
    first: u8,
    end: u8,
) -> Result<Vec<u8>, AllocError> {
    let mut body = Vec::from_slice(alloc, head)?;
    for n in first..end {
        body.extend_from_slice(&[0, 0x03, 0x84, n])?;
        body.extend_from_slice(&[0; 899])?;
        if leaf {
            body.push(0)?;
        }
        body.extend_from_slice(&[0, 0, 0, n])?;
    }
    Ok(body)
}

#[test]
fn two_leaves_are_shared_where_they_do_not_fit_in_one(rt: HostRuntime) -> Result<(), Fail> {
    let front = page_front(rt.alloc(), &[10, 0, 0x07, 0x18], true, 1, 3)?;
    let mut page = page_of(front.as_slice());
    let front = page_front(rt.alloc(), &[10, 0, 0x1c, 0x60], true, 3, 11)?;
    let next = page_of(front.as_slice());
    let left = KeyPage::view(&page).ok_or("a leaf")?;
    let right = KeyPage::view(&next).ok_or("a leaf")?;
    let (Kind::Leaf, Kind::Leaf) = (left.kind(), right.kind()) else {
        return Err("two leaves".into());
    };
    if !left.is_low() {
        return Err("a low page".into());
    }
    if left.fits(&right, &[3]) {
        return Err("they fit in one".into());
    }
    let split = left.share(rt.alloc(), &right, &[3])?;
    apply_all(&split.left.edits(), &mut page);
    let five = page_front(rt.alloc(), &[10, 0, 0x11, 0xbc], true, 1, 6)?;
    assert!(rt; page.body().starts_with(five.as_slice()));
    let others = page_front(rt.alloc(), &[10, 0, 0x11, 0xbc], true, 6, 11)?;
    assert!(rt; split.right.as_slice().starts_with(others.as_slice()));
    assert!(rt; split.between.len() == 900 && split.between.as_slice().starts_with(&[6]));
    Ok(())
}

#[test]
fn two_leaves_are_joined_where_they_fit_in_one(rt: HostRuntime) -> Result<(), Fail> {
    let front = page_front(rt.alloc(), &[10, 0, 0x07, 0x18], true, 1, 3)?;
    let mut page = page_of(front.as_slice());
    let front = page_front(rt.alloc(), &[10, 0, 0x18, 0xd4], true, 3, 10)?;
    let next = page_of(front.as_slice());
    let left = KeyPage::view(&page).ok_or("a leaf")?;
    let right = KeyPage::view(&next).ok_or("a leaf")?;
    let (Kind::Leaf, Kind::Leaf) = (left.kind(), right.kind()) else {
        return Err("two leaves".into());
    };
    if !left.fits(&right, &[3]) {
        return Err("they fit in one".into());
    }
    let edits = left.join(rt.alloc(), &right, &[3])?;
    apply_all(&edits.edits(), &mut page);
    let nine = page_front(rt.alloc(), &[10, 0, 0x1f, 0xec], true, 1, 10)?;
    assert!(rt; page.body().starts_with(nine.as_slice()));
    Ok(())
}

#[test]
fn a_leaf_is_split_at_the_lower_of_two_positions(rt: HostRuntime) -> Result<(), Fail> {
    let front = page_front(rt.alloc(), &[10, 4, 0x0a, 0xa4], true, 1, 4)?;
    let mut page = page_of(front.as_slice());
    let view = KeyPage::view(&page).ok_or("a leaf")?;
    if view.is_low() {
        return Err("a page with items to split".into());
    }
    let split = view.split(rt.alloc())?;
    apply_all(&split.left.edits(), &mut page);
    let one = page_front(rt.alloc(), &[10, 4, 0x03, 0x8c], true, 1, 2)?;
    assert!(rt; page.body().starts_with(one.as_slice()));
    let two = page_front(rt.alloc(), &[10, 4, 0x07, 0x18], true, 2, 4)?;
    assert!(rt; split.right.as_slice().starts_with(two.as_slice()));
    assert!(rt; split.between.len() == 900 && split.between.as_slice().starts_with(&[2]));
    Ok(())
}

#[test]
fn an_entry_goes_up_from_a_node(rt: HostRuntime) -> Result<(), Fail> {
    let front = page_front(rt.alloc(), &[11, 4, 0x0a, 0xa5, 0, 0, 0, 9], false, 1, 4)?;
    let mut page = page_of(front.as_slice());
    let view = KeyPage::view(&page).ok_or("a node")?;
    if view.is_low() {
        return Err("a page with items to split".into());
    }
    let split = view.split(rt.alloc())?;
    apply_all(&split.left.edits(), &mut page);
    let one = page_front(rt.alloc(), &[11, 4, 0x03, 0x8f, 0, 0, 0, 9], false, 1, 2)?;
    assert!(rt; page.body().starts_with(one.as_slice()));
    let last = page_front(rt.alloc(), &[11, 4, 0x03, 0x8f, 0, 0, 0, 2], false, 3, 4)?;
    assert!(rt; split.right.as_slice().starts_with(last.as_slice()));
    assert!(rt; split.between.len() == 900 && split.between.as_slice().starts_with(&[2]));
    Ok(())
}
