// Examples of what lists answer, and of each generic call at a concrete type.
use crate::{Copied, List, Reserved, Same, all_same, bytes_of, copies_of};
use std::alloc::{AllocError, Global};
use std::cmp::Ordering;
use std::test::Fail;

// A list that was made by pushing.
fn pushed(alloc: Global, items: &[u64]) -> Result<List<u64>, AllocError> {
    let mut list = List::new(alloc);
    for item in items {
        list.push(*item)?;
    }
    Ok(list)
}

#[test]
fn items_are_pushed(rt: HostRuntime) -> Result<(), Fail> {
    let list = pushed(rt.alloc(), &[7, 8, 9])?;
    assert_eq!(rt; list.as_slice(), [7, 8, 9].as_slice());
    assert_eq!(rt; list.len(), 3);
    assert_eq!(rt; list.at(0), None);
    assert_eq!(rt; list.at(1), Some(&7));
    assert_eq!(rt; list.at(3), Some(&9));
    assert_eq!(rt; list.at(4), None);
    Ok(())
}

#[test]
fn vectors_are_lists(rt: HostRuntime) -> Result<(), Fail> {
    let alloc = rt.alloc();
    let list = List::from_vec(b"abc".to_vec(alloc)?);
    assert_eq!(rt; list.as_slice(), b"abc".as_slice());
    assert!(rt; !list.is_empty());
    assert_eq!(rt; list.into_vec().as_slice(), b"abc".as_slice());
    assert!(rt; List::<u8>::new(alloc).is_empty());
    Ok(())
}

#[test]
fn copies_are_equal(rt: HostRuntime) -> Result<(), Fail> {
    let alloc = rt.alloc();
    let list = pushed(alloc, &[7, 8])?.copy(alloc)?;
    assert_eq!(rt; list.as_slice(), [7, 8].as_slice());
    let bytes = copies_of(alloc, b"abc")?;
    assert_eq!(rt; bytes.as_slice(), b"abc".as_slice());
    assert_eq!(rt; Some(7_u64).copy(alloc)?, Some(7));
    assert_eq!(rt; None::<u64>.copy(alloc)?, None);
    Ok(())
}

#[test]
fn bytes_are_copied(rt: HostRuntime) -> Result<(), Fail> {
    let bytes = bytes_of(rt.alloc(), b"abc")?;
    assert_eq!(rt; bytes.as_slice(), b"abc".as_slice());
    Ok(())
}

#[test]
fn sameness_is_told(rt: HostRuntime) -> Result<(), Fail> {
    let alloc = rt.alloc();
    let list = pushed(alloc, &[7, 8])?;
    assert!(rt; list.is_same(&pushed(alloc, &[7, 8])?));
    assert!(rt; !list.is_same(&pushed(alloc, &[7])?));
    assert!(rt; !list.is_same(&pushed(alloc, &[7, 9])?));
    assert!(rt; !all_same(&[-1_i64], &[1]));
    assert!(rt; Some(7_u8).is_same(&Some(7)));
    assert!(rt; !Some(7_u8).is_same(&None));
    Ok(())
}

#[test]
fn lists_are_ordered(rt: HostRuntime) -> Result<(), Fail> {
    let alloc = rt.alloc();
    let list = pushed(alloc, &[7, 8])?;
    assert_eq!(rt; list.cmp(&pushed(alloc, &[7, 8, 0])?), Ordering::Less);
    assert_eq!(rt; list.cmp(&pushed(alloc, &[7, 7, 9])?), Ordering::Greater);
    assert!(rt; list == pushed(alloc, &[7, 8])?);
    assert!(rt; list < pushed(alloc, &[8])?);
    Ok(())
}

#[test]
fn room_is_reserved(rt: HostRuntime) -> Result<(), Fail> {
    let mut grown = Reserved::new(rt.alloc());
    assert!(rt; grown.is_empty());
    grown.reserve(3)?;
    let room = grown.spare();
    assert!(rt; room >= 3);
    grown.append(7_u64);
    grown.append(8);
    assert_eq!(rt; grown.spare(), room - 2);
    assert_eq!(rt; grown.as_slice(), [7, 8].as_slice());
    assert_eq!(rt; grown.at(1), Some(&7));
    assert_eq!(rt; grown.at(3), None);
    Ok(())
}

#[test]
fn ranges_are_copied(rt: HostRuntime) -> Result<(), Fail> {
    let alloc = rt.alloc();
    let mut grown = Reserved::new(alloc);
    grown.reserve(3)?;
    grown.append(7_u64);
    grown.append(8);
    grown.append(9);
    assert_eq!(rt; grown.len(), 3);
    for (from, n, want) in [
        (0, 2, [7, 8].as_slice()),
        (1, 1, [8].as_slice()),
        (1, 9, [8, 9].as_slice()),
        (3, 1, [].as_slice()),
    ] {
        let copies = grown.range(alloc, from, n)?;
        assert_eq!(rt; copies.as_slice(), want, "{n} from {from}");
    }
    Ok(())
}
