// Texts of transformations with answers known beforehand.
use crate::*;
use std::alloc::Global;
use std::test::Fail;
use sx_lists::Copied;

// The text that is printed for what a text is read as.
fn again(alloc: Global, text: &[u8]) -> Result<Vec<u8>, Fail> {
    let spec = parse_spec(alloc, text)?;
    Ok(print_spec(alloc, &spec)?.into_vec())
}

#[test]
fn horizontal_splits_are_read(rt: HostRuntime) -> Result<(), Fail> {
    let alloc = rt.alloc();
    for text in [
        b"part t if q<500 into low high".as_slice(),
        b"part t if a=1 and b<>-2 and c<=3 and d>='x' into t1 t2".as_slice(),
        b"part t if n='it''s and so into ' into y n".as_slice(),
        b"part abcdefghijklmnop if q>'' into low high".as_slice(),
    ] {
        assert_eq!(rt; again(alloc, text)?.as_slice(), text);
    }
    Ok(())
}

#[test]
fn other_texts_are_refused(rt: HostRuntime) {
    let alloc = rt.alloc();
    for text in [
        b"".as_slice(),
        b"part t if q<500 into low".as_slice(),
        b"part t if q<500 into low high ".as_slice(),
        b"part t if q < 500 into low high".as_slice(),
        b"part t if q='NULL' into low high".as_slice(),
        b"part t if q=01 into low high".as_slice(),
        b"part t if q=-0 into low high".as_slice(),
        b"part t if q='x into low high".as_slice(),
        b"part abcdefghijklmnopq if q=1 into low high".as_slice(),
        b"part t if a=1 and a=2 and a=3 and a=4 and a=5 into low high".as_slice(),
        b"part t if q=9223372036854775808 into low high".as_slice(),
    ] {
        assert_eq!(rt; parse_spec(alloc, text).err(), Some(LangFault::NotText));
    }
}

#[test]
fn faults_are_copied(rt: HostRuntime) -> Result<(), Fail> {
    for fault in [LangFault::Memory, LangFault::NotText] {
        assert_eq!(rt; fault.copy(rt.alloc())?, fault);
    }
    Ok(())
}
