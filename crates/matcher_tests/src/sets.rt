//! Sets of bytes.

use crate::values::prints_as;
use grep_matcher::ByteSet;
use std::test::Fail;

#[test]
fn bytes_come_and_go(rt: HostRuntime) -> Result<(), Fail> {
    let mut set = ByteSet::empty();
    assert!(rt; !set.contains(0));
    set.add_all(b'a', b'z');
    set.add_all(b'z', b'a');
    set.add(255);
    assert!(rt; set.contains(b'a') && set.contains(b'z') && set.contains(255));
    assert!(rt; !set.contains(b'`') && !set.contains(b'{') && !set.contains(0));
    let copy = set.clone()?;
    set.remove_all(b'b', b'z');
    set.remove(255);
    assert!(rt;
        set.contains(b'a') && !set.contains(b'b') && !set.contains(b'z') && !set.contains(255)
    );
    assert!(rt; copy.contains(b'z'));
    Ok(())
}

#[test]
fn the_full_set_ends_at_255(rt: HostRuntime) {
    let mut set = ByteSet::full();
    assert!(rt; set.contains(0) && set.contains(63) && set.contains(64) && set.contains(255));
    set.remove_all(0, 255);
    assert!(rt; !set.contains(0) && !set.contains(128) && !set.contains(255));
    set.add_all(0, 255);
    assert!(rt; set.contains(0) && set.contains(128) && set.contains(255));
}

#[test]
fn prints_its_words(rt: HostRuntime) -> Result<(), Fail> {
    let mut set = ByteSet::empty();
    set.add(1);
    set.add(64);
    assert!(rt; prints_as(rt.alloc(), &set, "ByteSet { words: [2, 1, 0, 0] }")?);
    Ok(())
}
