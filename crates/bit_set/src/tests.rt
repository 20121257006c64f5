use crate::set::BitSet;
use sim_base::OutOfMemory;

#[test]
fn numbers_of_several_words_are_found_in_order(rt: HostRuntime) -> Result<(), OutOfMemory> {
    let mut set = BitSet::open(rt.alloc(), 200)?;
    set.insert(3);
    set.insert(64);
    set.insert(199);
    let rows = [
        (0, Some(3)),
        (3, Some(3)),
        (4, Some(64)),
        (65, Some(199)),
        (200, None),
        (1000, None),
    ];
    for (from, expected) in rows {
        assert_eq!(rt; set.next(from), expected, "from {from}");
    }
    Ok(())
}

#[test]
fn a_joined_set_adds_its_numbers_from_one_on(rt: HostRuntime) -> Result<(), OutOfMemory> {
    let mut more = BitSet::open(rt.alloc(), 200)?;
    more.insert(69);
    more.insert(70);
    more.insert(133);
    more.insert(134);
    more.insert(169);
    more.insert(170);
    let mut set = BitSet::open(rt.alloc(), 100)?;
    set.insert(5);
    set.join(&more, 70);
    let rows = [
        (0, Some(0)),
        (1, Some(5)),
        (6, Some(63)),
        (64, Some(64)),
        (65, Some(99)),
        (100, None),
    ];
    for (from, expected) in rows {
        assert_eq!(rt; set.next(from), expected, "from {from}");
    }
    set.join(&more, 64);
    assert_eq!(rt; set.next(6), Some(6));
    Ok(())
}
