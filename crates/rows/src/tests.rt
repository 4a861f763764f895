// The shelf at its edges: limits that are not kept, spare words, each refusal
// and their order, rising codes, and what a wipe or a refused call leaves.
use crate::{RowShelf, lone_literal};
use shelf::literal::Literal;
use shelf::refusal::Refusal;
use shelf::store::Shelf;
use std::test::Fail;

// The measures of a shelf over 600 words.
fn measures(highest: usize, longest: usize) -> (usize, usize, usize) {
    let mut words = [7u32; 600];
    let shelf = RowShelf::new(&mut words, highest, longest);
    (
        shelf.place_count(),
        shelf.highest_variable(),
        shelf.longest_clause(),
    )
}

#[test]
fn limits_are_kept(rt: HostRuntime) {
    for (highest, longest, measured) in [
        (0, 3, (0, 1, 1)),
        (65536, 3, (0, 1, 1)),
        (4, 0, (0, 1, 1)),
        (4, 256, (0, 1, 1)),
        (65535, 255, (2, 65535, 255)),
        (1, 1, (300, 1, 1)),
    ] {
        assert_eq!(rt;
            measures(highest, longest),
            measured,
            "{highest}, {longest}"
        );
    }
}

#[test]
fn spare_words_stay(rt: HostRuntime) -> Result<(), Fail> {
    let mut words = [7u32; 10];
    {
        let mut shelf = RowShelf::new(&mut words, 4, 3);
        shelf.add(1, Literal::not(4))?;
        assert_eq!(rt; shelf.wipe(2).map_err(Refusal::number), Err(81));
    }
    assert_eq!(rt; words, [0, 0, 0, 0, 1, 9, 0, 0, 7, 7]);
    Ok(())
}

#[test]
fn refusals_come_in_order(rt: HostRuntime) {
    let mut words = [0u32; 6];
    {
        let mut shelf = RowShelf::new(&mut words, 4, 2);
        for (place, literal, answer) in [
            (2, Literal::of(0), Err(81)),
            (1, Literal::not(0), Err(82)),
            (1, Literal::of(5), Err(82)),
            (1, Literal::not(4), Ok(())),
            (1, Literal::of(4), Err(83)),
            (1, Literal::of(1), Ok(())),
            (1, Literal::not(1), Err(83)),
            (1, Literal::of(2), Err(84)),
        ] {
            let added = shelf.add(place, literal).map_err(Refusal::number);
            assert_eq!(rt; added, answer, "{literal:?} at {place}");
        }
    }
    assert_eq!(rt; words, [0, 0, 0, 2, 2, 9]);
}

#[test]
fn codes_rise_and_a_wipe_frees(rt: HostRuntime) -> Result<(), Fail> {
    let mut words = [0u32; 4];
    {
        let mut shelf = RowShelf::new(&mut words, 4, 3);
        for literal in [Literal::of(3), Literal::not(1), Literal::of(2)] {
            shelf.add(0, literal)?;
        }
        for (k, code) in [3, 4, 6].into_iter().enumerate() {
            assert_eq!(rt; shelf.literal(0, k).code, code, "at {k}");
        }
        assert!(rt; shelf.holds(0, Literal::of(3)));
        assert!(rt; !shelf.holds(0, Literal::not(3)));
        shelf.wipe(0)?;
        assert_eq!(rt; (shelf.size(0), shelf.size(1)), (0, 0));
    }
    assert_eq!(rt; words, [0, 0, 0, 0]);
    Ok(())
}

#[test]
fn the_widest_row(rt: HostRuntime) -> Result<(), Fail> {
    let mut words = [7u32; 256];
    let mut shelf = RowShelf::new(&mut words, 65535, 255);
    shelf.add(0, Literal::not(65535))?;
    for (k, code) in [131071, 0].into_iter().enumerate() {
        assert_eq!(rt; shelf.literal(0, k).code, code, "at {k}");
    }
    Ok(())
}

// A test of each shelf by itself, as on masks: the words that are left differ.
#[test]
fn one_literal(rt: HostRuntime) {
    let mut words = [7u32; 3];
    assert_eq!(rt; lone_literal(&mut words, 3, 1, Literal::not(3)), Ok(1));
    assert_eq!(rt; words, [1, 7, 7]);
    assert!(rt; lone_literal(&mut words, 3, 3, Literal::of(1)).is_err());
}
