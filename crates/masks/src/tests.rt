// The shelf at its edges: the highest variable in both signs, each refusal and
// their order, an odd number of words, rising codes, and a place with every
// variable.
use crate::{MaskShelf, lone_literal};
use shelf::literal::Literal;
use shelf::refusal::Refusal;
use shelf::store::Shelf;
use std::test::Fail;

#[test]
fn the_highest_variable_in_both_signs(rt: HostRuntime) -> Result<(), Fail> {
    let mut words = [7u64; 4];
    {
        let mut shelf = MaskShelf::new(&mut words);
        assert_eq!(rt; shelf.place_count(), 2);
        assert_eq!(rt; shelf.highest_variable(), 64);
        assert_eq!(rt; shelf.longest_clause(), 64);
        shelf.add(0, Literal::of(64))?;
        shelf.add(1, Literal::not(64))?;
        assert_eq!(rt; shelf.literal(0, 0).code, 128);
        assert_eq!(rt; shelf.literal(1, 0).code, 129);
        assert!(rt; shelf.holds(0, Literal::of(64)));
        assert!(rt; !shelf.holds(0, Literal::not(64)));
    }
    let top = 9223372036854775808;
    assert_eq!(rt; words, [top, 0, 0, top]);
    Ok(())
}

#[test]
fn refusals_come_in_order(rt: HostRuntime) {
    let mut words = [0u64; 2];
    {
        let mut shelf = MaskShelf::new(&mut words);
        for (place, code, answer) in [
            (1, 0, Err(81)),
            (0, 0, Err(82)),
            (0, 1, Err(82)),
            (0, 130, Err(82)),
            (0, 131, Err(82)),
        ] {
            let added = shelf.add(place, Literal { code }).map_err(Refusal::number);
            assert_eq!(rt; added, answer, "{code} at {place}");
        }
        for (literal, answer) in [
            (Literal::not(3), Ok(())),
            (Literal::of(3), Err(83)),
            (Literal::not(3), Err(83)),
        ] {
            let added = shelf.add(0, literal).map_err(Refusal::number);
            assert_eq!(rt; added, answer, "{literal:?}");
        }
        assert_eq!(rt; shelf.wipe(1).map_err(Refusal::number), Err(81));
        assert!(rt; !shelf.holds(0, Literal { code: 1 }));
        assert!(rt; !shelf.holds(0, Literal { code: 130 }));
        assert!(rt; !shelf.holds(1, Literal::not(3)));
    }
    assert_eq!(rt; words, [0, 4]);
}

#[test]
fn spare_words_stay(rt: HostRuntime) -> Result<(), Fail> {
    let mut words = [7u64; 3];
    {
        let mut shelf = MaskShelf::new(&mut words);
        assert_eq!(rt; shelf.place_count(), 1);
        assert_eq!(rt; (shelf.size(0), shelf.size(1)), (0, 0));
        shelf.add(0, Literal::of(2))?;
        shelf.wipe(0)?;
        assert_eq!(rt; shelf.wipe(1).map_err(Refusal::number), Err(81));
    }
    assert_eq!(rt; words, [0, 0, 7]);
    Ok(())
}

#[test]
fn codes_rise(rt: HostRuntime) -> Result<(), Fail> {
    let mut words = [0u64; 2];
    let mut shelf = MaskShelf::new(&mut words);
    for literal in [Literal::of(40), Literal::not(1), Literal::of(2)] {
        shelf.add(0, literal)?;
    }
    for (k, code) in [3, 4, 80, 0].into_iter().enumerate() {
        assert_eq!(rt; shelf.literal(0, k).code, code, "at {k}");
    }
    Ok(())
}

#[test]
fn every_variable_at_one_place(rt: HostRuntime) -> Result<(), Fail> {
    let mut words = [0u64; 2];
    let mut shelf = MaskShelf::new(&mut words);
    for v in 1..65u16 {
        shelf.add(0, Literal::not(v))?;
    }
    assert_eq!(rt; shelf.size(0), 64);
    assert_eq!(rt; shelf.literal(0, 63).code, 129);
    assert_eq!(rt; shelf.literal(0, 64).code, 0);
    assert_eq!(rt;
        shelf.add(0, Literal::of(17)).map_err(Refusal::number),
        Err(83)
    );
    Ok(())
}

// A test of each shelf by itself, as on rows: the words that are left differ.
#[test]
fn one_literal(rt: HostRuntime) {
    let mut words = [7u64; 3];
    assert_eq!(rt; lone_literal(&mut words, Literal::of(2)), Ok(1));
    assert_eq!(rt; words, [2, 0, 7]);
    assert!(rt; lone_literal(&mut words, Literal::of(0)).is_err());
}
