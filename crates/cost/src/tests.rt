// Both kinds at the edges of their reach.
use crate::amounts::{Minutes, Slots};
use crate::kind::CostKind;
use crate::misfit::Misfit;
use std::cmp::Ordering;
use std::test::Fail;

const NO_TIER: Option<u8> = Some(0);

const FIRST: Option<u8> = Some(1);

const SECOND: Option<u8> = Some(2);

// The number that a refusal is told by, of figures or of an operation.
fn unfit<A: Drop, E: Into<Misfit>>(answer: Result<A, E>) -> Option<u8> {
    answer.err().map(|e| e.into().tier())
}

#[test]
fn minutes_in_reach(rt: HostRuntime) -> Result<(), Fail> {
    let most = Minutes::make(&[1_000_000_000_000])?;
    let least = Minutes::make(&[-1_000_000_000_000])?;
    assert_eq!(rt; Minutes::figure(most, 1), 1_000_000_000_000);
    assert_eq!(rt; Minutes::figure(least, 1), -1_000_000_000_000);
    assert_eq!(rt; Minutes::figure(most, 0), 0);
    assert_eq!(rt; Minutes::figure(most, 2), 0);
    assert_eq!(rt;
        Minutes::figure(Minutes::read(Minutes::row(least)), 1),
        -1_000_000_000_000
    );
    assert_eq!(rt; Minutes::compare(least, most), Ordering::Less);
    assert_eq!(rt; Minutes::figure(Minutes::sum(least, most)?, 1), 0);
    assert!(rt; Minutes::exceeds(most, most, most));
    assert!(rt; !Minutes::exceeds(most, Minutes::nothing(), most));
    Ok(())
}

#[test]
fn minutes_refused(rt: HostRuntime) -> Result<(), Fail> {
    let most = Minutes::make(&[1_000_000_000_000])?;
    let one = Minutes::make(&[1])?;
    assert_eq!(rt; unfit(Minutes::make(&[1_000_000_000_001])), FIRST);
    assert_eq!(rt; unfit(Minutes::make(&[-1_000_000_000_001])), FIRST);
    assert_eq!(rt; unfit(Minutes::make(&[])), NO_TIER);
    assert_eq!(rt; unfit(Minutes::make(&[1_000_000_000_001, 0])), NO_TIER);
    assert_eq!(rt; unfit(Minutes::sum(most, one)), FIRST);
    assert_eq!(rt;
        unfit(Minutes::difference(Minutes::make(&[-1_000_000_000_000])?, one)),
        FIRST
    );
    Ok(())
}

#[test]
fn slots_in_reach(rt: HostRuntime) -> Result<(), Fail> {
    let ends = Slots::make(&[1_000_000_000, -1_000_000_000])?;
    assert_eq!(rt; Slots::figure(ends, 1), 1_000_000_000);
    assert_eq!(rt; Slots::figure(ends, 2), -1_000_000_000);
    assert_eq!(rt; Slots::figure(ends, 0), 0);
    assert_eq!(rt; Slots::figure(ends, 3), 0);
    assert_eq!(rt;
        Slots::figure(Slots::read(Slots::row(ends)), 2),
        -1_000_000_000
    );
    let left = Slots::difference(Slots::make(&[2, 10])?, Slots::make(&[1, 25])?)?;
    assert_eq!(rt; Slots::figure(left, 1), 1);
    assert_eq!(rt; Slots::figure(left, 2), -15);
    Ok(())
}

#[test]
fn slots_refused(rt: HostRuntime) -> Result<(), Fail> {
    let most = Slots::make(&[1_000_000_000, 1_000_000_000])?;
    assert_eq!(rt; unfit(Slots::make(&[1_000_000_001, -1_000_000_001])), FIRST);
    assert_eq!(rt; unfit(Slots::make(&[0, 1_000_000_001])), SECOND);
    assert_eq!(rt; unfit(Slots::make(&[0])), NO_TIER);
    assert_eq!(rt; unfit(Slots::make(&[0, 0, 0])), NO_TIER);
    assert_eq!(rt; unfit(Slots::sum(most, most)), FIRST);
    assert_eq!(rt; unfit(Slots::sum(most, Slots::make(&[0, 1])?)), SECOND);
    Ok(())
}

#[test]
fn slots_by_the_first_tier(rt: HostRuntime) -> Result<(), Fail> {
    let few = Slots::make(&[1, 1_000_000_000])?;
    let more = Slots::make(&[2, -1_000_000_000])?;
    assert_eq!(rt; Slots::compare(few, more), Ordering::Less);
    assert_eq!(rt;
        Slots::compare(few, Slots::make(&[1, 0])?),
        Ordering::Greater
    );
    assert_eq!(rt; Slots::compare(more, more), Ordering::Equal);
    // the sum is out of reach in the second tier
    assert!(rt; !Slots::exceeds(few, Slots::make(&[0, 1])?, more));
    assert!(rt; Slots::exceeds(few, Slots::make(&[0, 1])?, few));
    Ok(())
}

#[test]
fn minutes_print(rt: HostRuntime) -> Result<(), Fail> {
    let late = Minutes::make(&[20])?;
    assert_eq!(rt; late.to_string(rt.alloc())?.as_str(), "20 minutes");
    Ok(())
}

#[test]
fn slots_print(rt: HostRuntime) -> Result<(), Fail> {
    let one = Slots::make(&[1, 5])?;
    let two = Slots::make(&[2, 10])?;
    let none = Slots::make(&[0, 20])?;
    assert_eq!(rt; one.to_string(rt.alloc())?.as_str(), "1 slot 5 minutes");
    assert_eq!(rt; two.to_string(rt.alloc())?.as_str(), "2 slots 10 minutes");
    assert_eq!(rt; none.to_string(rt.alloc())?.as_str(), "0 slots 20 minutes");
    Ok(())
}
