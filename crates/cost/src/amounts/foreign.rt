// Rows that are no amount's: here alone can a test make one.
use crate::amounts::{Minutes, MinutesRow, Slots, SlotsRow};
use crate::kind::CostKind;

#[test]
fn foreign_rows_read_as_nothing(rt: HostRuntime) {
    let minutes = Minutes::read(MinutesRow {
        minutes: 1_000_000_000_001,
    });
    assert_eq!(rt; Minutes::figure(minutes, 1), 0);
    let slots = Slots::read(SlotsRow {
        slots: 5,
        minutes: -1_000_000_001,
    });
    assert_eq!(rt; Slots::figure(slots, 1), 0);
    assert_eq!(rt; Slots::figure(slots, 2), 0);
}
