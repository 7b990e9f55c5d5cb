//! Rows of sets of units. Those of words, slots and draws are proved, in proofs/Words.antt; operations on words and names are
//! cases, in cases/texts.txt and cases/names.txt.

use crate::fixture::unit;
use sift_base::UnitSet;

#[test]
fn sets_of_units_are_their_bits(rt: HostRuntime) {
    let some = UnitSet::empty().with(unit(1)).with(unit(4));
    let cases = [
        (UnitSet::empty(), 0, 0),
        (some, 0b1_0010, 2),
        (some.with(unit(4)), 0b1_0010, 2), // again
        (some.with(unit(7)), 0b1001_0010, 3),
        (some.without(unit(1)), 0b1_0000, 1),
        (some.without(unit(0)), 0b1_0010, 2), // which isn't there
        (some.union(UnitSet::of_bits(0b11)), 0b1_0011, 3),
        (some.minus(UnitSet::of_bits(0b11)), 0b1_0000, 1),
        (UnitSet::of_bits(255), 255, 8),
    ];
    for (set, bits, len) in cases {
        assert_eq!(rt; (set.bits(), set.len()), (bits, len));
    }
    assert!(rt; some.has(unit(4)));
    assert!(rt; !some.has(unit(0)));
}
