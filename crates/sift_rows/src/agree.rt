//! Relays that catch nobody. Rows of agreement on fewer words than a flight has are proved, in proofs/Agreed.antt; the others
//! are cases, in cases/sensors.txt.

use sift_agree::relay_catches;
use sift_base::Word;

#[test]
fn no_relay_catches_nobody(rt: HostRuntime) {
    let caught = relay_catches(Word::of(9), &[], &[]);
    assert_eq!(rt; caught.len(), 0);
}
