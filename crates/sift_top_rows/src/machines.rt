//! Machines over the missions of the rows: who steps.

use crate::stated::{FIVE, eight_units, silents, stated};
use sift_base::Draw;
use sift_core::Machine;
use sift_mission::Mission;
use std::alloc::Global;
use std::process::Abort;
use std::test::Fail;

/// Who steps last in each of the first thirty turns of five units, by the order number. In its first subframe unit 0 says
/// its clock and the sensor to the four others, and each other unit its clock; in the second no one says or hears a word,
/// and a unit waits until all have come to it; in the third each hears the others' clocks first.
const TURNS_OF_FIVE: [(u64, &str); 3] = [
    (0, "242101404432200203134003301102"),
    (1, "431040024132204200200011431333"),
    (2, "021404330232441403102300010212"),
];

/// And of the first hundred turns of eight units.
const TURNS_OF_EIGHT: [(u64, &str); 3] = [
    (
        0,
        "7014530703726546123365725317361024132706031150704607100024200656024445560340461305125470150671670550",
    ),
    (
        1,
        "6146232612324024274535625040107245600045740056057000005163761111773337351474167513722103066076125430",
    ),
    (
        2,
        "4200734612722202256706425670736456311404743740070631600103300015513155542520665021627625665173562210",
    ),
];

fn expect_turns(
    rt: &impl Abort,
    alloc: Global,
    mission: &Mission,
    order: u64,
    want: &[u8],
) -> Result<(), Fail> {
    let mut machine = Machine::make(alloc, mission)?;
    let mut drawer = Draw::of(order);
    let mut rogues = silents(alloc)?;
    for &digit in want {
        let last = machine
            .turn(mission, &mut drawer, &mut rogues)
            .ok_or("units have yet to land")?;
        assert_eq!(rt; last.get() + 48, digit);
    }
    Ok(())
}

fn expect_orders(
    rt: &impl Abort,
    alloc: Global,
    mission: &Mission,
    orders: &[(u64, &str)],
) -> Result<(), Fail> {
    for &(order, want) in orders {
        expect_turns(rt, alloc, mission, order, want.as_bytes())?;
    }
    Ok(())
}

#[test]
fn the_order_number_draws_who_of_five_steps(rt: HostRuntime) -> Result<(), Fail> {
    let five = stated(rt.alloc(), FIVE)?;
    expect_orders(&rt, rt.alloc(), &five, &TURNS_OF_FIVE)
}

#[test]
fn the_order_number_draws_who_of_eight_steps(rt: HostRuntime) -> Result<(), Fail> {
    let eight = eight_units(rt.alloc())?;
    expect_orders(&rt, rt.alloc(), &eight, &TURNS_OF_EIGHT)
}
