// The margins of pairs, and the total.
use crate::examples::*;
use crate::sheets::*;
use slips::fault::SlipFault;
use slips::slip::MOST_PRICE;
use std::test::Fail;

#[test]
fn a_margin_below_0_and_one_of_mates_above_0(rt: HostRuntime) -> Result<(), Fail> {
    let told: &[(Draft, &[Edit], SlipFault)] = &[
        // 0 and 1 are left with -1.
        (FOUR, &[Edit::Price(1, 2)], SlipFault::Prices(0, 1)),
        // Mates are left with 1, and then with -1.
        (FOUR, &[Edit::Price(0, 0)], SlipFault::Prices(0, 2)),
        (FOUR, &[Edit::Price(1, 0)], SlipFault::Prices(1, 3)),
        (FOUR, &[Edit::Price(2, 6)], SlipFault::Prices(0, 2)),
        (FOUR, &[Edit::Price(3, 6)], SlipFault::Prices(1, 3)),
        (FOUR, &[Edit::Price(2, 8)], SlipFault::Prices(0, 2)),
        (FOUR, &[Edit::Price(3, 8)], SlipFault::Prices(1, 3)),
        // Both pairs of mates are left with 2.
        (RISING, &[], SlipFault::Prices(0, 3)),
        // A group around one of the mates 2 and 3.
        (RINGS, &[Edit::Worth(1, 17)], SlipFault::Prices(2, 3)),
        (RINGS, &[Edit::Worth(2, 19)], SlipFault::Prices(2, 3)),
        (
            RINGS,
            &[Edit::Worth(1, MOST_PRICE)],
            SlipFault::Prices(2, 3),
        ),
        // Group 1 is around 0 and not 6, group 2 around 3 and not 2, group 3 around all but 7.
        (NEST, &[Edit::Worth(1, 3)], SlipFault::Prices(0, 6)),
        (NEST, &[Edit::Worth(1, 1)], SlipFault::Prices(2, 3)),
        (NEST, &[Edit::Worth(2, 5)], SlipFault::Prices(2, 3)),
        (NEST, &[Edit::Worth(3, 9)], SlipFault::Prices(0, 7)),
        (NEST, &[Edit::Worth(3, 7)], SlipFault::Prices(6, 7)),
    ];
    for &(draft, edits, fault) in told {
        answers(&rt, draft.sheet(rt.alloc())?, edits, Err(fault))?;
    }
    Ok(())
}

#[test]
fn other_prices_that_pass(rt: HostRuntime) -> Result<(), Fail> {
    let low = MOST_PRICE - 20;
    let passing: &[(Draft, &[Edit])] = &[
        // The margin of 2 and 3 is 0 too.
        (
            FOUR,
            &[
                Edit::Price(0, -2),
                Edit::Price(1, -2),
                Edit::Price(2, 10),
                Edit::Price(3, 10),
            ],
        ),
        // Pairs with a struck piece have no margin.
        (STRUCK, &[Edit::Price(0, 100), Edit::Price(1, -98)]),
        // Groups at the greatest price.
        (
            RINGS,
            &[
                Edit::Price(2, -low),
                Edit::Price(3, -low),
                Edit::Worth(1, MOST_PRICE),
                Edit::Worth(2, MOST_PRICE),
            ],
        ),
        (
            COUPLE,
            &[Edit::Price(0, -MOST_PRICE), Edit::Price(1, MOST_PRICE)],
        ),
    ];
    for &(draft, edits) in passing {
        answers(&rt, draft.sheet(rt.alloc())?, edits, Ok(()))?;
    }
    // The margin of 2 and 3 is -1, those of the mates are 0.
    let last = [
        Edit::Price(0, -2),
        Edit::Price(1, -3),
        Edit::Price(2, 10),
        Edit::Price(3, 11),
    ];
    answers(
        &rt,
        FOUR.sheet(rt.alloc())?,
        &last,
        Err(SlipFault::Prices(2, 3)),
    )
}

#[test]
fn the_total_is_what_the_mates_cost(rt: HostRuntime) -> Result<(), Fail> {
    let told = [
        (COUPLE, 1),
        (FOUR, 7),
        (FOUR, 9),
        (FOUR, 0),
        (FOUR, 16),
        (FOUR, 4_294_967_295),
        (STRUCK, 0),
        (STRUCK, 2),
        (RINGS, 25),
        (NEST, 6),
        (NEST, 8),
    ];
    for (draft, total) in told {
        answers(
            &rt,
            draft.sheet(rt.alloc())?,
            &[Edit::Total(total)],
            Err(SlipFault::Total),
        )?;
    }
    Ok(())
}
