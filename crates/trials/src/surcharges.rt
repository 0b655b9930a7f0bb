// Surcharge layers: the amount's limit, the cap, marks, and layers over layers.
use crate::lists::*;
use crate::told::*;
use book_layers::bar::BarLayer;
use book_layers::pile::cost_in_pile;
use book_layers::surcharge::SurchargeLayer;
use books::book::CostBook;
use books::fault::BookFault;
use std::test::Fail;

#[test]
fn each_marked_end_adds_the_amount(rt: HostRuntime) -> Result<(), Fail> {
    let mut layer = SurchargeLayer::new(book_of_255(rt.alloc())?);
    assert_eq!(rt; layer.count(), 256);
    assert_eq!(rt; layer.cost(0, 9), Ok(Some(9)));
    assert_eq!(rt; layer.set_amount(100), Ok(()));
    assert_eq!(rt; layer.cost(0, 9), Ok(Some(9)));
    assert_eq!(rt; layer.set_mark(9, true), Ok(()));
    assert_eq!(rt; layer.cost(0, 9), Ok(Some(109)));
    assert_eq!(rt; layer.cost(9, 0), Ok(Some(109)));
    assert_eq!(rt; layer.cost(0, 8), Ok(Some(8)));
    assert_eq!(rt; layer.set_mark(0, true), Ok(()));
    assert_eq!(rt; layer.set_mark(0, true), Ok(()));
    assert_eq!(rt; layer.cost(0, 9), Ok(Some(209)));
    assert_eq!(rt; layer.cost(9, 10), Ok(None));
    assert_eq!(rt; layer.set_mark(9, false), Ok(()));
    assert_eq!(rt; layer.cost(9, 0), Ok(Some(109)));
    assert_eq!(rt; layer.set_mark(0, false), Ok(()));
    assert_eq!(rt; layer.cost(9, 0), Ok(Some(9)));
    Ok(())
}

#[test]
fn the_amount_and_the_sum_have_a_limit(rt: HostRuntime) -> Result<(), Fail> {
    let mut layer = SurchargeLayer::new(book_of_255(rt.alloc())?);
    assert_eq!(rt; layer.set_mark(1, true), Ok(()));
    assert_eq!(rt; layer.set_amount(999_999), Ok(()));
    assert_eq!(rt; layer.cost(0, 1), Ok(Some(1_000_000)));
    assert_eq!(rt; layer.set_amount(1_000_000), Ok(()));
    assert_eq!(rt; layer.cost(0, 1), Ok(Some(1_000_000)));
    assert_eq!(rt; layer.set_mark(0, true), Ok(()));
    assert_eq!(rt; layer.cost(0, 1), Ok(Some(1_000_000)));
    assert_eq!(rt; layer.set_amount(3), Ok(()));
    assert_eq!(rt; refused(layer.set_amount(1_000_001)), plain(5));
    assert_eq!(rt; layer.cost(0, 1), Ok(Some(7)));
    assert_eq!(rt; refused(layer.set_mark(256, true)), naming(8, 256));
    assert_eq!(rt; refused(layer.set_mark(257, false)), naming(8, 257));
    assert_eq!(rt; layer.cost(0, 1), Ok(Some(7)));
    assert_eq!(rt; layer.cost(256, 1), Err(BookFault::PieceOutside(256)));
    Ok(())
}

#[test]
fn layers_pile(rt: HostRuntime) -> Result<(), Fail> {
    let mut low = BarLayer::new(rt.alloc(), book_of_255(rt.alloc())?)?;
    assert_eq!(rt; low.bar(0, 1), Ok(()));
    let mut middle = SurchargeLayer::new(low);
    assert_eq!(rt; middle.set_amount(10), Ok(()));
    assert_eq!(rt; middle.set_mark(2, true), Ok(()));
    let mut top = BarLayer::new(rt.alloc(), middle)?;
    assert_eq!(rt; top.bar(0, 3), Ok(()));
    assert_eq!(rt; cost_in_pile(&top, 0, 1), Ok(None));
    assert_eq!(rt; cost_in_pile(&top, 0, 2), Ok(Some(12)));
    assert_eq!(rt; cost_in_pile(&top, 3, 0), Ok(None));
    assert_eq!(rt; cost_in_pile(&top, 0, 4), Ok(Some(4)));
    assert_eq!(rt;
        cost_in_pile(&top, 0, 256),
        Err(BookFault::PieceOutside(256))
    );
    Ok(())
}
