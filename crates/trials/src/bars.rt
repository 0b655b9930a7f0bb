// Bar layers: 64 and 65 bars, and every refusal.
use crate::lists::*;
use crate::told::*;
use book_layers::bar::BarLayer;
use books::book::CostBook;
use books::fault::BookFault;
use list_book::list::ListBook;
use std::alloc::Global;
use std::test::Fail;

fn layer_of(heap: Global) -> Result<BarLayer<ListBook>, Fail> {
    let layer = BarLayer::new(heap, book_of_255(heap)?)?;
    Ok(layer)
}

#[test]
fn a_bar_comes_and_goes(rt: HostRuntime) -> Result<(), Fail> {
    let mut layer = layer_of(rt.alloc())?;
    assert_eq!(rt; layer.count(), 256);
    assert_eq!(rt; layer.bar(3, 0), Ok(()));
    assert_eq!(rt; layer.cost(0, 3), Ok(None));
    assert_eq!(rt; layer.cost(3, 0), Ok(None));
    assert_eq!(rt; layer.cost(0, 4), Ok(Some(4)));
    assert_eq!(rt; layer.bar(0, 3), Ok(()));
    assert_eq!(rt; layer.lift(0, 3), Ok(true));
    assert_eq!(rt; layer.lift(3, 0), Ok(false));
    assert_eq!(rt; layer.cost(0, 3), Ok(Some(3)));
    // A pair that the book bars stays barred when it is lifted.
    assert_eq!(rt; layer.bar(1, 2), Ok(()));
    assert_eq!(rt; layer.lift(1, 2), Ok(true));
    assert_eq!(rt; layer.cost(1, 2), Ok(None));
    assert_eq!(rt; layer.cost(0, 256), Err(BookFault::PieceOutside(256)));
    Ok(())
}

#[test]
fn pieces_outside_come_before_equal_ones(rt: HostRuntime) -> Result<(), Fail> {
    let mut layer = layer_of(rt.alloc())?;
    let told = [
        (256, 0, naming(8, 256)),
        (0, 257, naming(8, 257)),
        (258, 257, naming(8, 258)),
        (256, 256, naming(8, 256)),
        (255, 255, naming(9, 255)),
    ];
    for (i, j, refusal) in told {
        assert_eq!(rt; refused(layer.bar(i, j)), refusal);
        assert_eq!(rt; refused(layer.lift(i, j)), refusal);
    }
    Ok(())
}

#[test]
fn sixty_four_bars_and_no_more(rt: HostRuntime) -> Result<(), Fail> {
    let mut layer = layer_of(rt.alloc())?;
    for j in 1..=64 {
        assert_eq!(rt; layer.bar(0, j), Ok(()));
    }
    assert_eq!(rt; refused(layer.bar(0, 65)), plain(10));
    assert_eq!(rt; layer.cost(0, 65), Ok(Some(65)));
    assert_eq!(rt; layer.bar(64, 0), Ok(()));
    assert_eq!(rt; refused(layer.bar(256, 0)), naming(8, 256));
    assert_eq!(rt; refused(layer.bar(7, 7)), naming(9, 7));
    assert_eq!(rt; layer.lift(65, 0), Ok(false));
    assert_eq!(rt; layer.lift(0, 1), Ok(true));
    assert_eq!(rt; layer.bar(0, 65), Ok(()));
    assert_eq!(rt; layer.cost(0, 65), Ok(None));
    assert_eq!(rt; layer.cost(0, 1), Ok(Some(1)));
    assert_eq!(rt; refused(layer.bar(0, 66)), plain(10));
    Ok(())
}
