// A lent row, when its owner lends more places than before: as many stand in it as before.
use cable::row::Full;
use cable::row::lent::LentRow;
use std::test::*;

#[test]
fn more_places_are_lent(rt: HostRuntime) -> Result<(), Fail> {
    let mut none: [u8; 0] = [];
    let mut three: [u8; 3] = [0; 3];
    let five: [u8; 5] = [0; 5];
    let mut row = LentRow::new();
    assert_eq!(rt; row.leave(&mut none), None);
    assert_eq!(rt; row.len(&five), 0);
    assert_eq!(rt; row.extend_from_slice(&mut three, &[1, 2]), Ok(()));
    assert_eq!(rt; row.join(&mut three, 3), Ok(()));
    assert_eq!(rt; row.join(&mut three, 4), Err(Full));
    assert_eq!(rt; row.as_slice(&three), [1, 2, 3].as_slice());
    assert_eq!(rt; row.len(&five), 3);
    assert_eq!(rt; row.leave(&mut three), Some(1));
    assert_eq!(rt; row.extend_from_slice(&mut three, &[5]), Ok(()));
    assert_eq!(rt; row.as_slice(&three), [2, 3, 5].as_slice());
    assert_eq!(rt; row.len(&five), 3);
    Ok(())
}
