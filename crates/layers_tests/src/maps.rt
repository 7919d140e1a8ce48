// The line maps by themselves, on numbers and rows of five digits.
use layers::flip::Flip;
use layers::line_map::LineMap;
use layers::turn::Turn;
use rows::row::Row;
use rows::width::Width;
use std::test::Fail;

#[test]
fn flips_the_marked_places_of_the_width(rt: HostRuntime) -> Result<(), Fail> {
    let width = Width::try_from(5)?;
    let flip = Flip { mask: 0b1110_0110 };
    assert_eq!(rt; flip.number_there(width, 0b01010), 0b01100);
    assert_eq!(rt; flip.number_back(width, 0b01100), 0b01010);
    // 10-10 to 10-00: the mark at the dash is passed over
    let row = Row::new(0b10010, 0b11011);
    let carried = flip.row_there(width, row);
    assert_eq!(rt; carried, Row::new(0b10000, 0b11011));
    assert_eq!(rt; flip.row_back(width, carried), row);
    Ok(())
}

#[test]
fn turns_the_places_of_the_width(rt: HostRuntime) -> Result<(), Fail> {
    let width = Width::try_from(5)?;
    assert_eq!(rt; Turn.number_there(width, 0b00101), 0b10100);
    assert_eq!(rt; Turn.number_back(width, 0b10100), 0b00101);
    // 1-010 to 010-1
    let row = Row::new(0b10010, 0b10111);
    let carried = Turn.row_there(width, row);
    assert_eq!(rt; carried, Row::new(0b01001, 0b11101));
    assert_eq!(rt; Turn.row_back(width, carried), row);
    Ok(())
}
