// The checks that write nothing: what they answer, and that packing and reading refuse the same.
use rows::refusal::Refusal;
use rows::row_words::RowWords;
use rows::width::Width;
use sheet::check::check;
use sheet::pack::packed_size;
use sheet::sheet_size::SheetSize;
use std::test::Fail;

#[test]
fn a_sheet_tells_its_size(rt: HostRuntime) -> Result<(), Fail> {
    assert_eq!(rt;
        check(&[0x18, 0x30, 0x05, 0x1a, 0x48]),
        Ok(SheetSize {
            width: Width::try_from(4)?,
            count: 3,
        })
    );
    assert_eq!(rt;
        check(&[0xf8, 0x00]),
        Ok(SheetSize {
            width: Width::try_from(32)?,
            count: 0,
        })
    );
    Ok(())
}

// each with the faults that come after it
#[test]
fn a_sheet_has_its_first_fault(rt: HostRuntime) {
    assert_eq!(rt; check(&[]), Err(Refusal::SheetTooShort));
    assert_eq!(rt; check(&[0xff]), Err(Refusal::SheetTooShort));
    assert_eq!(rt; check(&[0x1f, 0x9f]), Err(Refusal::TooManyRows));
    assert_eq!(rt; check(&[0x18, 0x2f, 0xff]), Err(Refusal::SheetTooShort));
    assert_eq!(rt;
        check(&[0x10, 0x1f, 0x0c, 0xff]),
        Err(Refusal::UnknownSymbol)
    );
    assert_eq!(rt; check(&[0x10, 0x11, 0x00]), Err(Refusal::SheetNotClean));
    assert_eq!(rt; check(&[0x10, 0x10, 0x01]), Err(Refusal::SheetNotClean));
    assert_eq!(rt;
        check(&[0x10, 0x10, 0x00, 0x00]),
        Err(Refusal::SheetNotClean)
    );
}

#[test]
fn rows_tell_the_size_of_their_sheet(rt: HostRuntime) -> Result<(), Fail> {
    let mut rows = [RowWords::default(); 121];
    assert_eq!(rt; packed_size(Width::try_from(32)?, &[]), Ok(2));
    assert_eq!(rt; packed_size(Width::try_from(1)?, &rows[..5]), Ok(4));
    assert_eq!(rt; packed_size(Width::try_from(32)?, &rows[..120]), Ok(962));
    assert_eq!(rt;
        packed_size(Width::try_from(32)?, &rows),
        Err(Refusal::TooManyRows)
    );
    rows[120].care = 0b1000;
    assert_eq!(rt;
        packed_size(Width::try_from(3)?, &rows),
        Err(Refusal::RowOutsideWidth)
    );
    Ok(())
}
