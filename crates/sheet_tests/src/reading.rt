// Reading: every refusal, and its order against the next one.
use rows::refusal::Refusal;
use rows::row_words::RowWords;
use rows::width::Width;
use sheet::read::read;
use sheet::round_trip::read_then_pack;
use sheet::sheet_size::SheetSize;
use std::test::Fail;

const OTHER: RowWords = RowWords { value: 5, care: 9 };

// Whether reading is refused so, with memory for one row that stays as it was.
fn refused(bytes: &[u8], refusal: Refusal) -> bool {
    let mut memory = [OTHER; 1];
    read(bytes, &mut memory) == Err(refusal) && memory == [OTHER; 1]
}

#[test]
fn a_header_needs_two_bytes(rt: HostRuntime) {
    assert!(rt; refused(&[], Refusal::SheetTooShort));
    assert!(rt; refused(&[0x18], Refusal::SheetTooShort));
}

// the header asks for 121 rows, and none is there
#[test]
fn too_many_rows_come_before_missing_bytes(rt: HostRuntime) {
    assert!(rt; refused(&[0x1f, 0x90], Refusal::TooManyRows));
}

// two rows of width 4, of which one is there, and begins with an unknown symbol
#[test]
fn missing_bytes_come_before_unknown_symbols(rt: HostRuntime) {
    assert!(rt; refused(&[0x18, 0x20, 0b11_00_00_00], Refusal::SheetTooShort));
}

// one row of width 3: its last symbol is unknown, a bit of the header and the filling are no zeros, and a byte is left over
#[test]
fn unknown_symbols_come_before_wrong_zeros(rt: HostRuntime) {
    assert!(rt; refused(&[0x10, 0x10, 0b00_00_11_00], Refusal::UnknownSymbol));
    assert!(rt; refused(&[0x10, 0x11, 0b00_00_11_11, 0], Refusal::UnknownSymbol));
}

// two rows of width 3, and memory for one
#[test]
fn wrong_zeros_come_before_short_memory(rt: HostRuntime) {
    assert!(rt; refused(&[0x10, 0x21, 0x00, 0x00], Refusal::SheetNotClean));
    assert!(rt; refused(&[0x10, 0x28, 0x00, 0x00], Refusal::SheetNotClean));
    assert!(rt; refused(&[0x10, 0x20, 0x00, 0x01], Refusal::SheetNotClean));
    assert!(rt; refused(&[0x10, 0x20, 0x00, 0x08], Refusal::SheetNotClean));
    assert!(rt; refused(&[0x10, 0x20, 0x00, 0x00, 0x00], Refusal::SheetNotClean));
    assert!(rt; refused(&[0x10, 0x20, 0x00, 0x00], Refusal::MemoryTooShort));
}

#[test]
fn memory_beyond_the_rows_is_left_alone(rt: HostRuntime) -> Result<(), Fail> {
    let mut memory = [OTHER; 3];
    assert_eq!(rt;
        read(&[0x10, 0x20, 0b00_01_10_10, 0b01_00_00_00], &mut memory),
        Ok(SheetSize {
            width: Width::try_from(3)?,
            count: 2,
        })
    );
    assert_eq!(rt;
        memory,
        [
            RowWords {
                value: 0b010,
                care: 0b110,
            },
            RowWords {
                value: 0b010,
                care: 0b011,
            },
            OTHER,
        ]
    );
    Ok(())
}

#[test]
fn what_is_accepted_packs_to_its_own_bytes(rt: HostRuntime) {
    let mut rows = [OTHER; 3];
    let mut again = [7; 5];
    assert_eq!(rt;
        read_then_pack(&[0x18, 0x30, 0x05, 0x1a, 0x48], &mut rows, &mut again),
        Ok(5)
    );
    assert_eq!(rt; again, [0x18, 0x30, 0x05, 0x1a, 0x48]);
}
