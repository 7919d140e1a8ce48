// Refused round trips: whatever is refused, both memories stay as they were.
use super::packing::{ROWS, SHEET};
use rows::refusal::Refusal;
use rows::row_words::RowWords;
use rows::width::Width;
use sheet::round_trip::{pack_then_read, read_then_pack};
use std::test::Fail;

const OTHER: RowWords = RowWords { value: 5, care: 9 };

// Whether these memories are as they were made.
fn untouched(bytes: &[u8], rows: &[RowWords]) -> bool {
    bytes.iter().all(|byte| *byte == 7) && rows.iter().all(|row| *row == OTHER)
}

// Whether packing and reading back are refused so at width 4, with so much memory for both, which stays as it was.
fn not_packed(rows: &[RowWords], sheet: &mut [u8], back: &mut [RowWords], why: Refusal) -> bool {
    let Ok(width) = Width::try_from(4) else {
        return false;
    };
    pack_then_read(width, rows, sheet, back) == Err(why) && untouched(sheet, back)
}

// Whether reading and packing again are refused so, with so much memory for both, which stays as it was.
fn not_read(sheet: &[u8], rows: &mut [RowWords], again: &mut [u8], why: Refusal) -> bool {
    read_then_pack(sheet, rows, again) == Err(why) && untouched(again, rows)
}

#[test]
fn rows_without_a_sheet_leave_both_memories(rt: HostRuntime) {
    let mut outside = ROWS;
    outside[2].care = 0b11101;
    let many = [ROWS[0]; 121];
    let mut both = [ROWS[0]; 121];
    both[120].care = 0b10000;
    // with room, and with too little of either
    for bytes in [0, 4, 5, 200] {
        for places in [0, 2, 3, 130] {
            let mut sheet = [7; 200];
            let mut back = [OTHER; 130];
            let sheet = &mut sheet[..bytes];
            let back = &mut back[..places];
            assert!(rt; not_packed(&outside, sheet, back, Refusal::RowOutsideWidth));
            assert!(rt; not_packed(&both, sheet, back, Refusal::RowOutsideWidth));
            assert!(rt; not_packed(&many, sheet, back, Refusal::TooManyRows));
        }
    }
}

#[test]
fn bytes_that_are_no_sheet_leave_both_memories(rt: HostRuntime) {
    let faulty: [(&[u8], Refusal); 8] = [
        (&[], Refusal::SheetTooShort),
        (&[0x18], Refusal::SheetTooShort),
        (&[0x1f, 0x90], Refusal::TooManyRows),
        (&[0x18, 0x30, 0x05, 0x1a], Refusal::SheetTooShort),
        (&[0x18, 0x30, 0x05, 0x1a, 0x4c], Refusal::UnknownSymbol),
        (&[0x18, 0x31, 0x05, 0x1a, 0x48], Refusal::SheetNotClean),
        (&[0x10, 0x10, 0x05], Refusal::SheetNotClean),
        (&[0x18, 0x30, 0x05, 0x1a, 0x48, 0], Refusal::SheetNotClean),
    ];
    // with room, and with too little of either
    for places in [0, 2, 3, 130] {
        for bytes in [0, 4, 5, 200] {
            let mut rows = [OTHER; 130];
            let mut again = [7; 200];
            for (sheet, why) in faulty {
                assert!(rt; not_read(sheet, &mut rows[..places], &mut again[..bytes], why));
            }
        }
    }
}

// every two lengths of which one is too short
#[test]
fn one_short_memory_leaves_both(rt: HostRuntime) {
    for bytes in 0..6 {
        for places in 0..4 {
            if bytes < 5 || places < 3 {
                let mut sheet = [7; 5];
                let mut back = [OTHER; 3];
                assert!(rt;
                    not_packed(
                        &ROWS,
                        &mut sheet[..bytes],
                        &mut back[..places],
                        Refusal::MemoryTooShort
                    )
                );
                assert!(rt;
                    not_read(
                        &SHEET,
                        &mut back[..places],
                        &mut sheet[..bytes],
                        Refusal::MemoryTooShort
                    )
                );
                // nor was anything written beyond what was lent
                assert!(rt; untouched(&sheet, &back));
            }
        }
    }
}

#[test]
fn what_lies_beyond_is_left_alone(rt: HostRuntime) -> Result<(), Fail> {
    let mut sheet = [7; 8];
    let mut back = [OTHER; 4];
    assert_eq!(rt;
        pack_then_read(Width::try_from(4)?, &ROWS, &mut sheet, &mut back)?.count,
        3
    );
    assert_eq!(rt; sheet, [0x18, 0x30, 0x05, 0x1a, 0x48, 7, 7, 7]);
    assert_eq!(rt; back, [ROWS[0], ROWS[1], ROWS[2], OTHER]);
    let mut rows = [OTHER; 5];
    let mut again = [7; 6];
    assert_eq!(rt; read_then_pack(&SHEET, &mut rows, &mut again), Ok(5));
    assert_eq!(rt; rows, [ROWS[0], ROWS[1], ROWS[2], OTHER, OTHER]);
    assert_eq!(rt; again, [0x18, 0x30, 0x05, 0x1a, 0x48, 7]);
    Ok(())
}
