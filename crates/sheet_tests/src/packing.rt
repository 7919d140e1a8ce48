// Packing and reading back: sheets of several widths, and every refusal of a pack.
use rows::refusal::Refusal;
use rows::row_words::RowWords;
use rows::width::Width;
use sheet::pack::pack;
use sheet::round_trip::pack_then_read;
use std::test::Fail;

// The rows 0011, 01-- and 10-0, and their sheet at width 4
pub(super) const ROWS: [RowWords; 3] = [
    RowWords {
        value: 0b0011,
        care: 0b1111,
    },
    RowWords {
        value: 0b0100,
        care: 0b1100,
    },
    RowWords {
        value: 0b1000,
        care: 0b1101,
    },
];

pub(super) const SHEET: [u8; 5] = [0x18, 0x30, 0x05, 0x1a, 0x48];

#[test]
fn empty_sheet_is_a_header(rt: HostRuntime) -> Result<(), Fail> {
    let mut memory = [7; 3];
    let rows = [];
    assert_eq!(rt; pack(Width::try_from(4)?, &rows, &mut memory), Ok(2));
    assert_eq!(rt; memory, [0x18, 0x00, 7]);
    Ok(())
}

#[test]
fn worked_example(rt: HostRuntime) -> Result<(), Fail> {
    let mut memory = [7; 6];
    assert_eq!(rt; pack(Width::try_from(4)?, &ROWS, &mut memory), Ok(5));
    assert_eq!(rt; &memory[..5], SHEET.as_slice());
    assert_eq!(rt; memory[5], 7);
    Ok(())
}

#[test]
fn rows_are_read_by_making(rt: HostRuntime) -> Result<(), Fail> {
    let rows = [RowWords {
        value: 0b111,
        care: 0b101,
    }];
    let mut memory = [0; 3];
    let mut back = [RowWords::default(); 1];
    assert_eq!(rt;
        pack_then_read(Width::try_from(3)?, &rows, &mut memory, &mut back)?.count,
        1
    );
    assert_eq!(rt; memory, [0x10, 0x10, 0b01_10_01_00]);
    assert_eq!(rt;
        back,
        [RowWords {
            value: 0b101,
            care: 0b101,
        }]
    );
    Ok(())
}

#[test]
fn width_1(rt: HostRuntime) -> Result<(), Fail> {
    let rows = [
        RowWords { value: 0, care: 1 },
        RowWords { value: 1, care: 1 },
        RowWords::default(),
    ];
    let mut memory = [0; 3];
    let mut back = [RowWords::default(); 3];
    assert_eq!(rt;
        pack_then_read(Width::try_from(1)?, &rows, &mut memory, &mut back)?.width,
        Width::try_from(1)?
    );
    assert_eq!(rt; memory, [0x00, 0x30, 0b00_01_10_00]);
    assert_eq!(rt; back, rows);
    Ok(())
}

#[test]
fn width_31(rt: HostRuntime) -> Result<(), Fail> {
    let rows = [
        RowWords {
            value: 0x4000_0001,
            care: 0x7fff_ffff,
        },
        RowWords {
            value: 0,
            care: 0x4000_0000,
        },
    ];
    let mut memory = [0; 18];
    let mut back = [RowWords::default(); 2];
    assert_eq!(rt;
        pack_then_read(Width::try_from(31)?, &rows, &mut memory, &mut back)?.count,
        2
    );
    assert_eq!(rt; memory[0], 0xf0);
    assert_eq!(rt; memory[1], 0x20);
    assert_eq!(rt; memory[2], 0b01_00_00_00);
    assert_eq!(rt; memory[9], 0b00_00_01_00);
    assert_eq!(rt; memory[10], 0b10_10_10_10);
    assert_eq!(rt; memory[17], 0b10_10_00_00);
    assert_eq!(rt; back, rows);
    Ok(())
}

#[test]
fn full_sheet_has_962_bytes(rt: HostRuntime) -> Result<(), Fail> {
    let mut rows = [RowWords::default(); 120];
    let mut word: u32 = 1;
    for row in rows.iter_mut() {
        word = word.wrapping_mul(0x9e37_79b1);
        let care = word.rotate_left(13);
        *row = RowWords {
            value: word & care,
            care,
        };
    }
    let mut memory = [0; 962];
    let mut back = [RowWords::default(); 120];
    assert_eq!(rt; pack(Width::try_from(32)?, &rows, &mut memory), Ok(962));
    assert_eq!(rt;
        pack_then_read(Width::try_from(32)?, &rows, &mut memory, &mut back)?.count,
        120
    );
    assert_eq!(rt; back, rows);
    Ok(())
}

#[test]
fn row_outside_comes_before_too_many_rows(rt: HostRuntime) -> Result<(), Fail> {
    let mut rows = [RowWords::default(); 121];
    rows[120] = RowWords {
        value: 0,
        care: 0b1000,
    };
    let mut memory = [7; 1];
    assert_eq!(rt;
        pack(Width::try_from(3)?, &rows, &mut memory),
        Err(Refusal::RowOutsideWidth)
    );
    assert_eq!(rt; memory, [7]);
    Ok(())
}

#[test]
fn too_many_rows_come_before_short_memory(rt: HostRuntime) -> Result<(), Fail> {
    let mut memory = [7; 1];
    assert_eq!(rt;
        pack(
            Width::try_from(3)?,
            &[RowWords::default(); 121],
            &mut memory
        ),
        Err(Refusal::TooManyRows)
    );
    assert_eq!(rt; memory, [7]);
    Ok(())
}

#[test]
fn short_memory_is_left_alone(rt: HostRuntime) -> Result<(), Fail> {
    let mut memory = [7; 91];
    assert_eq!(rt;
        pack(
            Width::try_from(3)?,
            &[RowWords::default(); 120],
            &mut memory
        ),
        Err(Refusal::MemoryTooShort)
    );
    assert_eq!(rt; memory, [7; 91]);
    Ok(())
}
