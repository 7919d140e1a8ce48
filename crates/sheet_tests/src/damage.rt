// One bit damaged at a time: the sheet is refused, or reads to other rows.
use rows::row_words::RowWords;
use sheet::read::read;

// Whether the bytes read to these two rows of width 3.
fn reads_to(bytes: &[u8], rows: [RowWords; 2]) -> bool {
    let mut memory = [RowWords::default(); 120];
    read(bytes, &mut memory).is_ok_and(|size| size.width.places() == 3 && size.count == 2)
        && memory.starts_with(&rows)
}

#[test]
fn no_bit_can_be_damaged_unseen(rt: HostRuntime) {
    let rows = [
        RowWords {
            value: 0b010,
            care: 0b110,
        },
        RowWords {
            value: 0b010,
            care: 0b011,
        },
    ];
    let whole = [0x10, 0x20, 0b00_01_10_10, 0b01_00_00_00];
    assert!(rt; reads_to(&whole, rows));
    // by index, since one byte of a copy is changed at a time
    for index in 0..4 {
        for mask in [0x80, 0x40, 0x20, 0x10, 0x08, 0x04, 0x02, 0x01] {
            let mut damaged = whole;
            damaged[index] ^= mask;
            assert!(rt; !reads_to(&damaged, rows));
        }
    }
}
