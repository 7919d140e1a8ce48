// Tests of the calls on widths, rows, ranges and witnesses.
#![tactic(auto)]

#[cfg(test)]
mod witnesses;

#[cfg(test)]
mod tests {
    use covers::symbol::Symbol;
    use covers::theorems::worked_examples;
    use ranges::range::{MOST_ROWS, rows_of_range};
    use ranges::runs::{RunRows, add_rows_of_runs, rows_of_runs};
    use rows::range::Range;
    use rows::refusal::Refusal;
    use rows::row::Row;
    use rows::row_words::RowWords;
    use rows::width::Width;
    use std::test::Fail;

    const OLD: RowWords = RowWords { value: 7, care: 9 };

    #[test]
    fn widths_outside_1_to_32(rt: HostRuntime) -> Result<(), Fail> {
        assert_eq!(rt; Width::try_from(0), Err(Refusal::WidthOutOfRange));
        assert_eq!(rt; Width::try_from(33), Err(Refusal::WidthOutOfRange));
        assert_eq!(rt; Width::try_from(u64::MAX), Err(Refusal::WidthOutOfRange));
        assert_eq!(rt; Width::try_from(1)?.limit(), 2);
        assert_eq!(rt; Width::try_from(32)?.limit(), 4_294_967_296);
        Ok(())
    }

    #[test]
    fn the_worked_examples_are_ten(rt: HostRuntime) {
        assert_eq!(rt; worked_examples(), 10);
    }

    #[test]
    fn rows_by_making(rt: HostRuntime) {
        let row = Row::new(0b111, 0b101);
        assert_eq!(rt; row.value(), 0b101);
        assert_eq!(rt; row.care(), 0b101);
        assert_eq!(rt; row.symbol_at(0), Symbol::One);
        assert_eq!(rt; row.symbol_at(1), Symbol::Dash);
        assert_eq!(rt; row.symbol_at(40), Symbol::Dash);
        assert_eq!(rt;
            Row::from(RowWords { value: 2, care: 6 }).symbol_at(2),
            Symbol::Zero
        );
        assert!(rt; row.takes(0b111) && row.takes(0b101) && !row.takes(0b011));
    }

    #[test]
    fn memory_of_the_right_length(rt: HostRuntime) -> Result<(), Fail> {
        let width = Width::try_from(3)?;
        let mut memory = [OLD; 4];
        assert_eq!(rt; rows_of_range(width, Range::new(1, 6), &mut memory), Ok(3));
        assert_eq!(rt;
            memory[0],
            RowWords {
                value: 0b010,
                care: 0b110,
            }
        );
        assert_eq!(rt;
            memory[1],
            RowWords {
                value: 0b001,
                care: 0b011,
            }
        );
        assert_eq!(rt;
            memory[2],
            RowWords {
                value: 0b100,
                care: 0b101,
            }
        );
        assert_eq!(rt; memory[3], OLD);
        assert_eq!(rt;
            rows_of_range(width, Range::new(1, 6), &mut memory[0..3]),
            Ok(3)
        );
        Ok(())
    }

    // 0 to 4 at width 3 has the rows 0-- and 100; a range from 0 has as many rows as its last number plus 1 has ones,
    // none of which cares beyond the width.
    #[test]
    fn ranges_from_zero(rt: HostRuntime) -> Result<(), Fail> {
        let mut memory = [OLD; MOST_ROWS];
        let width = Width::try_from(3)?;
        assert_eq!(rt; rows_of_range(width, Range::new(0, 4), &mut memory), Ok(2));
        assert_eq!(rt; memory[0], RowWords { value: 0, care: 4 });
        assert_eq!(rt; memory[1], RowWords { value: 4, care: 7 });
        for places in 1..7 {
            let width = Width::try_from(places)?;
            for next in 1..=width.limit() {
                let count = rows_of_range(width, Range::new(0, next - 1), &mut memory)?;
                assert_eq!(rt; count, next.count_ones() as usize);
                for words in &memory[0..count] {
                    assert!(rt; u64::from(words.care) < width.limit());
                }
            }
        }
        Ok(())
    }

    #[test]
    fn refusals_leave_memory(rt: HostRuntime) -> Result<(), Fail> {
        let width = Width::try_from(3)?;
        let mut memory = [OLD; 2];
        assert_eq!(rt;
            rows_of_range(width, Range::new(1, 6), &mut memory),
            Err(Refusal::MemoryTooShort)
        );
        assert_eq!(rt;
            rows_of_range(width, Range::new(1, 8), &mut memory),
            Err(Refusal::NumberOutsideWidth)
        );
        assert_eq!(rt;
            rows_of_range(width, Range::new(8, 1), &mut memory),
            Err(Refusal::NumberOutsideWidth)
        );
        assert_eq!(rt;
            rows_of_range(width, Range::new(8, 1), &mut memory[0..0]),
            Err(Refusal::NumberOutsideWidth)
        );
        assert_eq!(rt;
            rows_of_range(width, Range::new(0, 7), &mut memory[0..0]),
            Err(Refusal::MemoryTooShort)
        );
        assert_eq!(rt; memory[0], OLD);
        assert_eq!(rt; memory[1], OLD);
        Ok(())
    }

    #[test]
    fn rows_of_several_runs(rt: HostRuntime) -> Result<(), Fail> {
        let width = Width::try_from(3)?;
        let runs = [Range::new(1, 2), Range::new(4, 5)];
        let rows = rows_of_runs(width, &runs, 3)?;
        assert_eq!(rt; rows.len(), 3);
        assert_eq!(rt; rows[0], RowWords { value: 1, care: 7 });
        assert_eq!(rt; rows[1], RowWords { value: 2, care: 7 });
        assert_eq!(rt; rows[2], RowWords { value: 4, care: 6 });
        assert_eq!(rt; rows_of_runs(width, &runs[0..0], 0)?.len(), 0);
        // first just above last: the whole circle
        assert_eq!(rt; rows_of_runs(width, &[Range::new(5, 4)], 1)?.len(), 1);
        Ok(())
    }

    #[test]
    fn runs_are_refused(rt: HostRuntime) -> Result<(), Fail> {
        let width = Width::try_from(3)?;
        let too_many = rows_of_runs(width, &[Range::new(1, 2), Range::new(4, 5)], 2).err();
        assert_eq!(rt; too_many, Some(Refusal::TooManyRows));
        // the end outside comes first, though the rows of the earlier run do not fit either
        let outside = rows_of_runs(width, &[Range::new(1, 2), Range::new(4, 8)], 1).err();
        assert_eq!(rt; outside, Some(Refusal::NumberOutsideWidth));
        Ok(())
    }

    // 1 to 2 ^ 32 - 2 has 32 rows: three such lists are 96 rows, and four are more than a device has slots.
    #[test]
    fn no_more_rows_than_slots(rt: HostRuntime) -> Result<(), Fail> {
        let width = Width::try_from(32)?;
        let runs = [Range::new(1, width.limit() - 2); 4];
        assert_eq!(rt; rows_of_runs(width, &runs[0..3], usize::MAX)?.len(), 96);
        let too_many = rows_of_runs(width, &runs, usize::MAX).err();
        assert_eq!(rt; too_many, Some(Refusal::TooManyRows));
        Ok(())
    }
    // The room is for the rows that are added; the list takes 120 in all.
    #[test]
    fn rows_of_runs_behind_others(rt: HostRuntime) -> Result<(), Fail> {
        let width = Width::try_from(3)?;
        let mut rows = RunRows::new();
        rows.push(OLD);
        let runs = [Range::new(1, 2), Range::new(4, 5)];
        let too_many = add_rows_of_runs(width, &runs, 2, &mut rows);
        assert_eq!(rt; too_many, Err(Refusal::TooManyRows));
        let outside = add_rows_of_runs(width, &[Range::new(1, 2), Range::new(4, 8)], 1, &mut rows);
        assert_eq!(rt; outside, Err(Refusal::NumberOutsideWidth));
        assert_eq!(rt; rows.len(), 1);
        assert_eq!(rt; rows[0], OLD);
        add_rows_of_runs(width, &runs, 3, &mut rows)?;
        assert_eq!(rt; rows.len(), 4);
        assert_eq!(rt; rows[0], OLD);
        assert_eq!(rt; rows[1], RowWords { value: 1, care: 7 });
        assert_eq!(rt; rows[2], RowWords { value: 2, care: 7 });
        assert_eq!(rt; rows[3], RowWords { value: 4, care: 6 });
        // a whole circle at a time, until the list is full
        for _ in rows.len()..120 {
            add_rows_of_runs(width, &[Range::new(5, 4)], 1, &mut rows)?;
        }
        assert_eq!(rt; rows.len(), 120);
        let full = add_rows_of_runs(width, &[Range::new(5, 4)], usize::MAX, &mut rows);
        assert_eq!(rt; full, Err(Refusal::TooManyRows));
        assert_eq!(rt; rows.len(), 120);
        add_rows_of_runs(width, &runs[0..0], 0, &mut rows)?;
        Ok(())
    }
}
