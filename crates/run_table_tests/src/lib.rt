// Tests of the table of runs and its edits.
#![tactic(auto)]

#[cfg(test)]
mod tests {
    use ranges::run_rows::{row_count, write_rows};
    use ranges::runs::rows_of_runs;
    use rows::edit::Edit;
    use rows::range::Range;
    use rows::refusal::Refusal;
    use rows::row_words::RowWords;
    use rows::width::Width;
    use run_table::table::RunTable;
    use std::test::Fail;

    #[test]
    fn joined_across_the_highest_number(rt: HostRuntime) -> Result<(), Fail> {
        let width = Width::try_from(3)?;
        let table = RunTable::empty().after_edit(width, Edit::Add(Range::new(6, 7)))?;
        assert_eq!(rt; table.get(0), Some((6, 7)));
        let table = table.after_edit(width, Edit::Add(Range::new(0, 1)))?;
        assert_eq!(rt; table.len(), 1);
        assert_eq!(rt; table.get(0), Some((6, 1)));
        assert_eq!(rt; table.get(1), None);
        assert!(rt; table.contains(7) && table.contains(0) && !table.contains(2));
        Ok(())
    }

    #[test]
    fn the_circle_by_pieces(rt: HostRuntime) -> Result<(), Fail> {
        let width = Width::try_from(3)?;
        let table = RunTable::empty().after_edit(width, Edit::Add(Range::new(5, 1)))?;
        let table = table.after_edit(width, Edit::Add(Range::new(3, 3)))?;
        assert_eq!(rt; table.get(0), Some((3, 3)));
        assert_eq!(rt; table.get(1), Some((5, 1)));
        let table = table.after_edit(width, Edit::Add(Range::new(4, 4)))?;
        let table = table.after_edit(width, Edit::Add(Range::new(2, 2)))?;
        assert_eq!(rt; table.len(), 1);
        assert_eq!(rt; table.get(0), Some((0, 7)));
        assert_eq!(rt; row_count(width, table.runs()), 1);
        assert_eq!(rt; rows_of_runs(width, table.runs(), 1)?.len(), 1);
        Ok(())
    }

    #[test]
    fn dropped_from_the_circle(rt: HostRuntime) -> Result<(), Fail> {
        let width = Width::try_from(3)?;
        let table = RunTable::whole(width).after_edit(width, Edit::Drop(Range::new(7, 7)))?;
        assert_eq!(rt; table.get(0), Some((0, 6)));
        let table = RunTable::whole(width).after_edit(width, Edit::Drop(Range::new(3, 3)))?;
        assert_eq!(rt; table.len(), 1);
        assert_eq!(rt; table.get(0), Some((4, 2)));
        assert_eq!(rt;
            table.after_edit(width, Edit::Drop(Range::new(4, 2)))?.len(),
            0
        );
        Ok(())
    }

    #[test]
    fn the_middle_of_a_run(rt: HostRuntime) -> Result<(), Fail> {
        let width = Width::try_from(32)?;
        let table = RunTable::empty().after_edit(width, Edit::Add(Range::new(4_294_967_290, 9)))?;
        let table = table.after_edit(width, Edit::Drop(Range::new(4_294_967_294, 3)))?;
        assert_eq!(rt; table.len(), 2);
        assert_eq!(rt; table.get(0), Some((4, 9)));
        assert_eq!(rt; table.get(1), Some((4_294_967_290, 4_294_967_293)));
        Ok(())
    }

    #[test]
    fn seventeen_runs_are_refused(rt: HostRuntime) -> Result<(), Fail> {
        let width = Width::try_from(6)?;
        let mut table = RunTable::empty();
        for i in 0..16 {
            table = table.after_edit(width, Edit::Add(Range::new(2 * i, 2 * i)))?;
        }
        assert_eq!(rt; table.len(), 16);
        assert!(rt;
            table
                .after_edit(width, Edit::Add(Range::new(40, 40)))
                .is_err()
        );
        assert_eq!(rt; table.len(), 16);
        assert!(rt; !table.contains(40));
        let table = table.after_edit(width, Edit::Add(Range::new(1, 1)))?;
        assert_eq!(rt; table.len(), 15);
        assert_eq!(rt; table.get(0), Some((0, 2)));
        assert_eq!(rt;
            table.after_edit(width, Edit::Add(Range::new(40, 3)))?.len(),
            14
        );
        Ok(())
    }

    #[test]
    fn ends_outside_the_width(rt: HostRuntime) -> Result<(), Fail> {
        let width = Width::try_from(3)?;
        let refusal = RunTable::empty()
            .after_edit(width, Edit::Add(Range::new(0, 8)))
            .err();
        assert_eq!(rt; refusal, Some(Refusal::NumberOutsideWidth));
        Ok(())
    }

    #[test]
    fn rows_of_all_runs(rt: HostRuntime) -> Result<(), Fail> {
        let width = Width::try_from(3)?;
        let table = RunTable::empty().after_edit(width, Edit::Add(Range::new(1, 2)))?;
        let table = table.after_edit(width, Edit::Add(Range::new(4, 5)))?;
        let refused = rows_of_runs(width, table.runs(), 2).err();
        assert_eq!(rt; refused, Some(Refusal::TooManyRows));
        let rows = rows_of_runs(width, table.runs(), 3)?;
        assert_eq!(rt; rows.len(), 3);
        assert_eq!(rt; rows[0], RowWords { value: 1, care: 7 });
        assert_eq!(rt; rows[1], RowWords { value: 2, care: 7 });
        assert_eq!(rt; rows[2], RowWords { value: 4, care: 6 });
        Ok(())
    }

    #[test]
    fn rows_of_all_runs_in_memory(rt: HostRuntime) -> Result<(), Fail> {
        let width = Width::try_from(3)?;
        let table = RunTable::empty().after_edit(width, Edit::Add(Range::new(1, 2)))?;
        let table = table.after_edit(width, Edit::Add(Range::new(4, 5)))?;
        let old = RowWords { value: 7, care: 7 };
        let mut memory = [old; 4];
        assert_eq!(rt;
            write_rows(width, table.runs(), &mut memory[0..2]),
            Err(Refusal::MemoryTooShort)
        );
        assert_eq!(rt; memory[0], old);
        assert_eq!(rt; write_rows(width, table.runs(), &mut memory), Ok(3));
        assert_eq!(rt; memory[0], RowWords { value: 1, care: 7 });
        assert_eq!(rt; memory[1], RowWords { value: 2, care: 7 });
        assert_eq!(rt; memory[2], RowWords { value: 4, care: 6 });
        assert_eq!(rt; memory[3], old);
        Ok(())
    }

    // More rows than any device has slots.
    #[test]
    fn more_rows_than_120(rt: HostRuntime) -> Result<(), Fail> {
        let width = Width::try_from(32)?;
        let mut table = RunTable::empty();
        for k in 0u64..5 {
            let run = Range::new(k * 268_435_456 + 1, k * 268_435_456 + 268_435_454);
            table = table.after_edit(width, Edit::Add(run))?;
        }
        assert_eq!(rt; table.len(), 5);
        assert_eq!(rt; row_count(width, table.runs()), 140);
        let old = RowWords { value: 7, care: 7 };
        let mut memory = [old; 141];
        assert_eq!(rt;
            write_rows(width, table.runs(), &mut memory[0..139]),
            Err(Refusal::MemoryTooShort)
        );
        assert_eq!(rt; memory[0], old);
        assert_eq!(rt;
            write_rows(width, table.runs(), &mut memory[0..140]),
            Ok(140)
        );
        assert!(rt; memory[0] != old && memory[139] != old);
        assert_eq!(rt; memory[140], old);
        Ok(())
    }

    // A run with an end outside the width has no rows.
    #[test]
    fn a_table_at_a_narrower_width(rt: HostRuntime) -> Result<(), Fail> {
        let built = Width::try_from(8)?;
        let table = RunTable::empty().after_edit(built, Edit::Add(Range::new(1, 2)))?;
        let table = table.after_edit(built, Edit::Add(Range::new(4, 5)))?;
        let table = table.after_edit(built, Edit::Add(Range::new(7, 200)))?;
        assert_eq!(rt; table.len(), 3);
        let width = Width::try_from(3)?;
        let refused = rows_of_runs(width, table.runs(), 120).err();
        assert_eq!(rt; refused, Some(Refusal::NumberOutsideWidth));
        assert_eq!(rt; row_count(width, table.runs()), 3);
        let old = RowWords { value: 7, care: 7 };
        let mut memory = [old; 4];
        assert_eq!(rt; write_rows(width, table.runs(), &mut memory), Ok(3));
        assert_eq!(rt; memory[0], RowWords { value: 1, care: 7 });
        assert_eq!(rt; memory[1], RowWords { value: 2, care: 7 });
        assert_eq!(rt; memory[2], RowWords { value: 4, care: 6 });
        assert_eq!(rt; memory[3], old);
        Ok(())
    }
}
