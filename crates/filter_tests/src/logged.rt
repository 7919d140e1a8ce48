// A column table beside memory that is lent, below whatever takes a device.
ghost use Rattle.std.specs.Prelude.{[]};

use column_table::ColumnTable;
use device::device::RowDevice;
use device::new_device::NewDevice;
use filter::filter::Filter;
use filter_calls::alike::answer_alike;
use filter_calls::call::FilterExchange;
use filter_calls::closing::replay_and_close;
use layers::layer::Layer;
use layers::turn::Turn;
use rows::refusal::Refusal;
use rows::row::Row;
use rows::width::Width;

// The tag of the filters.
const TAG: u64 = 7;

// It means what its table means, and counts in lent memory the rows that were put.
#[derive(Drop)]
struct Logged<'a> {
    table: ColumnTable,
    puts: &'a mut u32,
}

impl RowDevice for Logged<'_> {
    ghost use Rattle.column_table.specs.ColumnTables.{column_table_state};
    ghost use Rattle.column_table.specs.ColumnTableLaws.{column_table_lawful};

    ghost state = { λ d. column_table_state d.table };

    ghost lawful = { λ d. column_table_lawful d.table };

    ghost levels = { λ _. [] };

    ghost beneath = { λ _. tt };

    // it promises nothing of the count
    ghost keeps = { λ _ _ _. Unit {0} };

    ghost keeps_at_rest = { λ _. tt };

    ghost keeps_on = { λ _ _ _ _ _ _ _. tt };

    fn put(&mut self, slot: usize, row: Row) -> Result<(), Refusal> {
        self.table.put(slot, row)?;
        *self.puts = self.puts.saturating_add(1);
        Ok(())
    }

    fn empty(&mut self, slot: usize) -> Result<(), Refusal> {
        self.table.empty(slot)
    }

    fn read(&self, slot: usize) -> Result<Option<Row>, Refusal> {
        self.table.read(slot)
    }

    fn mute(&mut self, on: bool) {
        self.table.mute(on);
    }

    fn ask(&self, number: u64) -> Result<bool, Refusal> {
        self.table.ask(number)
    }

    fn width(&self) -> Width {
        self.table.width()
    }

    fn slot_count(&self) -> usize {
        self.table.slot_count()
    }
}

impl<'a> Logged<'a> {
    fn new(width: Width, puts: &'a mut u32) -> Logged<'a> {
        let table = ColumnTable::new(width, 3);
        Logged { table, puts }
    }
}

fn in_an_option<'a>(width: Width, puts: &'a mut u32) -> Option<Logged<'a>> {
    Some(Logged::new(width, puts))
}

// A turn above it, with the row in a slot.
fn in_a_layer<'a>(width: Width, puts: &'a mut u32, row: Row) -> Layer<Turn, Logged<'a>> {
    let mut layer = Layer::new(Turn, Logged::new(width, puts));
    let _ = layer.put(1, row);
    layer
}

// What it holds after a filter over it heard the calls.
fn in_a_filter<'a>(
    width: Width,
    puts: &'a mut u32,
    exchanges: &mut [FilterExchange],
) -> Logged<'a> {
    let filter = Filter::open(Logged::new(width, puts), TAG);
    replay_and_close(filter.into_device(), TAG, exchanges)
}

// The same beside a table.
fn beside_a_table<'a>(
    width: Width,
    puts: &'a mut u32,
    exchanges: &mut [FilterExchange],
    again: &mut [FilterExchange],
) -> (Logged<'a>, ColumnTable) {
    let table = ColumnTable::new(width, 3);
    answer_alike(Logged::new(width, puts), table, TAG, exchanges, again)
}

#[cfg(test)]
mod tests {
    use super::{TAG, beside_a_table, in_a_filter, in_a_layer, in_an_option};
    use device::device::RowDevice;
    use filter_calls::call::FilterCall;
    use rows::range::Range;
    use rows::row::Row;
    use rows::width::Width;
    use std::test::Fail;

    #[test]
    fn what_was_lent_is_counted_in(rt: HostRuntime) -> Result<(), Fail> {
        let width = Width::try_from(4)?;
        let mut puts = 0;
        let row = Row::new(0b0010, 0b0011);
        if let Some(mut logged) = in_an_option(width, &mut puts) {
            logged.put(2, row)?;
            assert_eq!(rt; logged.ask(0b1110), Ok(true));
        }
        assert_eq!(rt; puts, 1);
        let layer = in_a_layer(width, &mut puts, row);
        let (_, logged) = layer.into_parts();
        assert_eq!(rt; logged.read(1), Ok(Some(Row::new(0b0100, 0b1100))));
        assert_eq!(rt; puts, 2);
        Ok(())
    }

    #[test]
    fn it_hears_what_a_table_hears(rt: HostRuntime) -> Result<(), Fail> {
        let width = Width::try_from(4)?;
        let mut puts = 0;
        let mut exchanges = [FilterCall::Hold, FilterCall::add(TAG, Range::new(1, 3))].map(
            FilterCall::unanswered,
        );
        let mut again = exchanges;
        let logged = in_a_filter(width, &mut puts, &mut exchanges);
        assert_eq!(rt; logged.read(1), Ok(Some(Row::new(0b0001, 0b1111))));
        assert_eq!(rt; puts, 2);
        let (logged, table) = beside_a_table(width, &mut puts, &mut exchanges, &mut again);
        assert_eq!(rt; logged.read(1), table.read(1));
        assert_eq!(rt; exchanges[1].answer, again[1].answer);
        assert_eq!(rt; puts, 4);
        Ok(())
    }
}
