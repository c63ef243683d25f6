// The console's own port rows: `rows` sets them, `table` tells them.
ghost use Rattle.std.specs.Prelude.{[], ◌∷◌, ◌++◌, Some, codes};
ghost use Rattle.lines.specs.Numbers.{numbers_text};

use lines::{Fields, MOST_NUMBERS, NumbersText, Unreadable};
use ports::{NO_ROW, Row};
use std::fmt;
use steps::{HalfWatts, Ma10};

// One row more than the sharing calls take, so that a table too long can be shown to be refused.
const MOST_ROWS: usize = 9;

// The rows from one line to the next, in an array with a count, since the console has no heap.
#[derive(Clone, Copy)]
pub(crate) struct Table {
    rows: [Row; MOST_ROWS],
    count: u16,
}

impl Table {
    // Before the first `rows` line there is no row.
    pub(crate) fn new() -> Table {
        Table {
            rows: [NO_ROW; MOST_ROWS],
            count: 0,
        }
    }

    pub(crate) fn rows(&self) -> &[Row] {
        &self.rows[..usize::from(self.count).min(MOST_ROWS)]
    }

    pub(crate) fn rows_mut(&mut self) -> &mut [Row] {
        &mut self.rows[..usize::from(self.count).min(MOST_ROWS)]
    }
}

// `M W C P HELD`
fn take_row(fields: &mut Fields<'_>) -> Result<Row, Unreadable> {
    Ok(Row {
        max: HalfWatts(fields.number()?),
        pps: fields.number()?,
        cable: Ma10(fields.number()?),
        present: HalfWatts(fields.number()?),
        held: HalfWatts(fields.number()?),
    })
}

// How many rows there are.
#[derive(Clone, Copy)]
pub(crate) struct CountText(u16);

impl fmt::Display for CountText {
    ghost output = { λ c. Some (codes "rows" ++ numbers_text (c.0 ∷ [])) };

    fn fmt<W: fmt::Write>(&self, f: &mut fmt::Formatter<W>) -> fmt::Result {
        write!(f, "rows{}", NumbersText(&[self.0]))
    }
}

// How many rows there are, and the five numbers of each.
#[derive(Clone, Copy)]
pub(crate) struct TableText<'a>(&'a Table);

impl fmt::Display for TableText<'_> {
    fn fmt<W: fmt::Write>(&self, f: &mut fmt::Formatter<W>) -> fmt::Result {
        // `MOST_NUMBERS` is the count and five numbers for each of `MOST_ROWS`.
        let mut numbers = [0; MOST_NUMBERS];
        numbers[0] = self.0.count;
        let rows = self.0.rows();
        for (five, row) in numbers[1..].chunks_exact_mut(5).zip(rows) {
            let Row {
                max,
                pps,
                cable,
                present,
                held,
            } = *row;
            five.copy_from_slice(&[max.0, u16::from(pps), cable.0, present.0, held.0]);
        }
        let told = numbers.get(..1 + 5 * rows.len()).unwrap_or(&numbers);
        write!(f, "rows{}", NumbersText(told))
    }
}

// Five numbers a row, for none to nine rows. They come in place of those before.
pub(crate) fn rows_line(
    table: &mut Table,
    mut fields: Fields<'_>,
) -> Result<CountText, Unreadable> {
    let mut new = Table::new();
    for row in &mut new.rows {
        if fields.is_at_end() {
            break;
        }
        *row = take_row(&mut fields)?;
        new.count = new.count.saturating_add(1);
    }
    fields.end()?;
    *table = new;
    Ok(CountText(table.count))
}

pub(crate) fn table_line<'a>(
    table: &'a Table,
    fields: Fields<'_>,
) -> Result<TableText<'a>, Unreadable> {
    fields.end()?;
    Ok(TableText(table))
}
