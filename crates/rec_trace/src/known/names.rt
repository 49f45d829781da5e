//! The rows that were named.
ghost use Rattle.std.specs.Prelude.{◌≡◌, ◌||◌, false, OnOk};
ghost use Rattle.rec_trace_events.specs.declared.rows.Row.{Row};
ghost use Rattle.rec_trace_events.specs.TraceEvents.{process_row};
ghost use Rattle.rec_spans.specs.Keys.{row_eq};
ghost use Rattle.rec_trace.specs.Entries.{EachRowSays, EachRowSaysBut, RowSays};
ghost use Rattle.rec_trace.specs.Held.{IsCountOf};
ghost use Rattle.rec_trace.specs.Known.{names};
ghost use Rattle.rec_trace.specs.KnownMaps.{HasRow, HasRows, row_named};

use rec_trace_events::Row;
use std::alloc::{AllocError, Global};
use std::collections::BTreeMap;

/// Says of rows whether they were named. The first row of a process stands for the process. An
/// entry of a row that wasn't named is room for its name,
/// and stays no longer than the event for which it was made.
#[derive(Drop)]
pub struct Names {
    rows: BTreeMap<Row, bool>,
}

impl Names {
    /// Makes the collection without a row that was named.
    pub fn new(alloc: Global) -> Names
        ensures none { (row : Row) → row_named result row ≡ false }
        ensures says { EachRowSays result }
    {
        Names {
            rows: BTreeMap::new(alloc),
        }
    }

    /// Returns whether a row was named.
    pub fn is_named(&self, row: Row) -> bool
        ensures { result ≡ row_named self.now row }
    {
        self.rows.get(&row).copied().unwrap_or(false)
    }

    /// Counts the rows that were named.
    pub fn count(&self) -> usize
        ensures { EachRowSays self.now → IsCountOf row_eq (row_named self.now) result }
    {
        // Each row that has an entry was named.
        self.rows.len()
    }

    /// Makes room for the names of a row and of its process. None is named by that,
    /// whatever the answer is.
    ///
    /// # Errors
    ///
    /// Fails only where memory ran out.
    pub fn make_room(&mut self, row: Option<Row>) -> Result<(), AllocError>
        ensures same { (other : Row) → row_named self.new other ≡ row_named self.old other }
        ensures room { OnOk result (HasRows row self.new) }
        ensures says { EachRowSays self.old → EachRowSaysBut row self.new }
    {
        let Some(row) = row else { return Ok(()) };
        self.make_row(row)?;
        self.make_row(first_row(row))
    }

    /// Makes room for the name of one row.
    fn make_row(&mut self, row: Row) -> Result<(), AllocError>
        ensures same { (other : Row) → row_named self.new other ≡ row_named self.old other }
        ensures room { OnOk result (HasRow row self.new) }
        ensures kept { (other : Row) → HasRow other self.old → HasRow other self.new }
        ensures says { (other : Row)
            → row_eq row other ≡ false
            → RowSays self.old other
            → RowSays self.new other }
    {
        if self.rows.contains_key(&row) {
            return Ok(());
        }
        // This says as much of the row as no entry.
        self.rows.insert(row, false)?;
        Ok(())
    }

    /// Names a row and its process, for which there is room. It takes no memory.
    pub fn name(&mut self, row: Option<Row>)
        requires { HasRows row self.old }
        ensures named { (other : Row)
            → row_named self.new other ≡ (names row other || row_named self.old other) }
        ensures says { EachRowSaysBut row self.old → EachRowSays self.new }
    {
        if let Some(row) = row {
            self.name_row(first_row(row));
            self.name_row(row);
        }
    }

    /// Takes the room away that was made for the names of a row and of its process,
    /// of those that weren't named.
    pub fn let_go(&mut self, row: Option<Row>)
        ensures same { (other : Row) → row_named self.new other ≡ row_named self.old other }
        ensures says { EachRowSaysBut row self.old → EachRowSays self.new }
    {
        if let Some(row) = row {
            self.let_go_row(first_row(row));
            self.let_go_row(row);
        }
    }

    /// Takes the room away that was made for the name of one row, unless it was named.
    fn let_go_row(&mut self, row: Row)
        ensures same { (other : Row) → row_named self.new other ≡ row_named self.old other }
        ensures says { (other : Row)
            → (row_eq row other ≡ false → RowSays self.old other)
            → RowSays self.new other }
    {
        if self.is_named(row) {
            return;
        }
        self.rows.remove(&row);
    }

    /// Names one row.
    fn name_row(&mut self, row: Row)
        requires { HasRow row self.old }
        ensures named { (other : Row)
            → row_named self.new other ≡ (row_eq row other || row_named self.old other) }
        ensures kept { (other : Row) → HasRow other self.old → HasRow other self.new }
        ensures says { (other : Row)
            → (row_eq row other ≡ false → RowSays self.old other)
            → RowSays self.new other }
    {
        // Only a new row can want memory.
        let Ok(_) = self.rows.insert(row, true) else {
            unreachable!()
        };
    }
}

/// Returns the first row of a row's process, which stands for it.
fn first_row(row: Row) -> Row
    ensures { result ≡ process_row row.pid }
{
    Row {
        pid: row.pid,
        tid: 0,
    }
}
