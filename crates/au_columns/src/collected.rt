//! Rows that are put one behind the other.
ghost use Rattle.std.specs.Prelude.{◌≡◌, ◌<◌, ◌+◌, ◌++◌, [], IfOk, length, map};
ghost use Rattle.au_columns.specs.Batches.{AreAlike, AreLong, joined, rows_of};

use crate::batch::Batch;
use crate::column::Column;
use au_value::NoMemory;
use std::alloc::Global;
use std::marker::Model;
use std::sync::Arc;

/// Rows that are put one behind the other, in columns of their own. Contracts see the rows.
#[derive(Drop)]
pub struct Collected {
    count: usize,
    columns: Vec<Column>,
}

impl Model for Collected {
    ghost use Rattle.au_codes.specs.Codes.{CellRows};
    ghost use Rattle.au_columns.specs.Batches.{AreLong, rows_of};

    ghost Value = { CellRows };

    ghost view = { λ c. rows_of c.count c.columns.items };

    ghost invariant = { λ c. AreLong c.count c.columns.items };
}

impl Collected {
    /// No rows.
    pub fn new(alloc: Global) -> Collected
        ensures { result ≡ [] }
    {
        Collected {
            count: 0,
            columns: Vec::new(alloc),
        }
    }

    /// The rows with those of a batch behind them. All have as many columns.
    pub fn put(self, alloc: Global, rows: &Batch) -> Result<Collected, NoMemory>
        requires { AreAlike self rows.now }
        ensures { IfOk result (λ c. c ≡ self ++ rows.now) }
    {
        let added = rows.len();
        if added == 0 {
            return Ok(self);
        }
        let Some(count) = self.count.checked_add(added) else {
            return Err(NoMemory);
        };
        let more = rows.columns();
        let columns = behind(alloc, self.count, self.columns, added, more)?;
        Ok(Collected { count, columns })
    }

    /// The rows as a batch.
    pub fn batch(self, alloc: Global) -> Result<Batch, NoMemory>
        ensures { IfOk result (λ b. b ≡ self) }
    {
        let count = self.count;
        let columns = shareable(alloc, self.columns)?;
        Ok(Batch::of(count, columns))
    }
}

// The columns of rows, with others behind them.
fn behind(
    alloc: Global,
    count: usize,
    columns: Vec<Column>,
    added: usize,
    more: &[Arc<Column>],
) -> Result<Vec<Column>, NoMemory>
    requires long { AreLong count columns.items }
    requires added { AreLong added (map (λ c. c.value) more.now) }
    requires some { 0 < added }
    requires alike { AreAlike (rows_of count columns.items) (rows_of added (map (λ c. c.value) more.now)) }
    ensures rows { IfOk result (λ v. rows_of (count + added) v.items ≡ rows_of count columns.items ++ rows_of added (map (λ c. c.value) more.now)) }
    ensures long { IfOk result (λ v. AreLong (count + added) v.items) }
{
    if count == 0 {
        let made = copied(alloc, more)?;
        Ok(made)
    } else {
        let made = appended(alloc, columns, more)?;
        Ok(made)
    }
}

// Columns of the same numbers.
fn copied(alloc: Global, columns: &[Arc<Column>]) -> Result<Vec<Column>, NoMemory>
    ensures { IfOk result (λ v. v.items ≡ map (λ c. c.value) columns.now) }
{
    let mut made = Vec::with_capacity(alloc, columns.len())?;
    for column in columns {
        let column = column.copied(alloc)?;
        made.push(column)?;
    }
    Ok(made)
}

// Columns, each with the numbers of the other at its place behind its own.
fn appended(
    alloc: Global,
    columns: Vec<Column>,
    more: &[Arc<Column>],
) -> Result<Vec<Column>, NoMemory>
    requires { length columns.items ≡ length more.now }
    ensures { IfOk result (λ v. v.items ≡ joined (length more.now) columns.items (map (λ c. c.value) more.now)) }
{
    let mut made = columns;
    for place in 0..more.len() {
        made[place].append(alloc, &more[place])?;
    }
    Ok(made)
}

// The same columns, which may be shared.
fn shareable(alloc: Global, columns: Vec<Column>) -> Result<Vec<Arc<Column>>, NoMemory>
    ensures { IfOk result (λ v. map (λ c. c.value) v.items ≡ columns.items) }
{
    let mut made = Vec::with_capacity(alloc, columns.len())?;
    for column in columns {
        let column = Arc::new(alloc, column)?;
        made.push(column)?;
    }
    Ok(made)
}
