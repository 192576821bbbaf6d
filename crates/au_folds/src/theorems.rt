//! Laws of tables. Each is the contract of a function that does nothing.
ghost use Rattle.au_folds.specs.Laws.{RowsComeInParts, TablesAreGroups, TablesComeInParts, TablesStayAlike};

/// Rows that are added behind others give what both give at once, so that the clauses of calls on batches compose.
pub fn rows_come_in_parts()
    ensures { RowsComeInParts }
{}

/// The table of some rows gives the rows of their grouping.
pub fn tables_are_groups()
    ensures { TablesAreGroups }
{}

/// The tables of some rows, and of those behind them, give the table of all.
pub fn tables_come_in_parts()
    ensures { TablesComeInParts }
{}

/// Tables of the same keys and aggregates stay alike.
pub fn tables_stay_alike()
    ensures { TablesStayAlike }
{}
