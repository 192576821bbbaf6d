//! What is printed of rows is read back, and what a plan gives over it. Each law is the contract of a function that does
//! nothing.
ghost use Rattle.au_engine.specs.EncodedTables.{EncodedTablesHold, ReadTables, SizesAreSmall, TablesAreRead, TextsAreRead};
ghost use Rattle.au_engine.specs.PlanAnswers.{PlansAnswer};

/// The plan of a statement in which nothing is wrong, over tables whose rows in the guess world are the encoded rows of the
/// statement's tables: it is typed, and gives the encoded rows of the statement's bounded relation. No number that it
/// makes leaves 128 bits where none of the bounded answer does.
pub fn plans_answer()
    ensures { PlansAnswer }
{}

/// The text of rows is the text of a plain table, whose rows in the guess world are these.
pub fn texts_are_read()
    ensures { TextsAreRead }
{}

/// The values of each table that is read from a text can be written, so that the table's encoded rows have a text.
pub fn read_tables_are_written()
    ensures { ReadTables }
{}

/// The text of a table's encoded rows, of at most 20 columns, is the text of a plain table with these rows.
pub fn encoded_tables_are_read()
    ensures { TablesAreRead }
{}

/// The tables that such texts are read as are those over which the plan of a statement answers.
pub fn encoded_tables_hold()
    ensures { EncodedTablesHold }
{}

/// A table that is read from the text of rows has few guess rows beside the bytes of the text.
pub fn read_rows_are_few()
    ensures { SizesAreSmall }
{}
