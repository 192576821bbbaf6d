//! The line that says how a run ended.
ghost use Rattle.std.specs.Prelude.{◌≡◌, IfOk};
ghost use Rattle.au_cli.specs.Lines.{fault_text};

use crate::outcome::Outcome;
use au_blocks::TableFault;
use au_engine::{LimitFault, QueryFault};
use au_sqltext::PlanFault;
use au_value::NoMemory;
use au_words::UsageFault;
use std::alloc::Global;
use std::fmt;

// The fault of a query, as it is printed.
#[derive(Clone, Copy)]
struct QueryText(QueryFault);

impl fmt::Display for QueryText {
    ghost use Rattle.std.specs.Prelude.{Some};
    ghost use Rattle.au_cli.specs.Lines.{query_fault_text};

    ghost output = { λ fault. Some (query_fault_text fault.0) };

    fn fmt<W: fmt::Write>(&self, f: &mut fmt::Formatter<W>) -> fmt::Result {
        match self.0 {
            QueryFault::BadChar(at) => write!(f, "unexpected character at byte {at}"),
            QueryFault::OpenText(at) => write!(f, "quote without an end at byte {at}"),
            QueryFault::BadNumber(at) => write!(f, "bad number at byte {at}"),
            QueryFault::Syntax(at) => write!(f, "syntax error at byte {at}"),
            QueryFault::NotPositive(at) => write!(f, "not a positive query at byte {at}"),
            QueryFault::UnknownTable(at) => write!(f, "unknown table at byte {at}"),
            QueryFault::UnknownColumn(at) => write!(f, "unknown column at byte {at}"),
            QueryFault::Ambiguous(at) => write!(f, "ambiguous column at byte {at}"),
            QueryFault::SameAlias(at) => write!(f, "repeated table name at byte {at}"),
            QueryFault::KindMismatch(at) => write!(f, "kinds do not fit at byte {at}"),
            QueryFault::NotGrouped(at) => write!(f, "column is not grouped at byte {at}"),
            QueryFault::MisplacedAggregate(at) => write!(f, "misplaced aggregate at byte {at}"),
            QueryFault::MinMaxNeedsGroup(at) => write!(f, "MIN and MAX need GROUP BY at byte {at}"),
            QueryFault::CountOverJoin(at) => write!(f, "count over a join at byte {at}"),
            QueryFault::WidthMismatch(at) => {
                write!(f, "different numbers of columns at byte {at}")
            }
        }
    }
}

// Two things that have one name.
#[derive(Clone, Copy)]
struct OneName(usize, usize);

impl fmt::Display for OneName {
    ghost use Rattle.std.specs.Prelude.{Some};
    ghost use Rattle.au_cli.specs.Lines.{one_name};

    ghost output = { λ pair. Some (one_name pair.0 pair.1) };

    fn fmt<W: fmt::Write>(&self, f: &mut fmt::Formatter<W>) -> fmt::Result {
        let OneName(a, b) = *self;
        write!(f, "{a} and {b} have one name")
    }
}

// The fault of the words, as it is printed.
#[derive(Clone, Copy)]
struct UsageText(UsageFault);

impl fmt::Display for UsageText {
    ghost use Rattle.std.specs.Prelude.{Some};
    ghost use Rattle.au_cli.specs.Lines.{usage_fault_text};

    ghost output = { λ fault. Some (usage_fault_text fault.0) };

    fn fmt<W: fmt::Write>(&self, f: &mut fmt::Formatter<W>) -> fmt::Result {
        match self.0 {
            UsageFault::Words => f.write_str("usage: audb answer SQL NAME=PATH.."),
            UsageFault::BadTable(word) => write!(f, "usage: table word {word} is not NAME=PATH"),
            UsageFault::SameTable(a, b) => write!(f, "usage: table words {}", OneName(a, b)),
        }
    }
}

// The limit that is passed, as it is printed.
#[derive(Clone, Copy)]
struct LimitText(LimitFault);

impl fmt::Display for LimitText {
    ghost use Rattle.std.specs.Prelude.{Some};
    ghost use Rattle.au_cli.specs.Lines.{limit_fault_text};

    ghost output = { λ fault. Some (limit_fault_text fault.0) };

    fn fmt<W: fmt::Write>(&self, f: &mut fmt::Formatter<W>) -> fmt::Result {
        match self.0 {
            LimitFault::Files(n) => write!(f, "{n} table words"),
            LimitFault::QueryLength(n) => write!(f, "query of {n} bytes"),
            LimitFault::Tokens => f.write_str("too many tokens"),
            LimitFault::Depth(at) => write!(f, "nesting at byte {at}"),
            LimitFault::FromItems(at) => write!(f, "FROM items at byte {at}"),
            LimitFault::SelectItems(at) => write!(f, "SELECT items at byte {at}"),
            LimitFault::FileSize(file) => write!(f, "size of file {file}"),
            LimitFault::AllFiles(file) => write!(f, "size of all files at file {file}"),
            LimitFault::EncodeColumns(columns) => write!(f, "{columns} columns to encode"),
            LimitFault::PlainRows(file) => write!(f, "rows of file {file}"),
        }
    }
}

// The fault of a table, as it is printed.
#[derive(Clone, Copy)]
struct TableText(TableFault);

impl fmt::Display for TableText {
    ghost use Rattle.std.specs.Prelude.{Some};
    ghost use Rattle.au_cli.specs.Lines.{table_fault_text};

    ghost output = { λ fault. Some (table_fault_text fault.0) };

    fn fmt<W: fmt::Write>(&self, f: &mut fmt::Formatter<W>) -> fmt::Result {
        match self.0 {
            TableFault::NoHeader => f.write_str("no header"),
            TableFault::NotText(record) => write!(f, "record {record} is not UTF-8"),
            TableFault::TooManyColumns => f.write_str("too many columns"),
            TableFault::BadColumnName(column) => write!(f, "bad name of column {column}"),
            TableFault::SameName(a, b) => write!(f, "columns {}", OneName(a, b)),
            TableFault::UnknownKind(column) => write!(f, "unknown kind of column {column}"),
            TableFault::WrongWidth(record) => {
                write!(f, "wrong number of fields in record {record}")
            }
            TableFault::BadRole(record) => write!(f, "bad role in record {record}"),
            TableFault::BadField(record, column) => {
                write!(f, "bad field in record {record}, column {column}")
            }
            TableFault::TwoGuesses(block) => write!(f, "two guesses in block {block}"),
            TableFault::NoGuess(block) => write!(f, "no guess in block {block}"),
            TableFault::OnlyAbsent(block) => write!(f, "no alternative in block {block}"),
            TableFault::TwoAbsent(block) => write!(f, "two absent records in block {block}"),
            TableFault::AbsentWithValues(record) => {
                write!(f, "values in absent record {record}")
            }
            TableFault::BadTimes(record) => write!(f, "bad number of copies in record {record}"),
            TableFault::NoMemory => f.write_str("out of memory"),
        }
    }
}

// The fault of a plan, as it is printed.
#[derive(Clone, Copy)]
struct PlanText(PlanFault);

impl fmt::Display for PlanText {
    ghost use Rattle.std.specs.Prelude.{Some};
    ghost use Rattle.au_cli.specs.Lines.{plan_fault_text};

    ghost output = { λ fault. Some (plan_fault_text fault.0) };

    fn fmt<W: fmt::Write>(&self, f: &mut fmt::Formatter<W>) -> fmt::Result {
        match self.0 {
            PlanFault::Text => f.write_str("not the text of a plan"),
            PlanFault::Deep => f.write_str("too deep"),
            PlanFault::Untyped => f.write_str("tables and kinds do not fit"),
            PlanFault::NoMemory => f.write_str("out of memory"),
        }
    }
}

impl fmt::Display for Outcome {
    ghost use Rattle.std.specs.Prelude.{Some};
    ghost use Rattle.au_cli.specs.Lines.{outcome_text};

    ghost output = { λ outcome. Some (outcome_text outcome) };

    fn fmt<W: fmt::Write>(&self, f: &mut fmt::Formatter<W>) -> fmt::Result {
        match *self {
            Outcome::Done => Ok(()),
            Outcome::Query(fault) => write!(f, "query: {}", QueryText(fault)),
            Outcome::Usage(fault) => write!(f, "{}", UsageText(fault)),
            Outcome::Table(file, fault) => write!(f, "file {file}: {}", TableText(fault)),
            Outcome::Overflow => f.write_str("a number leaves 128 bits"),
            Outcome::ReadFault(file) => write!(f, "file {file} cannot be read"),
            Outcome::WriteFault => f.write_str("the answer cannot be written"),
            Outcome::NoMemory => f.write_str("out of memory"),
            Outcome::Limit(fault) => write!(f, "limit: {}", LimitText(fault)),
            Outcome::NoFile(file) => write!(f, "file {file} is not there"),
            Outcome::Plan(fault) => write!(f, "plan: {}", PlanText(fault)),
        }
    }
}

/// The line that is put on the standard error for an outcome.
pub fn fault_line(alloc: Global, outcome: &Outcome) -> Result<Vec<u8>, NoMemory>
    ensures { IfOk result (λ line. line.items ≡ fault_text outcome.now) }
{
    let line = format!(in alloc; "audb: {outcome}\n")?;
    Ok(line.into_bytes())
}
