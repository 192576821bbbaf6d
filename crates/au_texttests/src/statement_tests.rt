//! What query texts are read as: the place of the root of the tree, or the fault.
use crate::cases::{Call, judge, unfolded};
use au_lex::tokens;
use au_parse::{Item, ParseFault, SelectPart, Statement, Term, parse};
use std::alloc::{AllocError, Global};
use std::test::Fail;

// Where a term's operator, word or first token stands.
fn place(term: &Term) -> usize {
    match term {
        Term::Column(name) => name.at,
        Term::Number(at, _) | Term::Decimal(at, _, _) | Term::Text(at, _) => *at,
        Term::Flag(at, _) | Term::CountRows(at) => *at,
        Term::Add(at, _, _) | Term::Subtract(at, _, _) | Term::Multiply(at, _, _) => *at,
        Term::And(at, _, _) | Term::Or(at, _, _) | Term::Compare(at, _, _, _) => *at,
        Term::Negate(at, _) | Term::Not(at, _) => *at,
        Term::Case(at, _, _) | Term::Aggregate(at, _, _) => *at,
    }
}

fn item_place(item: &Item) -> usize {
    match item {
        Item::Value(term, _) => place(term),
        Item::Star(at) | Item::StarOf(at, _) => *at,
    }
}

// Where the last set word stands, or the root of the first item.
fn root_place(statement: &Statement) -> usize {
    match statement {
        Statement::Union(_, at, _, _) | Statement::Except(_, at, _, _) => *at,
        Statement::Select(part) => part.items.first().map_or(part.at, item_place),
    }
}

fn read(alloc: Global, text: &str) -> Result<Statement, ParseFault> {
    match tokens(alloc, text) {
        Ok(list) => parse(alloc, list.items(), text.len()),
        Err(_) => Err(ParseFault::NoMemory),
    }
}

struct Root;

impl Call for Root {
    fn outcome(alloc: Global, given: &str) -> Result<String, Fail> {
        let query = unfolded(alloc, given)?;
        let place = read(alloc, query.as_str()).map(|statement| root_place(&statement));
        Ok(format!(in alloc; "{place:?}")?)
    }
}

// How many items, sources and keys there are, and which clauses.
fn parts_text(alloc: Global, part: &SelectPart) -> Result<String, AllocError> {
    let lists = (part.items.len(), part.sources.len(), part.keys.len());
    let clauses = (part.condition.is_some(), part.having.is_some());
    let words = (part.distinct, part.grouped);
    format!(in alloc; "{lists:?} {clauses:?} {words:?}")
}

struct Parts;

impl Call for Parts {
    fn outcome(alloc: Global, given: &str) -> Result<String, Fail> {
        match &read(alloc, given)? {
            Statement::Select(part) => Ok(parts_text(alloc, part)?),
            _ => Ok(String::new(alloc)),
        }
    }
}

const ROOTS: &str = "SELECT a - b - c FROM t -> Ok(13)
SELECT a - -b FROM t -> Ok(9)
SELECT -a FROM t -> Ok(7)
SELECT a + b * c FROM t -> Ok(9)
SELECT (a + b) * c FROM t -> Ok(15)
SELECT NOT a = b FROM t -> Ok(7)
SELECT a OR b AND NOT c = d FROM t -> Ok(9)
SELECT a AND b OR c FROM t -> Ok(15)
SELECT a < b AND c >= d FROM t -> Ok(13)
SELECT CASE WHEN CASE WHEN a THEN b ELSE c END THEN 1 WHEN d THEN 2 ELSE 3 END + 4 FROM t -> Ok(79)
SELECT COUNT(*) FROM t -> Ok(7)
SELECT count (x) n FROM t -> Ok(7)
SELECT count FROM t -> Ok(7)
SELECT t.* FROM t -> Ok(7)
SELECT * FROM t; -> Ok(7)
SELECT 2.5 - 1 FROM t -> Ok(11)
SELECT a * -0.5 FROM t -> Ok(9)
SELECT 2.5 half FROM t -> Ok(7)
SELECT 2.5 2.5 FROM t -> Err(Syntax(11))
SELECT a FROM t UNION SELECT b FROM u EXCEPT ALL SELECT c FROM v -> Ok(38)
SELECT a FROM t EXCEPT (SELECT b FROM u UNION ALL SELECT c FROM v) -> Ok(16)
((SELECT ALL a AS x FROM (SELECT b y FROM u) t)) -> Ok(13)
SELECT «32 (»1«32 )» FROM t -> Ok(39)
SELECT «63 1,»1 FROM t -> Ok(7)
SELECT * FROM t;; -> Err(Syntax(16))
SELECT sum(x) FROM t WHERE y + 1 > 0, u -> Err(Syntax(36))
SELECT a b c FROM t -> Err(Syntax(19))
SELECT a < b < c FROM t -> Err(Syntax(23))
SELECT a FROM t WHERE -> Err(Syntax(21))
SELECT a FROM (SELECT b FROM u) -> Err(Syntax(31))
 -> Err(Syntax(0))
SELECT «40 ()» -> Err(Syntax(8))
SELECT «33 (»1 -> Err(TooDeep(39))
SELECT «33 CASE » -> Err(TooDeep(167))
SELECT «64 1,»1 FROM t -> Err(TooManyItems(135))
SELECT 1 FROM a,b,c,d,e,f,g,h,i -> Err(TooManyFrom(30))
FROM a,b,c),d,e,f,g,h, -> Err(TooManyFrom(22))";

const PARTS: &str =
    "SELECT DISTINCT COUNT(*) AS n, o.* FROM orders o, (SELECT 1 x FROM u) v WHERE a GROUP BY o.b, c HAVING d; -> (2, 2, 2) (true, true) (true, true)
SELECT a FROM t -> (1, 1, 0) (false, false) (false, false)";

#[test]
fn roots_and_faults_of_texts(rt: HostRuntime) -> Result<(), Fail> {
    judge::<Root>(&rt, rt.alloc(), ROOTS)
}

#[test]
fn parts_of_a_select(rt: HostRuntime) -> Result<(), Fail> {
    judge::<Parts>(&rt, rt.alloc(), PARTS)
}
