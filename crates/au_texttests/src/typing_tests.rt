//! What statements resolve to: their names and kinds, or the fault with its place.
use crate::cases::{Call, judge, unfolded};
use au_blocks::{copy_columns, read_table};
use au_lex::tokens;
use au_parse::parse;
use au_typing::{Schema, Typed, TypingFault, resolve};
use au_value::Word;
use std::alloc::{AllocError, Global};
use std::test::Fail;

// A table of this name, with the columns of a file.
fn schema(alloc: Global, name: &str, file: &str) -> Result<Schema, Fail> {
    let table = read_table(alloc, file.as_bytes()).ok().ok_or("a table")?;
    Ok(Schema {
        name: Word::new(String::from_str(alloc, name)?),
        columns: copy_columns(alloc, table.columns())?,
    })
}

// The tables `orders` (id, City, amount), `rates` (city, fee) and `p` (item, price, qty, tax).
fn schemas(alloc: Global) -> Result<Vec<Schema>, Fail> {
    let mut list = Vec::new(alloc);
    list.push(schema(alloc, "orders", "id:int,City:text,amount:int")?)?;
    list.push(schema(alloc, "rates", "city:text,fee:int")?)?;
    list.push(schema(alloc, "p", "item:text,price:dec2,qty:int,tax:dec8")?)?;
    Ok(list)
}

fn resolved(
    alloc: Global,
    text: &str,
    schemas: &[Schema],
) -> Result<Result<Typed, TypingFault>, Fail> {
    let list = tokens(alloc, text).ok().ok_or("tokens")?;
    let parsed = parse(alloc, list.items(), text.len());
    let statement = parsed.ok().ok_or("a statement")?;
    Ok(resolve(alloc, &statement, schemas))
}

// The names and the kinds of the columns.
fn columns_text(alloc: Global, typed: &Typed) -> Result<String, AllocError> {
    let mut text = String::new(alloc);
    for (name, kind) in typed.names.iter().zip(typed.kinds.iter()) {
        text.push_str(name.as_str())?;
        text.push_str(format!(in alloc; ":{kind:?} ")?.as_str())?;
    }
    Ok(text)
}

struct Columns;

impl Call for Columns {
    fn outcome(alloc: Global, given: &str) -> Result<String, Fail> {
        let schemas = schemas(alloc)?;
        match resolved(alloc, given, schemas.as_slice())? {
            Ok(typed) => Ok(columns_text(alloc, &typed)?),
            Err(fault) => Ok(format!(in alloc; "{fault:?}")?),
        }
    }
}

const COLUMNS: &str = "SELECT * FROM Orders -> id:Int City:Text amount:Int 
SELECT * FROM orders o, rates -> id:Int City:Text amount:Int city:Text fee:Int 
SELECT r.*, 1 FROM orders, rates r -> city:Text fee:Int col3:Int 
SELECT CITY, city, CITY x FROM orders -> City:Text City:Text x:Text 
SELECT id, id + 1, 'a' AS b, id = 2 FROM orders -> id:Int col2:Int b:Text col4:Flag 
SELECT city, SUM(amount) AS s FROM orders GROUP BY city -> City:Text s:Int 
SELECT city FROM orders GROUP BY city, CITY HAVING MAX(id) > COUNT(*) -> City:Text 
SELECT COUNT(*), SUM(amount), COUNT(city) FROM orders -> col1:Int col2:Int col3:Int 
SELECT 1 FROM orders HAVING TRUE -> col1:Int 
SELECT MIN(city) FROM orders GROUP BY id -> col1:Text 
SELECT x.n FROM (SELECT u.id AS n FROM (SELECT * FROM orders) u) X -> n:Int 
SELECT SUM(o.id) FROM orders o, rates r -> col1:Int 
SELECT id FROM orders UNION SELECT fee FROM rates -> id:Int 
SELECT price, price * qty, qty - price, -price, 0.5 FROM p -> price:Dec(2) col2:Dec(2) col3:Dec(2) col4:Dec(2) col5:Dec(1) 
SELECT price * 0.1234567, price + tax, price < 2.6, price = qty FROM p -> col1:Dec(9) col2:Dec(8) col3:Flag col4:Flag 
SELECT SUM(price) AS s, SUM(qty), COUNT(price) FROM p -> s:Dec(2) col2:Int col3:Int 
SELECT item, MIN(tax) AS least, MAX(qty) FROM p GROUP BY item -> item:Text least:Dec(8) col3:Int 
SELECT CASE WHEN qty = 1 THEN price WHEN TRUE THEN 1 ELSE tax END FROM p -> col1:Dec(8) 
SELECT qty FROM p UNION SELECT price FROM p EXCEPT ALL SELECT 0.125 FROM p -> qty:Dec(3) 
SELECT q.price + q.qty FROM (SELECT price, qty FROM p) q -> col1:Dec(2) 
SELECT DISTINCT city FROM orders EXCEPT ALL SELECT city FROM rates -> City:Text 
SELECT CASE WHEN id = 1 THEN city WHEN TRUE THEN 'b' ELSE 'c' END FROM orders -> col1:Text ";

const DEFECTS: &str = "SELECT * FROM t -> UnknownTable(14)
SELECT t.* FROM orders -> UnknownTable(7)
SELECT orders.id FROM orders o -> UnknownTable(7)
SELECT z FROM orders -> UnknownColumn(7)
SELECT id AS n FROM orders WHERE n = 1 -> UnknownColumn(33)
SELECT u.amount FROM (SELECT id FROM orders) u -> UnknownColumn(7)
SELECT city FROM orders, rates -> Ambiguous(7)
SELECT u.id FROM (SELECT id, amount AS ID FROM orders) u -> Ambiguous(7)
SELECT 1 FROM orders a, rates A -> SameAlias(24)
SELECT id FROM orders WHERE city > 1 -> KindMismatch(33)
SELECT id FROM orders WHERE id -> KindMismatch(22)
SELECT SUM(city) FROM orders -> KindMismatch(7)
SELECT 1 FROM orders HAVING COUNT(*) -> KindMismatch(21)
SELECT -city FROM orders -> KindMismatch(7)
SELECT CASE WHEN TRUE THEN 1 ELSE 'a' END FROM orders -> KindMismatch(7)
SELECT id FROM orders UNION SELECT city FROM rates -> KindMismatch(22)
SELECT price * 0.12345678 FROM p -> KindMismatch(13)
SELECT price * tax FROM p -> KindMismatch(13)
SELECT price + item FROM p -> KindMismatch(13)
SELECT 1 FROM p WHERE price -> KindMismatch(16)
SELECT price FROM p UNION SELECT item FROM p -> KindMismatch(20)
SELECT CASE WHEN TRUE THEN price ELSE item END FROM p -> KindMismatch(7)
SELECT id, COUNT(*) FROM orders -> NotGrouped(7)
SELECT * FROM orders GROUP BY id -> NotGrouped(7)
SELECT 1 FROM orders WHERE SUM(id) = 1 -> MisplacedAggregate(27)
SELECT SUM(MAX(id)) FROM orders -> MisplacedAggregate(11)
SELECT MIN(amount) FROM orders -> MinMaxNeedsGroup(7)
SELECT COUNT(*) FROM orders o, rates r -> CountOverJoin(7)
SELECT SUM(1) FROM orders o, rates r -> CountOverJoin(7)
SELECT COUNT(*) FROM (SELECT o.id FROM orders o, rates r) u -> CountOverJoin(7)
SELECT id FROM orders EXCEPT SELECT * FROM rates -> WidthMismatch(22)";

// Stars that multiply: to 8,192 columns along a path, to one more, to more in one SELECT, and to 2 * 10^30.
const STARS: &str =
    "SELECT 1, 1 FROM (SELECT «63 *, »* FROM (SELECT «62 *, »* FROM rates) t) t -> col1:Int col2:Int 
SELECT 1, 1, 1 FROM (SELECT «63 *, »* FROM (SELECT «62 *, »* FROM rates) t) t -> NoMemory
SELECT «63 *, »* FROM (SELECT «63 *, »* FROM rates) t, rates -> NoMemory
SELECT * FROM («30 SELECT *, *, *, *, *, *, *, *, *, * FROM (»SELECT * FROM rates«30 ) t») t -> NoMemory";

#[test]
fn columns_that_stars_multiply(rt: HostRuntime) -> Result<(), Fail> {
    let alloc = rt.alloc();
    judge::<Columns>(&rt, alloc, unfolded(alloc, STARS)?.as_str())
}

#[test]
fn columns_of_statements(rt: HostRuntime) -> Result<(), Fail> {
    judge::<Columns>(&rt, rt.alloc(), COLUMNS)
}

#[test]
fn places_of_defects(rt: HostRuntime) -> Result<(), Fail> {
    judge::<Columns>(&rt, rt.alloc(), DEFECTS)
}
