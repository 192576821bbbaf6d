//! Runs that are done, and what they put.
use crate::runs::{answer_of, judge};
use std::alloc::Global;
use std::process::Abort;
use std::test::Fail;
use std::thread::Threads;

/// Answers over worlds, as CSV.
pub(crate) const ANSWERS: &str =
    "answer|SELECT * FROM orders|orders=orders.csv -> 0 Done row_lo,row,row_hi,id_lo,id,id_hi,city_lo,city,city_hi,amount_lo,amount,amount_hi~1,1,1,1,1,1,Bergen,Oslo,Oslo,10,10,12~1,1,1,2,2,2,Bergen,Bergen,Bergen,5,5,5~0,1,1,3,3,3,Oslo,Oslo,Oslo,7,7,7~! 
answer|SELECT * FROM orders WHERE city = 'Oslo'|orders=orders.csv -> 0 Done row_lo,row,row_hi,id_lo,id,id_hi,city_lo,city,city_hi,amount_lo,amount,amount_hi~0,1,1,1,1,1,Bergen,Oslo,Oslo,10,10,12~0,1,1,3,3,3,Oslo,Oslo,Oslo,7,7,7~! 
answer|SELECT o.id, r.fee FROM orders o, rates AS r WHERE o.city = r.city|orders=orders.csv|rates=rates.csv -> 0 Done row_lo,row,row_hi,id_lo,id,id_hi,fee_lo,fee,fee_hi~0,1,1,1,1,1,3,3,3~0,0,1,1,1,1,4,4,4~1,1,1,2,2,2,4,4,4~0,1,1,3,3,3,3,3,3~! 
direct|SELECT o.id, r.fee FROM orders o, rates AS r WHERE o.city = r.city|orders=orders.csv|rates=rates.csv -> 0 Done row_lo,row,row_hi,id_lo,id,id_hi,fee_lo,fee,fee_hi~0,1,1,1,1,1,3,3,3~0,0,1,1,1,1,4,4,4~1,1,1,2,2,2,4,4,4~0,1,1,3,3,3,3,3,3~! 
answer|SELECT COUNT(*), SUM(amount) FROM orders|orders=orders.csv -> 0 Done row_lo,row,row_hi,col1_lo,col1,col1_hi,col2_lo,col2,col2_hi~1,1,1,2,3,3,15,22,24~! 
answer|SELECT city, SUM(amount) AS s FROM orders GROUP BY city|orders=orders.csv -> 0 Done row_lo,row,row_hi,city_lo,city,city_hi,s_lo,s,s_hi~1,1,1,Bergen,Bergen,Bergen,5,5,17~0,1,2,Bergen,Oslo,Oslo,0,17,24~! 
direct|SELECT city, SUM(amount) AS s FROM orders GROUP BY city|orders=orders.csv -> 0 Done row_lo,row,row_hi,city_lo,city,city_hi,s_lo,s,s_hi~1,1,1,Bergen,Bergen,Bergen,5,5,17~0,1,2,Bergen,Oslo,Oslo,0,17,24~! 
answer|SELECT city, MIN(amount) AS s FROM orders GROUP BY city|orders=orders.csv -> 0 Done row_lo,row,row_hi,city_lo,city,city_hi,s_lo,s,s_hi~1,1,1,Bergen,Bergen,Bergen,5,5,5~0,1,2,Bergen,Oslo,Oslo,5,7,12~! 
answer|SELECT DISTINCT city FROM orders|orders=orders.csv -> 0 Done row_lo,row,row_hi,city_lo,city,city_hi~1,1,1,Bergen,Bergen,Bergen~0,1,2,Bergen,Oslo,Oslo~! 
answer|SELECT city FROM orders EXCEPT ALL SELECT city FROM orders WHERE id = 2|orders=orders.csv -> 0 Done row_lo,row,row_hi,city_lo,city,city_hi~0,2,2,Bergen,Oslo,Oslo~! 
answer|SELECT city FROM orders EXCEPT SELECT city FROM rates WHERE fee = 4|orders=orders.csv|rates=rates.csv -> 0 Done row_lo,row,row_hi,city_lo,city,city_hi~0,1,2,Bergen,Oslo,Oslo~! 
answer|SELECT * FROM orders|orders=none.csv -> 0 Done row_lo,row,row_hi,id_lo,id,id_hi,city_lo,city,city_hi,amount_lo,amount,amount_hi~! 
answer|SELECT COUNT(*), SUM(amount) FROM orders|orders=none.csv -> 0 Done row_lo,row,row_hi,col1_lo,col1,col1_hi,col2_lo,col2,col2_hi~1,1,1,0,0,0,0,0,0~! 
answer|SELECT x*x AS p FROM t|t=block.csv -> 0 Done row_lo,row,row_hi,p_lo,p,p_hi~1,1,1,-6,4,9~! 
answer|SELECT n FROM t|t=most.csv -> 0 Done row_lo,row,row_hi,n_lo,n,n_hi~1,1,1,170141183460469231731687303715884105727,170141183460469231731687303715884105727,170141183460469231731687303715884105727~! 
answer|SELECT n FROM t|t=least.csv -> 0 Done row_lo,row,row_hi,n_lo,n,n_hi~1,1,1,-170141183460469231731687303715884105728,-170141183460469231731687303715884105728,-170141183460469231731687303715884105728~! 
answer|SELECT k, MIN(x) AS m FROM t GROUP BY k|t=sums.csv -> 0 Done row_lo,row,row_hi,k_lo,k,k_hi,m_lo,m,m_hi~1,1,1,1,1,1,1,1,1~! 
answer|SELECT * FROM orders WHERE id = 4|orders=more.csv -> 0 Done row_lo,row,row_hi,id_lo,id,id_hi,city_lo,city,city_hi,amount_lo,amount,amount_hi~0,0,1,4,4,4,Moss,Moss,Moss,1,1,1~! 
answer|SELECT \"Order Date\" AS d, id + 1 AS n, city FROM p|p=sheet.csv -> 0 Done row_lo,row,row_hi,d_lo,d,d_hi,n_lo,n,n_hi,city_lo,city,city_hi~1,1,1,2021-06-20,2021-06-20,2021-06-20,2,2,2,\"Oslo, Nord\",\"Oslo, Nord\",\"Oslo, Nord\"~! 
answer|SELECT COUNT(*), SUM(x) FROM t|t=many.csv -> 0 Done row_lo,row,row_hi,col1_lo,col1,col1_hi,col2_lo,col2,col2_hi~1,1,1,300,300,300,300,300,600~! 
answer|SELECT * FROM t|t=headed.csv -> 0 Done row_lo,row,row_hi,x_lo,x,x_hi~! 
answer|SELECT * FROM t|t=cut.csv -> 0 Done row_lo,row,row_hi,id_lo,id,id_hi,city_lo,city,city_hi~1,1,1,1,1,1,Os,Os,Os~! 
answer|SELECT 1 AS one FROM orders|orders=orders.csv -> 0 Done row_lo,row,row_hi,one_lo,one,one_hi~2,3,3,1,1,1~! 
answer|SELECT city FROM orders UNION ALL SELECT city FROM rates|orders=orders.csv|rates=rates.csv -> 0 Done row_lo,row,row_hi,city_lo,city,city_hi~2,2,2,Bergen,Bergen,Bergen~1,1,1,Bergen,Oslo,Oslo~1,2,2,Oslo,Oslo,Oslo~! 
answer|SELECT id, CASE WHEN city = 'Oslo' THEN amount ELSE 0 END AS x FROM orders|orders=orders.csv -> 0 Done row_lo,row,row_hi,id_lo,id,id_hi,x_lo,x,x_hi~1,1,1,1,1,1,0,10,12~1,1,1,2,2,2,0,0,0~0,1,1,3,3,3,7,7,7~! 
answer|SELECT city, SUM(amount) AS s FROM orders GROUP BY city HAVING SUM(amount) > 10|orders=orders.csv -> 0 Done row_lo,row,row_hi,city_lo,city,city_hi,s_lo,s,s_hi~0,0,1,Bergen,Bergen,Bergen,5,5,17~0,1,2,Bergen,Oslo,Oslo,0,17,24~! 
answer|SELECT ((((((((((((((((((((((((((((((((1)))))))))))))))))))))))))))))))) FROM orders|orders=orders.csv -> 0 Done row_lo,row,row_hi,col1_lo,col1,col1_hi~2,3,3,1,1,1~! 
direct|SELECT 1 AS one FROM \"orders\";|orders=orders.csv -> 0 Done row_lo,row,row_hi,one_lo,one,one_hi~2,3,3,1,1,1~! 
answer|SELECT * FROM t|t=times.csv -> 0 Done row_lo,row,row_hi,id_lo,id,id_hi,amount_lo,amount,amount_hi~1,3,5,1,1,1,8,10,20~0,1,1,2,2,2,-3,-1,4~! 
answer|SELECT COUNT(*), SUM(amount) FROM t|t=times.csv -> 0 Done row_lo,row,row_hi,col1_lo,col1,col1_hi,col2_lo,col2,col2_hi~1,1,1,1,4,6,5,29,104~! 
direct|SELECT COUNT(*), SUM(amount) FROM t|t=times.csv -> 0 Done row_lo,row,row_hi,col1_lo,col1,col1_hi,col2_lo,col2,col2_hi~1,1,1,1,4,6,5,29,104~! 
answer|SELECT item, price*qty AS cost FROM p|p=price.csv -> 0 Done row_lo,row,row_hi,item_lo,item,item_hi,cost_lo,cost,cost_hi~1,1,1,tea,tea,tea,5.00,7.50,8.25~! 
answer|SELECT price + 1 AS x FROM p|p=price.csv -> 0 Done row_lo,row,row_hi,x_lo,x,x_hi~1,1,1,3.50,3.50,3.75~! 
answer|SELECT item FROM p WHERE price < 2.6|p=price.csv -> 0 Done row_lo,row,row_hi,item_lo,item,item_hi~0,1,1,tea,tea,tea~! 
answer|SELECT price - 2.55 AS x FROM p|p=price.csv -> 0 Done row_lo,row,row_hi,x_lo,x,x_hi~1,1,1,-0.05,-0.05,0.20~! 
direct|SELECT MAX(price) AS m FROM p GROUP BY item|p=price.csv -> 0 Done row_lo,row,row_hi,m_lo,m,m_hi~1,1,1,2.50,2.50,2.75~! 
answer|SELECT m.x FROM m, e WHERE m.x + 1 > 0|m=edge.csv|e=bare.csv -> 0 Done row_lo,row,row_hi,x_lo,x,x_hi~! 
answer|SELECT m.x FROM e, m WHERE m.x + 1 > 0|m=edge.csv|e=bare.csv -> 0 Done row_lo,row,row_hi,x_lo,x,x_hi~! 
direct|SELECT m.x FROM m, e WHERE m.x + 1 > 0|m=edge.csv|e=bare.csv -> 0 Done row_lo,row,row_hi,x_lo,x,x_hi~! 
direct|SELECT m.x FROM e, m WHERE m.x + 1 > 0|m=edge.csv|e=bare.csv -> 0 Done row_lo,row,row_hi,x_lo,x,x_hi~! 
answer|SELECT k FROM (SELECT n AS k, n + 1 AS z FROM t) u|t=most.csv -> 0 Done row_lo,row,row_hi,k_lo,k,k_hi~1,1,1,170141183460469231731687303715884105727,170141183460469231731687303715884105727,170141183460469231731687303715884105727~! ";

// Names that need quotes, tables for people, and guess worlds.
const FORMS: &str =
    "answer|SELECT id AS \"a,b\" FROM orders WHERE id = 2|orders=orders.csv -> 0 Done row_lo,row,row_hi,\"a,b_lo\",\"a,b\",\"a,b_hi\"~1,1,1,2,2,2~! 
answer|SELECT id AS \"say \"\"x\"\"\" FROM orders WHERE id = 2|orders=orders.csv -> 0 Done row_lo,row,row_hi,\"say \"\"x\"\"_lo\",\"say \"\"x\"\"\",\"say \"\"x\"\"_hi\"~1,1,1,2,2,2~! 
direct|--combine|SELECT city FROM orders|orders=orders.csv -> 0 Done row_lo,row,row_hi,city_lo,city,city_hi~1,1,1,Bergen,Bergen,Bergen~1,2,2,Bergen,Oslo,Oslo~! 
answer|--table|SELECT city FROM orders|--combine|orders=orders.csv -> 0 Done city               | row  ~-------------------+------~Bergen             | 1/1/1~[Bergen/Oslo/Oslo] | 1/2/2~! 
direct|--table|SELECT id FROM t|t=none.csv -> 0 Done id | row~---+----~! 
answer|--table|SELECT city AS \"Ærø\" FROM t|t=nordic.csv -> 0 Done Ærø   | row  ~------+------~Malmö | 0/1/1~! 
answer|--table|SELECT c AS \"a\tb\" FROM t|t=control.csv -> 0 Done a?b    | row  ~-------+------~x?y?z  | 1/1/1~! 
guess|SELECT city, SUM(amount) AS s FROM orders GROUP BY city|orders=orders.csv -> 0 Done row,city,s~1,Bergen,5~1,Oslo,17~! 
guess|SELECT o.id, r.fee FROM orders o, rates AS r WHERE o.city = r.city|orders=orders.csv|rates=rates.csv -> 0 Done row,id,fee~1,1,3~1,2,4~1,3,3~! 
answer|--table|SELECT price FROM p|p=price.csv -> 0 Done price            | row  ~-----------------+------~[2.50/2.50/2.75] | 1/1/1~! 
guess|SELECT * FROM t|t=times.csv -> 0 Done row,id,amount~3,1,10~1,2,-1~! 
guess|SELECT price * qty AS cost FROM p|p=price.csv -> 0 Done row,cost~1,7.50~! 
ua|SELECT * FROM t|t=times.csv -> 0 Done certain,row,id,amount~0,3,1,10~0,1,2,-1~! 
guess|SELECT SUM(x) FROM t|t=sums.csv -> 0 Done row,col1~1,2~! 
guess|SELECT CASE WHEN x > 0 THEN 1 ELSE x + 1 END AS one FROM t|t=edge.csv -> 0 Done row,one~1,1~! 
guess|SELECT n FROM r EXCEPT ALL SELECT a.x FROM t a, t b, t c|r=most.csv|t=trillion.csv -> 0 Done row,n~1,170141183460469231731687303715884105727~! 
guess|SELECT a.x FROM t a, t b, t c|t=trillion.csv -> 4 Overflow ! audb: a number leaves 128 bits~
guess|SELECT id AS \"a,b\", city AS \"say \"\"x\"\"\" FROM t|t=none.csv -> 0 Done row,\"a,b\",\"say \"\"x\"\"\"~! 
guess|SELECT t AS \"two~lines\", n FROM t|t=texts.csv -> 0 Done row,\"two~lines\",n~2,,-1~5,b,2~1,b,10~! ";

// Groups and distinct rows by points, with each other option of `answer`, and commands that have none.
const BY_POINTS: &str =
    "answer|--points|SELECT city, SUM(amount) AS s FROM orders GROUP BY city|orders=orders.csv -> 0 Done row_lo,row,row_hi,city_lo,city,city_hi,s_lo,s,s_hi~1,1,1,Bergen,Bergen,Bergen,5,5,17~0,0,1,Bergen,Oslo,Oslo,0,0,12~0,1,1,Oslo,Oslo,Oslo,0,17,19~! 
answer|SELECT city, SUM(amount) AS s FROM orders GROUP BY city|--workers=3|orders=orders.csv|--points -> 0 Done row_lo,row,row_hi,city_lo,city,city_hi,s_lo,s,s_hi~1,1,1,Bergen,Bergen,Bergen,5,5,17~0,0,1,Bergen,Oslo,Oslo,0,0,12~0,1,1,Oslo,Oslo,Oslo,0,17,19~! 
answer|--table|--points|SELECT city, SUM(amount) AS s FROM orders GROUP BY city|orders=orders.csv -> 0 Done city               | s         | row  ~-------------------+-----------+------~Bergen             | [5/5/17]  | 1/1/1~[Bergen/Oslo/Oslo] | [0/0/12]  | 0/0/1~Oslo               | [0/17/19] | 0/1/1~! 
answer|--points|SELECT DISTINCT city FROM orders|orders=orders.csv -> 0 Done row_lo,row,row_hi,city_lo,city,city_hi~1,1,1,Bergen,Bergen,Bergen~0,0,1,Bergen,Oslo,Oslo~0,1,1,Oslo,Oslo,Oslo~! 
answer|--combine|--points|SELECT DISTINCT city FROM orders|orders=orders.csv -> 0 Done row_lo,row,row_hi,city_lo,city,city_hi~1,1,1,Bergen,Bergen,Bergen~0,1,2,Bergen,Oslo,Oslo~! 
answer|--points|--compress=2|SELECT o.city, SUM(o.amount) AS s FROM orders o, rates r WHERE o.city = r.city GROUP BY o.city|orders=orders.csv|rates=rates.csv -> 0 Done row_lo,row,row_hi,city_lo,city,city_hi,s_lo,s,s_hi~1,1,1,Bergen,Bergen,Bergen,5,5,53~0,0,4,Bergen,Oslo,Oslo,0,0,48~0,1,1,Oslo,Oslo,Oslo,0,17,72~! 
answer|--points|SELECT o.city, SUM(o.amount) AS s FROM orders o, rates r WHERE o.city = r.city GROUP BY o.city|orders=orders.csv|rates=rates.csv -> 0 Done row_lo,row,row_hi,city_lo,city,city_hi,s_lo,s,s_hi~1,1,1,Bergen,Bergen,Bergen,5,5,29~0,0,2,Bergen,Oslo,Oslo,0,0,24~0,1,1,Oslo,Oslo,Oslo,0,17,31~! 
answer|--points|SELECT city, COUNT(*) AS n FROM orders GROUP BY city HAVING COUNT(*) > 1|orders=orders.csv -> 0 Done row_lo,row,row_hi,city_lo,city,city_hi,n_lo,n,n_hi~0,0,1,Bergen,Bergen,Bergen,1,1,2~0,1,1,Oslo,Oslo,Oslo,0,2,2~! 
answer|--points|SELECT city FROM orders EXCEPT SELECT city FROM rates WHERE fee = 4|orders=orders.csv|rates=rates.csv -> 0 Done row_lo,row,row_hi,city_lo,city,city_hi~0,1,2,Bergen,Oslo,Oslo~! 
answer|--points|SELECT id, amount FROM orders WHERE amount > 6|orders=orders.csv -> 0 Done row_lo,row,row_hi,id_lo,id,id_hi,amount_lo,amount,amount_hi~1,1,1,1,1,1,10,10,12~0,1,1,3,3,3,7,7,7~! 
answer|--points|SELECT k, SUM(x) AS s FROM t GROUP BY k|t=sums.csv -> 4 Overflow ! audb: a number leaves 128 bits~
guess|--points|SELECT city, SUM(amount) AS s FROM orders GROUP BY city|orders=orders.csv -> 2 Usage(Words) ! audb: usage: audb answer SQL NAME=PATH..~
direct|--points|SELECT DISTINCT city FROM orders|orders=orders.csv -> 2 Usage(Words) ! audb: usage: audb answer SQL NAME=PATH..~";

// Demonstrations: the least and the greatest words, the same twice, and words that are none.
const DEMONSTRATIONS: &str = "demo|0|1 -> 0 Done rows 1~least 1~guess 1~most 1~! 
demo|1|3 -> 0 Done rows 2~least 1~guess 2~most 3~! 
demo|4294967295|7 -> 0 Done rows 4~least 4~guess 4~most 5~! 
demo|7|40 -> 0 Done rows 4~least 4~guess 4~most 15~! 
demo|7|--workers=64|40 -> 0 Done rows 4~least 4~guess 4~most 15~! 
demo|1|100000 -> 0 Done rows 4~least 4~guess 4~most 33156~! 
demo|1|100000 -> 0 Done rows 4~least 4~guess 4~most 33156~! 
demo|1|--workers=4|100000 -> 0 Done rows 4~least 4~guess 4~most 33156~! 
demo|1|0 -> 2 Usage(Words) ! audb: usage: audb answer SQL NAME=PATH..~
demo|1|100001 -> 2 Usage(Words) ! audb: usage: audb answer SQL NAME=PATH..~
demo|4294967296|1 -> 2 Usage(Words) ! audb: usage: audb answer SQL NAME=PATH..~
demo|-1|1 -> 2 Usage(Words) ! audb: usage: audb answer SQL NAME=PATH..~
demo|01|1 -> 2 Usage(Words) ! audb: usage: audb answer SQL NAME=PATH..~
demo|one|1 -> 2 Usage(Words) ! audb: usage: audb answer SQL NAME=PATH..~
demo||1 -> 2 Usage(Words) ! audb: usage: audb answer SQL NAME=PATH..~
demo|1 -> 2 Usage(Words) ! audb: usage: audb answer SQL NAME=PATH..~
demo|1|1|1 -> 2 Usage(Words) ! audb: usage: audb answer SQL NAME=PATH..~
demo|--table|1|1 -> 2 Usage(Words) ! audb: usage: audb answer SQL NAME=PATH..~";

const PAIRS: &str =
    "SELECT a.grp, MAX(a.id) AS m FROM t a, t b WHERE a.amount = b.amount AND a.grp = 'g0' AND b.grp = 'g1' GROUP BY a.grp";

// A query that works row by row, and one whose rows are few.
const BY_ROW: &str = "SELECT id, amount * 2 AS d FROM t WHERE amount > 50";

const FEW_ROWS: &str = "SELECT grp FROM (SELECT * FROM t) s";

// Two runs put one answer.
fn alike<R: Abort + Threads + Sync>(
    rt: &R,
    alloc: Global,
    one: &str,
    other: &str,
) -> Result<(), Fail> {
    let first = answer_of(rt, alloc, one)?;
    let second = answer_of(rt, alloc, other)?;
    assert_eq!(rt; second.as_str(), first.as_str(), "{other}");
    assert!(rt; first.as_str().starts_with("0 Done "), "an answer");
    Ok(())
}

// Both roads give one answer of a query over a file.
fn agree<R: Abort + Threads + Sync>(
    rt: &R,
    alloc: Global,
    query: &str,
    file: &str,
) -> Result<(), Fail> {
    let planned = format!(in alloc; "answer|{query}|t={file}")?;
    let direct = format!(in alloc; "direct|{query}|t={file}")?;
    alike(rt, alloc, planned.as_str(), direct.as_str())
}

// Seven workers give the answer of one over a file.
fn agree_in_seven<R: Abort + Threads + Sync>(
    rt: &R,
    alloc: Global,
    query: &str,
    file: &str,
) -> Result<(), Fail> {
    let one = format!(in alloc; "answer|--workers=1|{query}|t={file}")?;
    let seven = format!(in alloc; "answer|--workers=7|{query}|t={file}")?;
    alike(rt, alloc, one.as_str(), seven.as_str())
}

// A query over two files, of which one is small, over two large ones, and one that groups a file.
const JOIN: &str = "SELECT a.id FROM a, b WHERE a.id = b.id|a=slices.csv|b=made.csv";

const LARGE_JOIN: &str = "SELECT a.id FROM a, b WHERE a.id = b.id|a=slices.csv|b=slices.csv";

const GROUPS: &str =
    "SELECT grp, COUNT(*) AS n, SUM(amount) AS total FROM t GROUP BY grp|t=slices.csv";

const POINTS: &str = "--points|SELECT amount, COUNT(*) AS n FROM t GROUP BY amount|t=slices.csv";

// So many workers give the answer of one.
fn share<R: Abort + Threads + Sync>(rt: &R, alloc: Global, asked: &str) -> Result<(), Fail> {
    let one = format!(in alloc; "answer|{asked}")?;
    let one = answer_of(rt, alloc, one.as_str())?;
    for workers in [2u32, 3, 7, 64] {
        let shared = format!(in alloc; "answer|--workers={workers}|{asked}")?;
        let shared = answer_of(rt, alloc, shared.as_str())?;
        assert_eq!(rt; shared.as_str(), one.as_str(), "{workers} workers");
    }
    assert!(rt; one.as_str().starts_with("0 Done "), "an answer");
    Ok(())
}

#[test]
fn answers_of_queries(rt: HostRuntime) -> Result<(), Fail> {
    judge(&rt, rt.alloc(), ANSWERS)
}

#[test]
fn forms_of_answers(rt: HostRuntime) -> Result<(), Fail> {
    judge(&rt, rt.alloc(), FORMS)
}

#[test]
fn answers_by_points(rt: HostRuntime) -> Result<(), Fail> {
    judge(&rt, rt.alloc(), BY_POINTS)
}

#[test]
fn demonstrations(rt: HostRuntime) -> Result<(), Fail> {
    judge(&rt, rt.alloc(), DEMONSTRATIONS)
}

#[test]
fn one_answer_by_both_roads(rt: HostRuntime) -> Result<(), Fail> {
    agree_in_seven(&rt, rt.alloc(), PAIRS, "made.csv")?;
    agree(&rt, rt.alloc(), PAIRS, "made.csv")
}

#[test]
fn one_answer_of_seven_workers(rt: HostRuntime) -> Result<(), Fail> {
    agree_in_seven(&rt, rt.alloc(), PAIRS, "slices.csv")?;
    alike(
        &rt,
        rt.alloc(),
        "demo|--workers=1|1|20000",
        "demo|--workers=7|1|20000",
    )
}

#[test]
fn one_answer_over_slices(rt: HostRuntime) -> Result<(), Fail> {
    agree(&rt, rt.alloc(), BY_ROW, "slices.csv")?;
    agree(&rt, rt.alloc(), FEW_ROWS, "slices.csv")
}

#[test]
fn one_answer_by_all_workers(rt: HostRuntime) -> Result<(), Fail> {
    share(&rt, rt.alloc(), JOIN)?;
    share(&rt, rt.alloc(), LARGE_JOIN)?;
    share(&rt, rt.alloc(), GROUPS)?;
    share(&rt, rt.alloc(), POINTS)
}
