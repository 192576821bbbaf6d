//! Runs whose gates see that several workers work at the same time.
use crate::gates::{Counts, HoldFirst, Meeting};
use crate::runs::{answer_of, watched};
use std::process::Abort;
use std::sync::atomic::Ordering::SeqCst;
use std::test::Fail;

// A join of two rows with two.
const JOIN: &str = "answer|--workers=2|SELECT a.x FROM a, b WHERE a.x = b.x|a=two.csv|b=two.csv";

const JOINED: &str = "0 Done row_lo,row,row_hi,x_lo,x,x_hi~1,1,1,1,1,1~1,1,1,2,2,2~! ";

// Four boxes, which are joined with four rows.
const GROUP: &str = "answer|--workers=2|SELECT k, COUNT(*) AS n FROM t GROUP BY k|t=four.csv";

const GROUPED: &str =
    "0 Done row_lo,row,row_hi,k_lo,k,k_hi,n_lo,n,n_hi~1,1,1,1,1,1,1,1,1~1,1,1,2,2,2,1,1,1~1,1,1,3,3,3,1,1,1~1,1,1,4,4,4,1,1,1~! ";

// A join of 100,000 rows with themselves by a column whose values are certain and differ, and this column alone.
const LARGE_JOIN: &str =
    "answer|--workers=2|SELECT a.id FROM t a, t b WHERE a.id = b.id|t=most_blocks.csv";

const COLUMN: &str = "answer|SELECT id FROM t|t=most_blocks.csv";

// Groups of rows enough for several pieces.
const DEMONSTRATION: &str = "demo|--workers=2|1|3000";

#[test]
fn run_pieces_meet(rt: HostRuntime) -> Result<(), Fail> {
    let counts = Counts::new();
    let gate = Meeting { counts: &counts };
    let found = watched(&rt, rt.alloc(), JOIN, gate)?;
    assert_eq!(rt; found.as_str(), JOINED);
    assert_eq!(rt;
        counts.met.load(SeqCst),
        2,
        "two pieces are worked at the same time"
    );
    Ok(())
}

#[test]
fn held_piece(rt: HostRuntime) -> Result<(), Fail> {
    let counts = Counts::new();
    let gate = HoldFirst {
        counts: &counts,
        pieces: 4,
    };
    let found = watched(&rt, rt.alloc(), GROUP, gate)?;
    assert_eq!(rt; found.as_str(), GROUPED);
    assert_eq!(rt;
        counts.met.load(SeqCst),
        1,
        "three pieces are drawn while the first is held"
    );
    Ok(())
}

// Pieces met others, and each that was entered did.
fn judge_counts(rt: &impl Abort, counts: &Counts) {
    let entered = counts.entered.load(SeqCst);
    assert!(rt; 2 <= entered, "the workers share the work");
    assert_eq!(rt;
        counts.met.load(SeqCst),
        entered,
        "two pieces are worked at the same time"
    );
}

#[test]
fn index_join(rt: HostRuntime) -> Result<(), Fail> {
    let counts = Counts::new();
    let gate = Meeting { counts: &counts };
    let joined = watched(&rt, rt.alloc(), LARGE_JOIN, gate)?;
    let column = answer_of(&rt, rt.alloc(), COLUMN)?;
    assert!(rt; column.as_str().starts_with("0 Done "), "an answer");
    assert!(rt;
        joined.as_str() == column.as_str(),
        "each row meets itself alone"
    );
    judge_counts(&rt, &counts);
    Ok(())
}

#[test]
fn demonstration_pieces_meet(rt: HostRuntime) -> Result<(), Fail> {
    let counts = Counts::new();
    let gate = Meeting { counts: &counts };
    let shown = watched(&rt, rt.alloc(), DEMONSTRATION, gate)?;
    assert!(rt; shown.as_str().starts_with("0 Done rows 4~"), "four groups");
    judge_counts(&rt, &counts);
    Ok(())
}
