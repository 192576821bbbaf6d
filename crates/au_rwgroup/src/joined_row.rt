//! The places in a row of a box, followed by a fold of rows that may belong to it.
ghost use Rattle.std.specs.Prelude.{◌≡◌, ◌+◌, ◌*◌, ◌<◌, ◌^◌, IfOk};
ghost use Rattle.au_plain.specs.PTerms.{pterm};
ghost use Rattle.au_plain.specs.PTerms as term;
ghost use Rattle.au_rwgroup.specs.Folds.{fold_width};
ghost use Rattle.au_rwgroup.specs.GroupPlan as plan;

use au_plain::PExpr;
use au_value::NoMemory;

/// How many ranges the box has, and where the fold stands, the values behind its keys, and the tests of the pair, which
/// [`crate::pair_tests`] adds behind the fold.
#[derive(Clone, Copy)]
pub(crate) struct JoinedRow {
    pub keys: usize,
    pub fold: usize,
    pub flags: usize,
    pub tests: usize,
    ghost flags_are: { flags ≡ fold + 3 * keys },
    ghost values: { flags + 2 < 2 ^ 64 },
    ghost room: { tests + 4 < 2 ^ 64 },
}

impl JoinedRow {
    /// The fold for so many keys and aggregates behind a box that has this width. `NoMemory` comes where a row cannot
    /// have so many columns.
    pub(crate) fn of(keys: usize, width: usize, aggs: usize) -> Result<JoinedRow, NoMemory>
        ensures keys { IfOk result (λ r. r.keys ≡ keys) }
        ensures fold { IfOk result (λ r. r.fold ≡ width) }
        ensures tests { IfOk result (λ r. r.tests ≡ width + fold_width keys aggs) }
        ensures room { IfOk result (λ r. r.flags + 2 + 5 * aggs ≡ r.tests) }
    {
        let Some(ends) = keys.checked_mul(3) else {
            return Err(NoMemory);
        };
        let Some(five_each) = aggs.checked_mul(5) else {
            return Err(NoMemory);
        };
        let Some(flags) = width.checked_add(ends) else {
            return Err(NoMemory);
        };
        let Some(values) = flags.checked_add(2) else {
            return Err(NoMemory);
        };
        let Some(tests) = values.checked_add(five_each) else {
            return Err(NoMemory);
        };
        match tests.checked_add(4) {
            Some(_) => Ok(JoinedRow {
                keys,
                fold: width,
                flags,
                tests,
            }),
            None => Err(NoMemory),
        }
    }

    /// Where the values of the fold's aggregates stand.
    pub(crate) fn values(self) -> usize
        ensures { result ≡ self.fold + 3 * self.keys + 2 }
    {
        self.flags + 2
    }

    /// The place behind the tests.
    pub(crate) fn behind_tests(self) -> usize
        ensures { result ≡ self.tests + 4 }
    {
        self.tests + 4
    }

    /// Whether each row of the fold surely has a copy.
    pub(crate) fn has_sure_copy(self) -> PExpr
        ensures { pterm result ≡ term.Column (self.fold + 3 * self.keys) }
    {
        PExpr::Column(self.flags)
    }

    /// Whether each has one in the guess world.
    pub(crate) fn has_guessed_copy(self) -> PExpr
        ensures { pterm result ≡ term.Column (self.fold + 3 * self.keys + 1) }
    {
        PExpr::Column(self.flags + 1)
    }

    pub(crate) fn is_sure(self) -> PExpr
        ensures { pterm result ≡ plan.is_sure (plan.places self.keys self.fold self.tests) }
    {
        PExpr::Column(self.tests)
    }

    pub(crate) fn belongs(self) -> PExpr
        ensures { pterm result ≡ plan.belongs (plan.places self.keys self.fold self.tests) }
    {
        PExpr::Column(self.tests + 1)
    }

    pub(crate) fn surely(self) -> PExpr
        ensures { pterm result ≡ plan.surely (plan.places self.keys self.fold self.tests) }
    {
        PExpr::Column(self.tests + 2)
    }

    pub(crate) fn guessed(self) -> PExpr
        ensures { pterm result ≡ plan.guessed (plan.places self.keys self.fold self.tests) }
    {
        PExpr::Column(self.tests + 3)
    }
}
