//! What a term stands over, and the aggregates that have been gathered from terms.
ghost use Rattle.std.specs.Prelude.{◌≡◌, ◌++◌, ◌∷◌, [], ◌+◌, length, map, OnOk, IfOk};
ghost use Rattle.au_expr.specs.Terms.{term};
ghost use Rattle.au_typing.specs.Aggregates.{column_agg};
ghost use Rattle.au_typing.specs.Results.{next_column, setting_view};

use au_algebra::Agg;
use au_expr::Expr;
use au_parse::AggWord;
use au_value::NoMemory;
use std::alloc::Global;

/// The groups of a SELECT: the places of its keys, whether GROUP BY is written, and whether the SELECT joins.
#[derive(Drop)]
pub(crate) struct Groups {
    pub keys: Vec<usize>,
    pub by: bool,
    pub joins: bool,
}

/// What a term stands over: the rows of the FROM items, or groups of them.
#[derive(Drop)]
pub(crate) enum Setting {
    Rows,
    Groups(Groups),
}

/// The aggregates that have been written so far: the argument of each, and what is taken of it.
#[derive(Drop)]
pub(crate) struct Gathered {
    pub arguments: Vec<Expr>,
    pub aggs: Vec<Agg>,
}

fn taken(word: AggWord, place: usize) -> Agg
    ensures { result ≡ column_agg word place }
{
    match word {
        AggWord::Count | AggWord::Sum => Agg::Sum(place),
        AggWord::Min => Agg::Min(place),
        AggWord::Max => Agg::Max(place),
    }
}

impl Gathered {
    /// None. It takes no memory.
    pub fn new(alloc: Global) -> Gathered
        ensures arguments { result.arguments.items ≡ [] }
        ensures aggs { result.aggs.items ≡ [] }
    {
        Gathered {
            arguments: Vec::new(alloc),
            aggs: Vec::new(alloc),
        }
    }

    /// Puts an aggregate behind the others, and gives its column.
    pub fn push(
        &mut self,
        setting: &Setting,
        word: AggWord,
        argument: Expr,
    ) -> Result<usize, NoMemory>
        ensures column { IfOk result (λ n. n ≡ next_column (setting_view setting.now) self.old) }
        ensures arguments { IfOk result (λ n. self.new.arguments.items ≡ self.old.arguments.items ++ argument ∷ []) }
        ensures aggs { IfOk result (λ n. self.new.aggs.items ≡ self.old.aggs.items ++ column_agg word n ∷ []) }
    {
        let before = match setting {
            Setting::Rows => 0,
            Setting::Groups(groups) => groups.keys.len(),
        };
        let column = before + self.arguments.len();
        self.arguments.push(argument)?;
        self.aggs.push(taken(word, column))?;
        Ok(column)
    }
}
