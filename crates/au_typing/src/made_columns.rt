//! How many columns a tree makes.
ghost use Rattle.std.specs.Prelude.{◌≡◌};
ghost use Rattle.au_algebra.specs.Trees.{tree};
ghost use Rattle.au_typing.specs.MadeColumns.{makes_at_most, makes_few_columns};

use au_algebra::Query;

/// As many columns as a tree may make along a path.
pub(crate) const MOST_COLUMNS: usize = 8192;

/// Whether a tree makes at most 8,192 columns along each path from its top to a table.
///
/// Each `*` takes all columns of its FROM, so that stars in nested SELECTs multiply, and a short query can ask for more
/// columns than memory holds. A plan has an operator for each of them, one below the other, and its passes go down from
/// operator to operator by recursion: so many fit the stack.
pub(crate) fn makes_few_columns(query: &Query) -> bool
    ensures { result ≡ makes_few_columns (tree query.now) }
{
    makes_at_most(MOST_COLUMNS, query)
}

fn makes_at_most(most: usize, query: &Query) -> bool
    ensures { result ≡ makes_at_most most (tree query.now) }
{
    match query {
        Query::Table(_) => true,
        Query::Select(_, of) | Query::Distinct(of) => makes_at_most(most, of),
        Query::Project(items, of) => {
            items.len() <= most && makes_at_most(most - items.len(), of)
        }
        Query::Product(left, right) | Query::Union(left, right) | Query::Difference(left, right) =>
            { makes_at_most(most, left) && makes_at_most(most, right) }
        Query::Group(keys, aggs, of) => {
            *keys <= most
                && aggs.len() <= most - *keys
                && makes_at_most(most - *keys - aggs.len(), of)
        }
        Query::Total(aggs, of) => aggs.len() <= most && makes_at_most(most - aggs.len(), of),
    }
}
