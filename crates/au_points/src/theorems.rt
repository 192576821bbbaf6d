//! What grouping by points promises. Each law is the contract of a function that does nothing.
ghost use Rattle.au_points.specs.BesideGroup.{OthersArePossible, PointsGuessAlike, PointsLieWithin, SameWhereAllCertain, SameWhereCertain};
ghost use Rattle.au_points.specs.GroupingFits.{HullsAreGroup};
ghost use Rattle.au_points.specs.Groupings.{AnyGrouping};
ghost use Rattle.au_points.specs.GuessRows.{PointsAreDistinct};
ghost use Rattle.au_points.specs.PointLaws.{AnyProductByPoints, BoundedByPointsAnswers, PointsKeepGroups};
ghost use Rattle.au_points.specs.Worked.{WorkedRows};

/// A grouping that keeps what Group and Distinct keep may stand in their place, beside a product that keeps what Product
/// keeps: the relation of each typed tree, and its answer, then bound the ordinary answer and guess it exactly.
pub fn any_grouping()
    ensures { AnyGrouping }
{}

/// Grouping by points keeps what Group and Distinct keep.
pub fn points_keep_groups()
    ensures { PointsKeepGroups }
{}

/// The relation by points of each typed tree bounds its ordinary answer and guesses it exactly.
pub fn bounded_by_points_answers()
    ensures { BoundedByPointsAnswers }
{}

/// The same with any product that keeps what Product keeps.
pub fn any_product_by_points()
    ensures { AnyProductByPoints }
{}

/// Each point's row lies within the row of Group for the same guessed keys.
pub fn points_lie_within()
    ensures { PointsLieWithin }
{}

/// Where the keys of all rows that guess a point are certain, its row is Group's own.
pub fn same_where_certain()
    ensures { SameWhereCertain }
{}

/// Where the keys of all rows are certain, grouping by points is Group.
pub fn same_where_all_certain()
    ensures { SameWhereAllCertain }
{}

/// Each row of values is guessed as often by points as by Group.
pub fn points_guess_alike()
    ensures { PointsGuessAlike }
{}

/// Of the groups whose keys nobody guessed none is certain and none is guessed.
pub fn others_are_possible()
    ensures { OthersArePossible }
{}

/// With Product, Group and Distinct themselves the relation, the answer and the test of its numbers are the bounded ones.
pub fn hulls_are_group()
    ensures { HullsAreGroup }
{}

/// Without aggregates the rows of the points are distinct rows of guesses.
pub fn points_are_distinct()
    ensures { PointsAreDistinct }
{}

/// What some queries give by points.
pub fn worked_rows()
    ensures { WorkedRows }
{}
