//! Laws of rows with counts.
ghost use Rattle.au_rwcounted.specs.Answers.{AnswerStands, PositiveAnswerHolds};
ghost use Rattle.au_rwcounted.specs.PairAnswers.{PairAnswersAreCounted};
ghost use Rattle.au_rwcounted.specs.Stands.{CountsHold, OperatorsStand};
ghost use Rattle.au_rwcounted.specs.Worked.{WorkedRows};

/// The four positive operators over rows with counts keep how each count compares with the copies in a list: counts that
/// are the copies stay so, and so do counts that are at most the copies.
pub fn counts_hold()
    ensures { CountsHold }
{}

/// Distinct, Group, Total and Difference over rows with the numbers of their copies stand for the ordinary operators.
pub fn operators_stand()
    ensures { OperatorsStand }
{}

/// The rows of a typed tree over tables of rows with the number of their copies have as many copies of each row of values
/// as the tree's ordinary answer.
pub fn answer_stands()
    ensures { AnswerStands }
{}

/// What the operators give of a few rows.
pub fn worked_rows()
    ensures { WorkedRows }
{}

/// The counts of a positive tree's rows, however many there are of each, compare with the copies in its ordinary answer as
/// those of its tables do.
pub fn positive_answer_holds()
    ensures { PositiveAnswerHolds }
{}

/// The positive operators over rows with pairs of certain and guessed copies give the rows that those over rows with two
/// counts give.
pub fn pair_answers_are_counted()
    ensures { PairAnswersAreCounted }
{}
