//! What the program prints with one command and reads with another. It is the contract of a function that does nothing.
ghost use Rattle.au_cli.specs.Outputs.{OutputsAreAnswered};

/// A plan that `rewrite` printed can be run over what `encode` printed for its tables. It then prints the encoded rows of
/// the statement's bounded relation, ordered by their values.
pub fn outputs_are_answered()
    ensures { OutputsAreAnswered }
{}
