//! Tokens to a statement: the limits, and then the query.
ghost use Rattle.std.specs.Prelude.{◌≡◌, None, Some, IfOk, IfErr, OnOk};
ghost use Rattle.au_parse.specs.Limits.{limit_fault};
ghost use Rattle.au_parse.specs.Parsing.{HasCause};
ghost use Rattle.au_parse.specs.Queries.{parsed_tree, without_semicolon};
ghost use Rattle.au_parse.specs.Views.{statement_tree};
ghost use Rattle.au_parse.specs.Whole.{WholeQuery};

use crate::limits::limit_fault;
use crate::places::misplaced;
use crate::queries::query;
use crate::words::is_semicolon;
use crate::{ParseFault, Statement};
use au_lex::Token;
use std::alloc::{AllocError, Global};

impl From<AllocError> for ParseFault {
    ghost use Rattle.au_parse.specs.declared.ParseFault.TheVariants.{NoMemory};

    ghost from_gives = { λ _ e. e ≡ NoMemory };

    fn from(_: AllocError) -> Self {
        ParseFault::NoMemory
    }
}

// A list without one last `;`.
fn without_semicolon(tokens: &[Token]) -> &[Token]
    ensures { result.now ≡ without_semicolon tokens.now }
{
    let Some((last, front)) = tokens.split_last() else {
        return tokens;
    };
    if is_semicolon(&last.what) {
        front
    } else {
        tokens
    }
}

/// The statement of the tokens of a query of this length in bytes.
///
/// A limit that is passed comes before a fault of syntax, and of several limits the one of the least place.
pub fn parse(alloc: Global, tokens: &[Token], length: usize) -> Result<Statement, ParseFault>
    ensures tree { IfOk result (λ s. parsed_tree tokens.now ≡ Some (statement_tree s)) }
    ensures whole { IfOk result (λ s. WholeQuery (statement_tree s)) }
    ensures within { OnOk result (limit_fault length tokens.now ≡ None) }
    ensures cause { IfErr result (HasCause length tokens.now) }
{
    if let Some(fault) = limit_fault(alloc, length, tokens)? {
        return Err(fault);
    }
    match query(alloc, without_semicolon(tokens))? {
        Some(statement) => Ok(statement),
        None => Err(ParseFault::Syntax(misplaced(tokens, length))),
    }
}
