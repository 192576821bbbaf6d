//! The statement of a query's text.
ghost use Rattle.std.specs.Prelude.{◌≡◌, None, Some, Ok, IfOk, IfErr};
ghost use Rattle.au_parse.specs.Queries.{parsed_tree};
ghost use Rattle.au_parse.specs.Views.{statement_tree};
ghost use Rattle.au_parse.specs.Whole.{WholeQuery};
ghost use Rattle.au_engine.specs.Reading.{TextCause, TokensCause, parse_fault as parse_fault_of, refused_text, refused_tokens, statement_of, token_fault as token_fault_of};

use crate::faults::{EngineFault, LimitFault, QueryFault};
use au_lex::{LexFault, TokenList, tokens};
use au_parse::{ParseFault, Statement, parse};
use std::alloc::Global;

// The greatest length of a query, in bytes.
const MAX_LENGTH: usize = 65_536;

/// The statement of a query's text of at most 65,536 bytes.
///
/// A fault is that of the length, else that of the tokens, else that of the statement. A typing fault and `Overflow`
/// never come here.
pub fn read_query(alloc: Global, text: &str) -> Result<Statement, EngineFault>
    ensures allowed { IfOk result (λ s. refused_text text.now ≡ None) }
    ensures tree { IfOk result (λ s. statement_of text.now ≡ Some (statement_tree s)) }
    ensures whole { IfOk result (λ s. WholeQuery (statement_tree s)) }
    ensures refused { IfErr result (TextCause text.now) }
{
    if text.len() > MAX_LENGTH {
        return Err(EngineFault::Limit(LimitFault::QueryLength(text.len())));
    }
    match tokens(alloc, text) {
        Ok(list) => statement(alloc, &list, text.len()),
        Err(fault) => Err(token_fault(fault)),
    }
}

// The statement of a query's tokens.
fn statement(alloc: Global, list: &TokenList, length: usize) -> Result<Statement, EngineFault>
    ensures allowed { IfOk result (λ s. refused_tokens length (Ok list.now) ≡ None) }
    ensures tree { IfOk result (λ s. parsed_tree list.now ≡ Some (statement_tree s)) }
    ensures whole { IfOk result (λ s. WholeQuery (statement_tree s)) }
    ensures refused { IfErr result (TokensCause length list.now) }
{
    match parse(alloc, list.items(), length) {
        Ok(statement) => Ok(statement),
        Err(fault) => Err(parse_fault(fault)),
    }
}

// What a fault of the tokens is to the engine.
fn token_fault(fault: LexFault) -> EngineFault
    ensures { result ≡ token_fault_of fault }
{
    match fault {
        LexFault::BadChar(at) => EngineFault::Query(QueryFault::BadChar(at)),
        LexFault::OpenText(at) => EngineFault::Query(QueryFault::OpenText(at)),
        LexFault::BadNumber(at) => EngineFault::Query(QueryFault::BadNumber(at)),
        LexFault::TooManyTokens => EngineFault::Limit(LimitFault::Tokens),
        LexFault::NoMemory => EngineFault::NoMemory,
    }
}

// What a fault of the statement is to the engine.
fn parse_fault(fault: ParseFault) -> EngineFault
    ensures { result ≡ parse_fault_of fault }
{
    match fault {
        ParseFault::Syntax(at) => EngineFault::Query(QueryFault::Syntax(at)),
        ParseFault::TooDeep(at) => EngineFault::Limit(LimitFault::Depth(at)),
        ParseFault::TooManyFrom(at) => EngineFault::Limit(LimitFault::FromItems(at)),
        ParseFault::TooManyItems(at) => EngineFault::Limit(LimitFault::SelectItems(at)),
        ParseFault::NoMemory => EngineFault::NoMemory,
    }
}
