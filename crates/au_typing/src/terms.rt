//! Terms over a scope: the expression of each and its kind, or what is wrong with it.
ghost use Rattle.std.specs.Prelude.{◌≡◌, ◌≤◌, ℕ, [], Some, IfOk, IfErr, Contains};
ghost use Rattle.au_expr.specs.Terms.{term, Literal};
ghost use Rattle.au_parse.specs.Levels.{arms_tree, operator_of};
ghost use Rattle.au_parse.specs.Tree.{TermTree};
ghost use Rattle.au_parse.specs.Views.{term_tree};
ghost use Rattle.au_typing.specs.Joined.{ChoosesParts, JoinsOperands, OfPair, OfTriple};
ghost use Rattle.au_typing.specs.Results.{Answers, CaseAnswers, Chooses, EndsCase, Joins, Signs, Takes, scope_view, setting_view};
ghost use Rattle.au_typing.specs.Scales.{scale};
ghost use Rattle.au_typing.specs.Scopes.{Scope as ScopeOf};
ghost use Rattle.au_typing.specs.declared.setting.Gathered.{Gathered as GatheredOf};
ghost use Rattle.au_typing.specs.declared.fault.TypingFault.TheVariants as fault;
ghost use Rattle.au_value.specs.declared.kinds.Kind.TheVariants as kind;
ghost use Rattle.au_value.specs.declared.value.Value.TheVariants as value;
ghost use Rattle.au_typing.specs.Terms.{column_term, key_of, place_faults};

use crate::aggregates::{aggregate_fault, aggregate_kind, argument_of, counts, is_extreme};
use crate::fault::TypingFault;
use crate::kinds::branches_kind;
use crate::operators::{brought, operated, operator_kind, signed, signed_kind, when_kind};
use crate::scales::rescaled;
use crate::scope::{Scope, column};
use crate::setting::{Gathered, Setting};
use crate::shape::{Shape, Sign, shape_of};
use au_expr::Expr;
use au_parse::{AggWord, Name, Operation, Term};
use au_value::{Kind, Value, Word, both};
use std::alloc::Global;

/// The expression of the column at this place, over what a term stands over. The number is the place of what names it.
pub(crate) fn column_at(setting: &Setting, at: usize, place: usize) -> Result<Expr, TypingFault>
    ensures found { IfOk result (λ e. term e ≡ column_term (setting_view setting.now) (Some place)) }
    ensures sound { IfOk result (λ e. place_faults (setting_view setting.now) at (Some place) ≡ []) }
    ensures fault { IfErr result (Contains (place_faults (setting_view setting.now) at (Some place))) }
{
    match setting {
        Setting::Rows => Ok(Expr::Column(place)),
        Setting::Groups(groups) => match key_of(groups.keys.as_slice(), place) {
            Some(key) => Ok(Expr::Column(key)),
            None => Err(TypingFault::NotGrouped(at)),
        },
    }
}

// The number of the key that is the column at this place.
fn key_of(keys: &[usize], place: usize) -> Option<usize>
    ensures { result ≡ key_of keys.now place }
{
    keys.iter().position(|key| *key == place)
}

fn named_column(scope: &Scope, setting: &Setting, name: &Name) -> Answer
    ensures { (around : ℕ) (old : GatheredOf) → Answers (scope_view scope.now) (setting_view setting.now) around (TermTree.column name.now) old old result }
{
    match column(scope, name) {
        Ok((place, field)) => match column_at(setting, name.at, place) {
            Ok(expr) => Ok((expr, field.kind)),
            Err(fault) => Err(fault),
        },
        Err(fault) => Err(fault),
    }
}

// A text as it is written.
fn text(word: &Word) -> Answer
    ensures found { IfOk result (λ r. (term r.0 ≡ Literal (value.Text word.now)) × (r.1 ≡ kind.Text)) }
    ensures fault { IfErr result (λ f. f ≡ fault.NoMemory) }
{
    Ok((Expr::Literal(Value::Text(word.copy()?)), Kind::Text))
}

/// The expression of a term and its kind, or a fault.
pub(crate) type Answer = Result<(Expr, Kind), TypingFault>;

// The answers of two operands made that of their operator, where both are at hand.
fn join_both(
    alloc: Global,
    at: usize,
    operation: Operation,
    sides: Result<((Expr, Kind), (Expr, Kind)), TypingFault>,
) -> Answer
    ensures { OfPair (JoinsOperands (operator_of operation) at) sides result }
{
    match sides {
        Ok(((a, j), (b, k))) => match operator_kind(operation, j, k) {
            Some(kind) => Ok((operated(alloc, operation, j, k, a, b)?, kind)),
            None => Err(TypingFault::KindMismatch(at)),
        },
        Err(fault) => Err(fault),
    }
}

// The answers of two operands made that of their operator.
fn join(alloc: Global, at: usize, operation: Operation, left: Answer, right: Answer) -> Answer
    ensures { Joins (operator_of operation) at left right result }
{
    let sides = both(left, right);
    join_both(alloc, at, operation, sides)
}

// The answer of an operand made that of its sign or NOT.
fn sign(alloc: Global, at: usize, sign: Sign, inner: Answer) -> Answer
    ensures { Signs sign at inner result }
{
    match inner {
        Ok((e, k)) => match signed_kind(sign, k) {
            Some(kind) => Ok((signed(alloc, sign, e)?, kind)),
            None => Err(TypingFault::KindMismatch(at)),
        },
        Err(fault) => Err(fault),
    }
}

// The answer of a value made that of a branch, brought to a kind.
fn last_branch(alloc: Global, to: Option<Kind>, value: Answer) -> Answer
    requires { scale to ≤ 9 }
    ensures { EndsCase to value result }
{
    match value {
        Ok((e, k)) => Ok((rescaled(alloc, k, to, e)?, k)),
        Err(fault) => Err(fault),
    }
}

// The answers of a condition, a value and what follows made that of a WHEN part, where all are at hand.
fn choose_all(
    alloc: Global,
    at: usize,
    to: Option<Kind>,
    parts: Result<(((Expr, Kind), (Expr, Kind)), (Expr, Kind)), TypingFault>,
) -> Answer
    requires { scale to ≤ 9 }
    ensures { OfTriple (ChoosesParts at to) parts result }
{
    match parts {
        Ok((((c, i), (v, j)), (r, k))) => match when_kind(i, j, k) {
            Some(kind) => Ok((brought(alloc, j, to, c, v, r)?, kind)),
            None => Err(TypingFault::KindMismatch(at)),
        },
        Err(fault) => Err(fault),
    }
}

// The answers of a condition, a value and what follows made that of a WHEN part.
fn choose(
    alloc: Global,
    at: usize,
    to: Option<Kind>,
    condition: Answer,
    value: Answer,
    rest: Answer,
) -> Answer
    requires { scale to ≤ 9 }
    ensures { Chooses at to condition value rest result }
{
    let first = both(condition, value);
    let parts = both(first, rest);
    choose_all(alloc, at, to, parts)
}

// The answer of an argument made that of its aggregate, which is put behind those that are gathered.
fn aggregated(
    setting: &Setting,
    gathered: &mut Gathered,
    at: usize,
    word: AggWord,
    argument: Answer,
) -> Answer
    ensures { Takes (setting_view setting.now) word at gathered.old gathered.new argument result }
{
    match argument {
        Ok((e, k)) => match aggregate_kind(word, k) {
            Some(kind) => {
                let column = gathered.push(setting, word, argument_of(word, e))?;
                Ok((Expr::Column(column), kind))
            }
            None => Err(TypingFault::KindMismatch(at)),
        },
        Err(fault) => Err(fault),
    }
}

/// The expression of a term and its kind, with its aggregates put behind those that are gathered. The number is the
/// place of the CASE around a WHEN part.
#[cycle(terms)]
pub(crate) fn typed_term(
    alloc: Global,
    scope: &Scope,
    setting: &Setting,
    gathered: &mut Gathered,
    around: usize,
    what: &Term,
) -> Answer
    ensures { Answers (scope_view scope.now) (setting_view setting.now) around (term_tree what.now) gathered.old gathered.new result }
{
    match shape_of(what) {
        Shape::Column(name) => named_column(scope, setting, name),
        Shape::Number(_, n) => Ok((Expr::Literal(Value::Int(n)), Kind::Int)),
        Shape::Decimal(_, n, digits) => Ok((Expr::Literal(Value::Int(n)), Kind::Dec(digits))),
        Shape::Text(_, word) => text(word),
        Shape::Flag(_, b) => Ok((Expr::Literal(Value::Flag(b)), Kind::Flag)),
        Shape::Binary(at, operation, l, r) => {
            let left = typed_term(alloc, scope, setting, gathered, around, l);
            let right = typed_term(alloc, scope, setting, gathered, around, r);
            join(alloc, at, operation, left, right)
        }
        Shape::Unary(at, what_sign, e) => {
            let inner = typed_term(alloc, scope, setting, gathered, around, e);
            sign(alloc, at, what_sign, inner)
        }
        Shape::Case(at, arms, otherwise) => {
            let to = branches_kind(scope, arms, otherwise);
            typed_case(alloc, scope, setting, gathered, to, at, arms, otherwise)
        }
        Shape::CountRows(at) => counted_rows(setting, gathered, at),
        Shape::Aggregate(at, word, e) => {
            typed_aggregate(alloc, scope, setting, gathered, at, word, e)
        }
    }
}

// The same of the parts of the CASE at this place, each branch brought to a kind.
#[cycle(terms)]
fn typed_case(
    alloc: Global,
    scope: &Scope,
    setting: &Setting,
    gathered: &mut Gathered,
    to: Option<Kind>,
    around: usize,
    arms: &[(Term, Term)],
    otherwise: &Term,
) -> Answer
    requires { scale to ≤ 9 }
    ensures { CaseAnswers (scope_view scope.now) (setting_view setting.now) around to (arms_tree arms.now (term_tree otherwise.now)) gathered.old gathered.new result }
{
    let Some((arm, others)) = arms.split_first() else {
        let value = typed_term(alloc, scope, setting, gathered, around, otherwise);
        return last_branch(alloc, to, value);
    };
    let condition = typed_term(alloc, scope, setting, gathered, around, &arm.0);
    let value = typed_term(alloc, scope, setting, gathered, around, &arm.1);
    let rest = typed_case(
        alloc, scope, setting, gathered, to, around, others, otherwise,
    );
    choose(alloc, around, to, condition, value, rest)
}

// The same of COUNT(*).
fn counted_rows(setting: &Setting, gathered: &mut Gathered, at: usize) -> Answer
    ensures { (scope : ScopeOf) (around : ℕ) → Answers scope (setting_view setting.now) around (TermTree.count_rows at) gathered.old gathered.new result }
{
    if let Some(fault) = aggregate_fault(setting, at, false, true) {
        return Err(fault);
    }
    let one = Expr::Literal(Value::Int(1));
    let column = gathered.push(setting, AggWord::Count, one)?;
    Ok((Expr::Column(column), Kind::Int))
}

// The same of another aggregate.
#[cycle(terms)]
fn typed_aggregate(
    alloc: Global,
    scope: &Scope,
    setting: &Setting,
    gathered: &mut Gathered,
    at: usize,
    word: AggWord,
    e: &Term,
) -> Answer
    ensures { (around : ℕ) → Answers (scope_view scope.now) (setting_view setting.now) around (TermTree.aggregate at word (term_tree e.now)) gathered.old gathered.new result }
{
    if let Some(fault) = aggregate_fault(setting, at, is_extreme(word), counts(word, e)) {
        return Err(fault);
    }
    let mut inside = Gathered::new(alloc);
    let argument = typed_term(alloc, scope, &Setting::Rows, &mut inside, at, e);
    aggregated(setting, gathered, at, word, argument)
}
