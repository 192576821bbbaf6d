//! Plans over cells, made in place: each text that is written out becomes its number.
ghost use Rattle.std.specs.Prelude.{◌≡◌, map};
ghost use Rattle.au_codes.specs.CodedPlans.{coded_list, coded_literal, coded_literals, coded_term, coded_tree};
ghost use Rattle.au_codes.specs.TextCodes.{text_code};
ghost use Rattle.au_physical.specs.Physicals.{physical_tree};
ghost use Rattle.au_plain.specs.PTerms.{pterm};

use crate::book::Codebook;
use crate::text_codes::code_text;
use au_physical::Physical;
use au_plain::{PExpr, PRow};
use au_value::Value;
use std::mem;

/// Makes an expression one over cells.
#[cycle(coding)]
pub fn code_expr(book: &Codebook, tree: &mut PExpr)
    ensures { pterm tree.new ≡ coded_term (text_code book.now) (pterm tree.old) }
{
    match tree {
        PExpr::Column(_) => {}
        PExpr::Literal(value) => code_literal(book, value),
        PExpr::Negate(a) => code_expr(book, a),
        PExpr::Not(a) => code_expr(book, a),
        PExpr::Add(a, b) => {
            code_expr(book, a);
            code_expr(book, b);
        }
        PExpr::Subtract(a, b) => {
            code_expr(book, a);
            code_expr(book, b);
        }
        PExpr::Multiply(a, b) => {
            code_expr(book, a);
            code_expr(book, b);
        }
        PExpr::Compare(_, a, b) => {
            code_expr(book, a);
            code_expr(book, b);
        }
        PExpr::And(a, b) => {
            code_expr(book, a);
            code_expr(book, b);
        }
        PExpr::Or(a, b) => {
            code_expr(book, a);
            code_expr(book, b);
        }
        PExpr::Case(c, a, b) => {
            code_expr(book, c);
            code_expr(book, a);
            code_expr(book, b);
        }
        PExpr::Least(_) => {
            if let PExpr::Least(es) = mem::replace(tree, nothing()) {
                *tree = PExpr::Least(code_exprs(book, es));
            }
        }
        PExpr::Greatest(_) => {
            if let PExpr::Greatest(es) = mem::replace(tree, nothing()) {
                *tree = PExpr::Greatest(code_exprs(book, es));
            }
        }
    }
}

// The same for each of some expressions.
#[cycle(coding)]
fn code_exprs(book: &Codebook, mut es: Vec<PExpr>) -> Vec<PExpr>
    ensures { map pterm result.items ≡ map (λ e. coded_term (text_code book.now) (pterm e)) es.items }
{
    for i in 0..es.len() {
        code_expr(book, &mut es[i]);
    }
    es
}

// Stands in for an expression while its parts are changed.
fn nothing() -> PExpr {
    PExpr::Literal(Value::Int(0))
}

// A text becomes its number.
fn code_literal(book: &Codebook, value: &mut Value)
    ensures { value.new ≡ coded_literal (text_code book.now) value.old }
{
    if let Value::Text(word) = value {
        let number = code_text(book, word);
        *value = Value::Int(number);
    }
}

// Codes each value of a row.
fn code_literals(book: &Codebook, row: &mut [Value])
    ensures { row.new ≡ coded_literals (text_code book.now) row.old }
{
    for i in 0..row.len() {
        code_literal(book, &mut row[i]);
    }
}

// Codes each row.
fn code_rows(book: &Codebook, rows: &mut [PRow])
    ensures { map (λ row. row.items) rows.new ≡ coded_list (text_code book.now) (map (λ row. row.items) rows.old) }
{
    for i in 0..rows.len() {
        code_literals(book, &mut rows[i]);
    }
}

/// Makes a plan one over cells.
pub fn code_plan(book: &Codebook, plan: &mut Physical)
    ensures { physical_tree plan.new ≡ coded_tree (text_code book.now) (physical_tree plan.old) }
{
    match plan {
        Physical::Scan(_, _) => {}
        Physical::Rows(_, rows) => code_rows(book, rows),
        Physical::Keep(_, of) => code_plan(book, of),
        Physical::Group(_, _, of) => code_plan(book, of),
        Physical::Extend(e, of) => {
            code_expr(book, e);
            code_plan(book, of);
        }
        Physical::Filter(e, of) => {
            code_expr(book, e);
            code_plan(book, of);
        }
        Physical::Nested(e, left, right) => {
            code_expr(book, e);
            code_plan(book, left);
            code_plan(book, right);
        }
        Physical::Hash(_, e, left, right) => {
            code_expr(book, e);
            code_plan(book, left);
            code_plan(book, right);
        }
        Physical::Overlap(_, e, left, right) => {
            code_expr(book, e);
            code_plan(book, left);
            code_plan(book, right);
        }
        Physical::Union(left, right) => {
            code_plan(book, left);
            code_plan(book, right);
        }
    }
}
