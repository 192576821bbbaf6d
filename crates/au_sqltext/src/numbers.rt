//! The numbers of a plan: each fits the type that holds it, which is known of a number once it is read.
ghost use Rattle.std.specs.Prelude.{◌≡◌, map, true};
ghost use Rattle.std.specs.List.{list_all};
ghost use Rattle.au_expr.specs.Figures.{fit};
ghost use Rattle.au_expr.specs.Numbers.{number_if_any};
ghost use Rattle.au_plain.specs.PlanKinds.{row_fits};
ghost use Rattle.au_plain.specs.PTerms.{pterm};
ghost use Rattle.au_plain.specs.Plans.{plan_tree};
ghost use Rattle.au_sqltext.specs.Fitting.{agg_fits, is_usize, written_numbers_fit, term_fits};

use au_plain::{PAgg, PExpr, PRow, Plan};
use au_value::Value;

/// Reads each number of a plan. It changes nothing, and tells that each fits the type that holds it.
pub fn read_numbers(plan: &Plan)
    ensures { written_numbers_fit (plan_tree plan.now) ≡ true }
{
    match plan {
        Plan::Scan(table, width) => {
            read_place(*table);
            read_place(*width);
        }
        Plan::Rows(width, rows) => {
            read_place(*width);
            read_rows(rows);
        }
        Plan::Extend(e, of) | Plan::Filter(e, of) => {
            read_term(e);
            read_numbers(of);
        }
        Plan::Keep(places, of) => {
            read_places(places);
            read_numbers(of);
        }
        Plan::Join(e, left, right) => {
            read_term(e);
            read_numbers(left);
            read_numbers(right);
        }
        Plan::Union(left, right) => {
            read_numbers(left);
            read_numbers(right);
        }
        Plan::Group(keys, aggs, of) => {
            read_places(keys);
            read_aggs(aggs);
            read_numbers(of);
        }
    }
}

fn read_place(place: usize)
    ensures { is_usize place ≡ true }
{}

fn read_places(places: &[usize])
    ensures { list_all is_usize places.now ≡ true }
{
    for place in places {
        read_place(*place);
    }
}

fn read_agg(agg: PAgg)
    ensures { agg_fits agg ≡ true }
{
    match agg {
        PAgg::Sum(place) | PAgg::Min(place) | PAgg::Max(place) => read_place(place),
    }
}

fn read_aggs(aggs: &[PAgg])
    ensures { list_all agg_fits aggs.now ≡ true }
{
    for agg in aggs {
        read_agg(*agg);
    }
}

fn read_value(value: &Value)
    ensures { fit (number_if_any value.now) ≡ true }
{
    if let Value::Int(n) = value {
        let _n = *n;
    }
}

fn read_row(row: &[Value])
    ensures { row_fits row.now ≡ true }
{
    for value in row {
        read_value(value);
    }
}

fn read_rows(rows: &[PRow])
    ensures { list_all row_fits (map (λ row. row.items) rows.now) ≡ true }
{
    for row in rows {
        read_row(row);
    }
}

// Reads each number of an expression.
#[cycle(terms)]
fn read_term(e: &PExpr)
    ensures { term_fits (pterm e.now) ≡ true }
{
    match e {
        PExpr::Column(place) => read_place(*place),
        PExpr::Literal(value) => read_value(value),
        PExpr::Negate(a) | PExpr::Not(a) => read_term(a),
        PExpr::Add(a, b)
        | PExpr::Subtract(a, b)
        | PExpr::Multiply(a, b)
        | PExpr::Compare(_, a, b)
        | PExpr::And(a, b)
        | PExpr::Or(a, b) => {
            read_term(a);
            read_term(b);
        }
        PExpr::Case(c, a, b) => {
            read_term(c);
            read_term(a);
            read_term(b);
        }
        PExpr::Least(es) => read_terms(es),
        PExpr::Greatest(es) => read_terms(es),
    }
}

#[cycle(terms)]
fn read_terms(es: &[PExpr])
    ensures { list_all term_fits (map pterm es.now) ≡ true }
{
    for e in es {
        read_term(e);
    }
}
