//! A SELECT over its FROM items.
ghost use Rattle.std.specs.Prelude.{◌≡◌, [], IfErr, IfOk, OnOk, flat_map, map, option_map};
ghost use Rattle.au_algebra.specs.Trees.{tree};
ghost use Rattle.au_expr.specs.Terms.{term};
ghost use Rattle.au_typing.specs.Items.{items_faults};
ghost use Rattle.au_typing.specs.Scopes.{name_faults};
ghost use Rattle.au_parse.specs.Views.{condition_view, item_view};
ghost use Rattle.au_typing.specs.Results.{ClauseAnswers, ClausesAnswer, FilterAnswers, IsFlag, ItemsFound, SelectAnswer, TermsAnswer, all_terms, clauses_of, from_view, held_body, held_typing, part_typing, scope_view, setting_view};
ghost use Rattle.au_typing.specs.Selects.{is_grouped, key_places, resolved_select, setting_of};
ghost use Rattle.au_typing.specs.Queries.{Refuses};

use crate::aggregates::have_aggregate;
use crate::fault::TypingFault;
use crate::from_items::{FromPart, alias_fault, is_join, product, scope_of};
use crate::outputs::{Outputs, put_item};
use crate::part::Part;
use crate::scope::{Scope, column};
use crate::setting::{Gathered, Groups, Setting};
use crate::terms::{Answer, typed_term};
use crate::trees::{distinct_if, grouped, selected};
use au_algebra::Query;
use au_expr::Expr;
use au_parse::{Item, Name, SelectPart, Term};
use au_value::{Kind, NoMemory, beside, both};
use std::alloc::Global;

/// The expression of WHERE, the output columns, the aggregates, and the expression of HAVING.
#[derive(Drop)]
pub(crate) struct ClauseTerms {
    pub filter: Option<Expr>,
    pub having: Option<Expr>,
    pub gathered: Gathered,
    pub outputs: Outputs,
}

// Whether a SELECT is grouped, by GROUP BY, HAVING or an aggregate in its items.
fn is_grouped(part: &SelectPart) -> bool
    ensures { result ≡ is_grouped (clauses_of part.now) }
{
    part.grouped || part.having.is_some() || have_aggregate(part.items.as_slice())
}

// The places of the keys.
fn key_places(alloc: Global, scope: &Scope, keys: &[Name]) -> Result<Vec<usize>, TypingFault>
    ensures places { IfOk result (λ v. v.items ≡ key_places (scope_view scope.now) keys.now) }
    ensures sound { IfOk result (λ v. flat_map (name_faults (scope_view scope.now)) keys.now ≡ []) }
    ensures fault { IfErr result (Refuses (flat_map (name_faults (scope_view scope.now)) keys.now)) }
{
    let mut places = Vec::new(alloc);
    for key in keys {
        match column(scope, key) {
            Ok((place, _)) => places.push(place)?,
            Err(fault) => return Err(fault),
        }
    }
    Ok(places)
}

// The expression of a WHERE or HAVING, if there is one.
fn condition(
    alloc: Global,
    scope: &Scope,
    setting: &Setting,
    gathered: &mut Gathered,
    clause: &Option<(usize, Term)>,
) -> Result<Option<Expr>, TypingFault>
    ensures { ClauseAnswers (scope_view scope.now) (setting_view setting.now) (condition_view clause.now) gathered.old gathered.new result }
{
    match clause {
        Some((at, what)) => {
            let found = typed_term(alloc, scope, setting, gathered, *at, what);
            flag(*at, found)
        }
        None => Ok(None),
    }
}

// The expression of a condition at this place, where it is a flag.
fn flag(at: usize, found: Answer) -> Result<Option<Expr>, TypingFault>
    ensures { IsFlag at found result }
{
    match found {
        Ok((expr, Kind::Flag)) => Ok(Some(expr)),
        Ok(_) => Err(TypingFault::KindMismatch(at)),
        Err(fault) => Err(fault),
    }
}

// What the terms of the items and of HAVING stand over.
fn setting_of(
    alloc: Global,
    scope: &Scope,
    joins: bool,
    part: &SelectPart,
) -> Result<Setting, TypingFault>
    ensures setting { IfOk result (λ g. setting_view g ≡ setting_of (scope_view scope.now) joins (clauses_of part.now)) }
    ensures sound { IfOk result (λ g. flat_map (name_faults (scope_view scope.now)) (clauses_of part.now).keys ≡ []) }
    ensures fault { IfErr result (Refuses (flat_map (name_faults (scope_view scope.now)) (clauses_of part.now).keys)) }
{
    match key_places(alloc, scope, part.keys.as_slice()) {
        Ok(keys) => {
            if is_grouped(part) {
                let by = part.grouped;
                Ok(Setting::Groups(Groups { keys, by, joins }))
            } else {
                Ok(Setting::Rows)
            }
        }
        Err(fault) => Err(fault),
    }
}

// Puts the columns of items, and their aggregates behind those that are gathered.
fn put_items(
    alloc: Global,
    scope: &Scope,
    setting: &Setting,
    gathered: &mut Gathered,
    outputs: &mut Outputs,
    items: &[Item],
) -> Result<(), TypingFault>
    ensures found { OnOk result (ItemsFound (scope_view scope.now) (setting_view setting.now) (map item_view items.now) gathered.old gathered.new outputs.old outputs.new) }
    ensures fault { IfErr result (Refuses (items_faults (scope_view scope.now) (setting_view setting.now) (map item_view items.now))) }
{
    for item in items {
        if let Err(fault) = put_item(alloc, scope, setting, gathered, outputs, item) {
            return Err(fault);
        }
    }
    Ok(())
}

// The expression of WHERE, if there is one.
fn filter_of(
    alloc: Global,
    scope: &Scope,
    clause: &Option<(usize, Term)>,
) -> Result<Option<Expr>, TypingFault>
    ensures { FilterAnswers (scope_view scope.now) (condition_view clause.now) result }
{
    let mut none = Gathered::new(alloc);
    condition(alloc, scope, &Setting::Rows, &mut none, clause)
}

// The terms of the clauses, where none has a fault.
fn all_terms(
    filter: Result<Option<Expr>, TypingFault>,
    items: Result<(), TypingFault>,
    having: Result<Option<Expr>, TypingFault>,
    gathered: Gathered,
    outputs: Outputs,
) -> Result<ClauseTerms, TypingFault>
    ensures { result ≡ all_terms filter items having gathered outputs }
{
    let first = both(filter, items);
    let terms = both(first, having);
    match beside(terms, (gathered, outputs)) {
        Ok(held) => Ok(ClauseTerms {
            filter: held.0.0.0,
            having: held.0.1,
            gathered: held.1.0,
            outputs: held.1.1,
        }),
        Err(fault) => Err(fault),
    }
}

// The terms of the clauses of a SELECT.
fn terms_of(
    alloc: Global,
    scope: &Scope,
    setting: &Setting,
    part: &SelectPart,
) -> Result<ClauseTerms, TypingFault>
    ensures { TermsAnswer (scope_view scope.now) (setting_view setting.now) (clauses_of part.now) result }
{
    let mut gathered = Gathered::new(alloc);
    let mut outputs = Outputs::new(alloc);
    let filter = filter_of(alloc, scope, &part.condition);
    let list = part.items.as_slice();
    let items = put_items(alloc, scope, setting, &mut gathered, &mut outputs, list);
    let having = condition(alloc, scope, setting, &mut gathered, &part.having);
    all_terms(filter, items, having, gathered, outputs)
}

// What the terms of the clauses stand over, and these terms.
fn clauses_in(
    alloc: Global,
    scope: &Scope,
    joins: bool,
    part: &SelectPart,
) -> Result<(Setting, ClauseTerms), TypingFault>
    ensures { ClausesAnswer (scope_view scope.now) joins (clauses_of part.now) result }
{
    match setting_of(alloc, scope, joins, part) {
        Ok(setting) => match terms_of(alloc, scope, &setting, part) {
            Ok(terms) => Ok((setting, terms)),
            Err(fault) => Err(fault),
        },
        Err(fault) => Err(fault),
    }
}

// The same over these FROM items.
fn clauses_over(
    alloc: Global,
    part: &SelectPart,
    from: &[FromPart],
) -> Result<(Setting, ClauseTerms), TypingFault>
    ensures { SelectAnswer (clauses_of part.now) (map from_view from.now) result }
{
    match alias_fault(from) {
        Some(fault) => Err(fault),
        None => {
            let scope = scope_of(alloc, from)?;
            clauses_in(alloc, &scope, is_join(from), part)
        }
    }
}

// The tree below the items.
fn body(
    alloc: Global,
    setting: Setting,
    filter: Option<Expr>,
    having: Option<Expr>,
    gathered: Gathered,
    query: Query,
) -> Result<Query, NoMemory>
    ensures { IfOk result (λ q. tree q ≡ held_body setting (option_map term filter) (option_map term having) gathered (tree query)) }
{
    let others = (setting, (having, gathered));
    let (rows, others) = beside(selected(alloc, filter, query), others)?;
    let (setting, (having, gathered)) = others;
    match setting {
        Setting::Rows => Ok(rows),
        Setting::Groups(groups) => {
            let groups = grouped(alloc, groups, gathered, rows)?;
            selected(alloc, having, groups)
        }
    }
}

// The tree of these terms over a tree of the FROM items, and its columns.
fn part_of(
    alloc: Global,
    distinct: bool,
    joins: bool,
    setting: Setting,
    terms: ClauseTerms,
    query: Query,
) -> Result<Part, NoMemory>
    ensures { IfOk result (λ p. part_typing p ≡ held_typing distinct joins setting terms (tree query)) }
{
    let ClauseTerms {
        filter,
        having,
        gathered,
        outputs,
    } = terms;
    let Outputs { exprs, columns } = outputs;
    let below = body(alloc, setting, filter, having, gathered, query)?;
    let items = Query::Project(exprs, Box::new(alloc, below)?);
    let query = distinct_if(alloc, distinct, items)?;
    Part::new(query, columns, joins)
}

/// A SELECT over these FROM items.
pub(crate) fn select(
    alloc: Global,
    part: &SelectPart,
    from: Vec<FromPart>,
) -> Result<Part, TypingFault>
    ensures part { IfOk result (λ p. part_typing p ≡ resolved_select (clauses_of part.now) (map from_view from.items)) }
    ensures fault { IfErr result (Refuses ((resolved_select (clauses_of part.now) (map from_view from.items)).faults)) }
{
    let joins = is_join(from.as_slice());
    match clauses_over(alloc, part, from.as_slice()) {
        Ok((setting, terms)) => {
            let (rows, (setting, terms)) = beside(product(alloc, from), (setting, terms))?;
            Ok(part_of(alloc, part.distinct, joins, setting, terms, rows)?)
        }
        Err(fault) => Err(fault),
    }
}
