//! The output columns of a SELECT.
ghost use Rattle.std.specs.Prelude.{◌≡◌, ◌++◌, ◌∷◌, ◌+◌, [], Some, None, Contains, IfOk, IfErr, OnOk, codes, decimal, length, option_map};
ghost use Rattle.std.specs.Option.{option_copied};
ghost use Rattle.au_expr.specs.Terms.{term};
ghost use Rattle.au_parse.specs.Views.{item_view, term_tree};
ghost use Rattle.au_typing.specs.Items.{column_at as column_of, item_faults, item_outputs, item_written, star_faults, star_output, value_name};
ghost use Rattle.au_typing.specs.Results.{Gathers, Puts, PutsValue, next_column, output, scope_view, setting_view, star_outputs};
ghost use Rattle.au_typing.specs.Terms.{Setting as SettingOf, term_faults};
ghost use Rattle.au_typing.specs.Queries.{Refuses};

use crate::fault::TypingFault;
use crate::made_columns::MOST_COLUMNS;
use crate::scope::{Scope, column, is_owner, knows_owner};
use crate::setting::{Gathered, Setting};
use crate::terms::{Answer, column_at, typed_term};
use au_blocks::Column;
use au_expr::Expr;
use au_parse::{Item, Term};
use au_value::{Kind, NoMemory, Word};
use std::alloc::Global;

/// The output columns so far: their expressions, and their names and kinds.
#[derive(Drop)]
pub(crate) struct Outputs {
    pub exprs: Vec<Expr>,
    pub columns: Vec<Column>,
}

// The name of an output column without one, behind so many others.
fn numbered(alloc: Global, before: usize) -> Result<Word, NoMemory>
    ensures { IfOk result (λ name. name ≡ codes "col" ++ decimal (before + 1)) }
{
    let number = before as u128 + 1;
    Ok(Word::new(format!(in alloc; "col{number}")?))
}

impl Outputs {
    /// None. It takes no memory.
    pub fn new(alloc: Global) -> Outputs
        ensures exprs { result.exprs.items ≡ [] }
        ensures columns { result.columns.items ≡ [] }
    {
        Outputs {
            exprs: Vec::new(alloc),
            columns: Vec::new(alloc),
        }
    }

    /// Puts an output column behind the others. One without a name is named after its place. `NoMemory` comes also where
    /// there are as many as a tree may make.
    pub fn push(
        &mut self,
        alloc: Global,
        expr: Expr,
        name: Option<Word>,
        kind: Kind,
    ) -> Result<(), NoMemory>
        ensures exprs { OnOk result (self.new.exprs.items ≡ self.old.exprs.items ++ expr ∷ []) }
        ensures columns { OnOk result (self.new.columns.items ≡ self.old.columns.items ++ column_of (length self.old.columns.items + 1) (output (term expr) name kind) ∷ []) }
    {
        if self.columns.len() >= MOST_COLUMNS {
            return Err(NoMemory);
        }
        let name = match name {
            Some(word) => word,
            None => numbered(alloc, self.columns.len())?,
        };
        self.exprs.push(expr)?;
        self.columns.push(Column { name, kind })?;
        Ok(())
    }
}

// Puts the columns of a star, with or without a qualifier.
fn put_star(
    alloc: Global,
    scope: &Scope,
    setting: &Setting,
    outputs: &mut Outputs,
    at: usize,
    qualifier: Option<&Word>,
) -> Result<(), TypingFault>
    ensures puts { OnOk result (Puts (star_outputs (scope_view scope.now) (setting_view setting.now) (option_copied qualifier.entry)) outputs.old outputs.new) }
    ensures sound { OnOk result (star_faults (scope_view scope.now) (setting_view setting.now) at (option_copied qualifier.entry) ≡ []) }
    ensures fault { IfErr result (Refuses (star_faults (scope_view scope.now) (setting_view setting.now) at (option_copied qualifier.entry))) }
{
    for (place, field) in scope.fields.iter().enumerate() {
        if is_owner(qualifier, &field.owner) {
            let expr = match column_at(setting, at, place) {
                Ok(expr) => expr,
                Err(fault) => return Err(fault),
            };
            let name = field.name.copy()?;
            outputs.push(alloc, expr, Some(name), field.kind)?;
        }
    }
    Ok(())
}

// The name that a term brings: its alias, or the name of the column that it is.
fn value_name(scope: &Scope, what: &Term, alias: Option<&Word>) -> Result<Option<Word>, TypingFault>
    ensures name { IfOk result (λ o. o ≡ value_name (scope_view scope.now) (term_tree what.now) (option_copied alias.entry)) }
    ensures fault { IfErr result (λ f. (setting : SettingOf) → Refuses (term_faults (scope_view scope.now) setting 0 (term_tree what.now)) f) }
{
    if let Some(word) = alias {
        return Ok(Some(word.copy()?));
    }
    match what {
        Term::Column(name) => match column(scope, name) {
            Ok((_, field)) => Ok(Some(field.name.copy()?)),
            Err(fault) => Err(fault),
        },
        _ => Ok(None),
    }
}

// Puts the column of a term of this name.
fn put_value(
    alloc: Global,
    outputs: &mut Outputs,
    name: Result<Option<Word>, TypingFault>,
    found: Answer,
) -> Result<(), TypingFault>
    ensures { PutsValue outputs.old outputs.new name found result }
{
    match name {
        Ok(word) => match found {
            Ok((expr, kind)) => {
                outputs.push(alloc, expr, word, kind)?;
                Ok(())
            }
            Err(fault) => Err(fault),
        },
        Err(fault) => Err(fault),
    }
}

/// Puts the columns of an item, and its aggregates behind those that are gathered.
pub(crate) fn put_item(
    alloc: Global,
    scope: &Scope,
    setting: &Setting,
    gathered: &mut Gathered,
    outputs: &mut Outputs,
    item: &Item,
) -> Result<(), TypingFault>
    ensures puts { OnOk result (Puts (item_outputs (scope_view scope.now) (setting_view setting.now) (next_column (setting_view setting.now) gathered.old) (item_view item.now)) outputs.old outputs.new) }
    ensures gathers { OnOk result (Gathers (scope_view scope.now) (next_column (setting_view setting.now) gathered.old) (item_written (item_view item.now)) gathered.old gathered.new) }
    ensures sound { OnOk result (item_faults (scope_view scope.now) (setting_view setting.now) (item_view item.now) ≡ []) }
    ensures fault { IfErr result (Refuses (item_faults (scope_view scope.now) (setting_view setting.now) (item_view item.now))) }
{
    match item {
        Item::Star(at) => put_star(alloc, scope, setting, outputs, *at, None),
        Item::StarOf(at, qualifier) => {
            if !knows_owner(scope, Some(qualifier)) {
                return Err(TypingFault::UnknownTable(*at));
            }
            put_star(alloc, scope, setting, outputs, *at, Some(qualifier))
        }
        Item::Value(what, alias) => {
            let name = value_name(scope, what, alias.as_ref());
            let found = typed_term(alloc, scope, setting, gathered, 0, what);
            put_value(alloc, outputs, name, found)
        }
    }
}
