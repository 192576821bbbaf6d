//! What the names of a SELECT mean.
ghost use Rattle.std.specs.Prelude.{◌≡◌, ◌<◌, [], Some, IfOk, IfErr, IfSome, Contains, length, position};
ghost use Rattle.std.specs.List.{list_any};
ghost use Rattle.std.specs.Option.{option_copied};
ghost use Rattle.std.specs.Str.{str_eq_ignore_ascii_case};
ghost use Rattle.au_typing.specs.Results.{scope_view};
ghost use Rattle.au_typing.specs.Scopes.{field_of, is_meant, is_owner, knows_owner, name_faults, place_of};

use crate::fault::TypingFault;
use au_parse::Name;
use au_value::{Kind, Word};

/// A column of a FROM item, with the name under which the item is visible.
#[derive(Drop)]
pub(crate) struct Field {
    pub owner: Word,
    pub name: Word,
    pub kind: Kind,
}

/// The names under which the FROM items of a SELECT are visible, and their columns in FROM order.
#[derive(Drop)]
pub(crate) struct Scope {
    pub owners: Vec<Word>,
    pub fields: Vec<Field>,
}

/// Whether two names are one.
pub(crate) fn same_word(a: &Word, b: &Word) -> bool
    ensures { result ≡ str_eq_ignore_ascii_case a.now b.now }
{
    a.as_str().eq_ignore_ascii_case(b.as_str())
}

/// Whether an item of this visible name is meant, where a qualifier may be written.
pub(crate) fn is_owner(qualifier: Option<&Word>, owner: &Word) -> bool
    ensures { result ≡ is_owner (option_copied qualifier.entry) owner.now }
{
    match qualifier {
        Some(word) => same_word(owner, word),
        None => true,
    }
}

// Whether a name may mean a column.
fn is_meant(name: &Name, field: &Field) -> bool
    ensures { result ≡ is_meant name.now field.now }
{
    is_owner(name.table.as_ref(), &field.owner) && same_word(&field.name, &name.column)
}

// The place of the first column that a name may mean.
fn place_in(fields: &[Field], name: &Name) -> Option<usize>
    ensures place { result ≡ position (is_meant name.now) fields.now }
    ensures within { IfSome result (λ i. i < length fields.now) }
{
    fields.iter().position(|field| is_meant(name, field))
}

// Whether a name may mean one of these columns.
fn occurs(fields: &[Field], name: &Name) -> bool
    ensures { result ≡ list_any (is_meant name.now) fields.now }
{
    fields.iter().any(|field| is_meant(name, field))
}

/// Whether a FROM item is visible under the qualifier, where one is written.
pub(crate) fn knows_owner(scope: &Scope, qualifier: Option<&Word>) -> bool
    ensures { result ≡ knows_owner (scope_view scope.now) (option_copied qualifier.entry) }
{
    match qualifier {
        Some(word) => is_among(scope.owners.as_slice(), word),
        None => true,
    }
}

// Whether a name is one of these.
pub(crate) fn is_among(owners: &[Word], word: &Word) -> bool
    ensures { result ≡ list_any (λ owner. str_eq_ignore_ascii_case owner word.now) owners.now }
{
    owners.iter().any(|owner| same_word(owner, word))
}

/// The column that a name means, and its place.
pub(crate) fn column<'a>(scope: &'a Scope, name: &Name) -> Result<(usize, &'a Field), TypingFault>
    ensures place { IfOk result (λ r. place_of (scope_view scope.now) name.now ≡ Some r.0) }
    ensures field { IfOk result (λ r. field_of (scope_view scope.now) name.now ≡ Some r.1.now) }
    ensures sound { IfOk result (λ r. name_faults (scope_view scope.now) name.now ≡ []) }
    ensures fault { IfErr result (Contains (name_faults (scope_view scope.now) name.now)) }
{
    if !knows_owner(scope, name.table.as_ref()) {
        return Err(TypingFault::UnknownTable(name.at));
    }
    let fields = scope.fields.as_slice();
    let Some(place) = place_in(fields, name) else {
        return Err(TypingFault::UnknownColumn(name.at));
    };
    if occurs(&fields[place + 1..], name) {
        return Err(TypingFault::Ambiguous(name.at));
    }
    Ok((place, &fields[place]))
}
