//! The lines of a program, written behind a text.
ghost use Rattle.std.specs.Prelude.{◌≡◌, ◌+◌, ◌++◌, IfOk, OnOk, codes, decimal, string_bytes};
ghost use Rattle.au_physical.specs.Physicals.{physical_tree};
ghost use Rattle.au_explain.specs.Lines.{plan_lines};
ghost use Rattle.au_program.specs.Sources.{count as count_of};
ghost use Rattle.au_engine.specs.Explaining.{kept_text, last_text, name_at, names_of, parts_text, program_text, source_line, sources_text, step_head, step_name, steps_in as steps_in_of, steps_text, ways_lines};

use au_blocks::Table;
use au_explain::push_plan;
use au_physical::Physical;
use au_program::{Program, Sources, Ways, count, more};
use au_sqltext::{push_columns_at, push_number};
use au_value::{NoMemory, Word};

// How many steps are run for some sources.
#[cycle(steps)]
fn steps_in(sources: &Sources) -> Result<usize, NoMemory>
    ensures { IfOk result (λ n. n ≡ steps_in_of sources.now) }
{
    match sources {
        Sources::Nothing => Ok(0),
        Sources::Table(before, _, _) => steps_in(before),
        Sources::Step(before, own, _) => next_step(steps_in(before)?, own),
        Sources::Pairs(before, left, right, _) => {
            let first = next_step(steps_in(before)?, left)?;
            next_step(first, right)
        }
    }
}

// The number of a step over sources of its own, behind so many steps.
#[cycle(steps)]
fn next_step(ran: usize, own: &Sources) -> Result<usize, NoMemory>
    ensures { IfOk result (λ n. n ≡ ran + steps_in_of own.now + 1) }
{
    let before = more(ran, steps_in(own)?)?;
    more(before, 1)
}

// ---- sources

fn push_name(out: &mut String, tables: &[(Word, Table)], place: usize) -> Result<(), NoMemory>
    ensures { OnOk result (string_bytes out.new ≡ string_bytes out.old ++ name_at (names_of tables.now) place) }
{
    match tables.get(place) {
        Some(table) => {
            out.push_str(table.0.as_str())?;
            Ok(())
        }
        None => Ok(()),
    }
}

fn push_kept(out: &mut String, kept: &Option<Vec<usize>>) -> Result<(), NoMemory>
    ensures { OnOk result (string_bytes out.new ≡ string_bytes out.old ++ kept_text kept.now) }
{
    match kept {
        Some(places) => {
            out.push_str(" (")?;
            push_columns_at(out, places)?;
            out.push_str(")")?;
            Ok(())
        }
        None => Ok(()),
    }
}

// What stands before the words for a source.
fn push_place(out: &mut String, place: usize) -> Result<(), NoMemory>
    ensures { OnOk result (string_bytes out.new ≡ string_bytes out.old ++ (codes "  t" ++ decimal place ++ codes " = ")) }
{
    out.push_str("  t")?;
    push_number(out, place)?;
    out.push_str(" = ")?;
    Ok(())
}

fn push_step_name(out: &mut String, number: usize) -> Result<(), NoMemory>
    ensures { OnOk result (string_bytes out.new ≡ string_bytes out.old ++ step_name number) }
{
    out.push_str("step ")?;
    push_number(out, number)
}

// A table of which just some columns are read, or all.
fn push_table(
    out: &mut String,
    tables: &[(Word, Table)],
    place: usize,
    table: usize,
    kept: &Option<Vec<usize>>,
) -> Result<(), NoMemory>
    ensures { OnOk result (string_bytes out.new ≡ string_bytes out.old ++ source_line place (name_at (names_of tables.now) table ++ kept_text kept.now)) }
{
    push_place(out, place)?;
    push_name(out, tables, table)?;
    push_kept(out, kept)?;
    out.push_str("\n")?;
    Ok(())
}

// What a step finds.
fn push_found(out: &mut String, place: usize, number: usize) -> Result<(), NoMemory>
    ensures { OnOk result (string_bytes out.new ≡ string_bytes out.old ++ source_line place (step_name number)) }
{
    push_place(out, place)?;
    push_step_name(out, number)?;
    out.push_str("\n")?;
    Ok(())
}

// The guesses of what a step finds.
fn push_guesses(out: &mut String, place: usize, number: usize) -> Result<(), NoMemory>
    ensures { OnOk result (string_bytes out.new ≡ string_bytes out.old ++ source_line place (codes "guesses of " ++ step_name number)) }
{
    push_place(out, place)?;
    out.push_str("guesses of ")?;
    push_step_name(out, number)?;
    out.push_str("\n")?;
    Ok(())
}

// What is possible of what a step finds, in at most so many rows.
fn push_possible(out: &mut String, place: usize, number: usize, size: u32) -> Result<(), NoMemory>
    ensures { OnOk result (string_bytes out.new ≡ string_bytes out.old ++ source_line place (step_name number ++ codes " in rows: " ++ decimal size)) }
{
    push_place(out, place)?;
    push_step_name(out, number)?;
    out.push_str(" in rows: ")?;
    push_number(out, size as usize)?;
    out.push_str("\n")?;
    Ok(())
}

// The parts of what two steps find.
#[tactic(auto, unfolding(crate::specs::Explaining::parts_text))]
fn push_parts(
    out: &mut String,
    place: usize,
    left: usize,
    right: usize,
    size: u32,
) -> Result<(), NoMemory>
    ensures { OnOk result (string_bytes out.new ≡ string_bytes out.old ++ parts_text place left right size) }
{
    push_guesses(out, place, left)?;
    push_guesses(out, more(place, 1)?, right)?;
    push_possible(out, more(place, 2)?, left, size)?;
    push_possible(out, more(place, 3)?, right, size)
}

// The parts of what two plans find, behind so many steps and some sources.
fn push_pairs(
    out: &mut String,
    ran: usize,
    before: &Sources,
    left: &Sources,
    right: &Sources,
    size: u32,
) -> Result<(), NoMemory>
    ensures { OnOk result (string_bytes out.new ≡ string_bytes out.old ++ parts_text (count_of before.now) (ran + steps_in_of before.now + steps_in_of left.now + 1) (ran + steps_in_of before.now + steps_in_of left.now + 1 + steps_in_of right.now + 1) size) }
{
    let place = count(before)?;
    let first = next_step(more(ran, steps_in(before)?)?, left)?;
    let second = next_step(first, right)?;
    push_parts(out, place, first, second, size)?;
    Ok(())
}

// The sources of a plan, behind so many steps.
fn push_sources(
    out: &mut String,
    tables: &[(Word, Table)],
    ran: usize,
    sources: &Sources,
) -> Result<(), NoMemory>
    ensures { OnOk result (string_bytes out.new ≡ string_bytes out.old ++ sources_text (names_of tables.now) ran sources.now) }
{
    match sources {
        Sources::Nothing => Ok(()),
        Sources::Table(before, table, kept) => {
            push_sources(out, tables, ran, before)?;
            push_table(out, tables, count(before)?, *table, kept)
        }
        Sources::Step(before, own, _) => {
            push_sources(out, tables, ran, before)?;
            let number = next_step(more(ran, steps_in(before)?)?, own)?;
            push_found(out, count(before)?, number)
        }
        Sources::Pairs(before, left, right, pairing) => {
            push_sources(out, tables, ran, before)?;
            push_pairs(out, ran, before, left, right, pairing.size)
        }
    }
}

// ---- steps

// Two plans of which one is run.
fn push_choice(out: &mut String, first: &Physical, second: &Physical) -> Result<(), NoMemory>
    ensures { OnOk result (string_bytes out.new ≡ string_bytes out.old ++ (codes "  where keys repeat:\n" ++ plan_lines 2 (physical_tree first.now) ++ codes "  where they differ:\n" ++ plan_lines 2 (physical_tree second.now))) }
{
    out.push_str("  where keys repeat:\n")?;
    push_plan(out, 2, first)?;
    out.push_str("  where they differ:\n")?;
    push_plan(out, 2, second)?;
    Ok(())
}

fn push_ways(out: &mut String, how: &Ways) -> Result<(), NoMemory>
    ensures { OnOk result (string_bytes out.new ≡ string_bytes out.old ++ ways_lines how.now) }
{
    match how {
        Ways::Plan(plan) => push_plan(out, 1, plan),
        Ways::ByKeys(_, first, second) => push_choice(out, first, second),
    }
}

// The name of a step and its own sources, behind so many steps.
fn push_head(
    out: &mut String,
    tables: &[(Word, Table)],
    ran: usize,
    own: &Sources,
) -> Result<(), NoMemory>
    ensures { OnOk result (string_bytes out.new ≡ string_bytes out.old ++ step_head (names_of tables.now) ran own.now) }
{
    push_step_name(out, next_step(ran, own)?)?;
    out.push_str("\n")?;
    push_sources(out, tables, ran, own)
}

// The steps for the sources of a step, and what is to be said of it before its plan.
#[cycle(lines)]
fn push_own(
    out: &mut String,
    tables: &[(Word, Table)],
    ran: usize,
    own: &Sources,
) -> Result<(), NoMemory>
    ensures { OnOk result (string_bytes out.new ≡ string_bytes out.old ++ (steps_text (names_of tables.now) ran own.now ++ step_head (names_of tables.now) ran own.now)) }
{
    push_steps(out, tables, ran, own)?;
    push_head(out, tables, ran, own)
}

// All steps that are run for some sources, behind so many others.
#[cycle(lines)]
fn push_steps(
    out: &mut String,
    tables: &[(Word, Table)],
    ran: usize,
    sources: &Sources,
) -> Result<(), NoMemory>
    ensures { OnOk result (string_bytes out.new ≡ string_bytes out.old ++ steps_text (names_of tables.now) ran sources.now) }
{
    match sources {
        Sources::Nothing => Ok(()),
        Sources::Table(before, _, _) => push_steps(out, tables, ran, before),
        Sources::Step(before, own, how) => {
            push_steps(out, tables, ran, before)?;
            push_own(out, tables, more(ran, steps_in(before)?)?, own)?;
            push_ways(out, how)
        }
        Sources::Pairs(before, left, right, pairing) => {
            push_steps(out, tables, ran, before)?;
            let first = more(ran, steps_in(before)?)?;
            push_own(out, tables, first, left)?;
            push_plan(out, 1, &pairing.left)?;
            push_own(out, tables, next_step(first, left)?, right)?;
            push_plan(out, 1, &pairing.right)
        }
    }
}

// ---- programs

// The sources and the lines of the last plan, behind its title.
fn push_last(out: &mut String, tables: &[(Word, Table)], program: &Program) -> Result<(), NoMemory>
    ensures { OnOk result (string_bytes out.new ≡ string_bytes out.old ++ last_text (names_of tables.now) program.now) }
{
    out.push_str("\n")?;
    push_sources(out, tables, 0, &program.sources)?;
    push_plan(out, 1, &program.plan)
}

/// A program over tables.
pub(crate) fn push_program(
    out: &mut String,
    tables: &[(Word, Table)],
    program: &Program,
) -> Result<(), NoMemory>
    ensures { OnOk result (string_bytes out.new ≡ string_bytes out.old ++ program_text (names_of tables.now) program.now) }
{
    push_steps(out, tables, 0, &program.sources)?;
    out.push_str("answer")?;
    push_last(out, tables, program)?;
    Ok(())
}
