//! The words of a command line.
ghost use Rattle.std.specs.Prelude.{◌≡◌, Ok, Err, IfOk, IfErr};
ghost use Rattle.au_words.specs.Words.{asked_of};
ghost use Rattle.au_words.specs.CommandLine.{IsUsage, seen};

mod asking;
mod form;
mod numbers;
mod reader;
mod table_words;

use crate::answer_form::Form;
use crate::fault::UsageFault;
use crate::words::asking::read_words;
use au_value::{NoMemory, Word};
use std::alloc::Global;
use std::marker::Model;
use thiserror::Error;

/// A command that answers a query.
#[derive(Clone, Copy, Debug, PartialEq, Eq)]
pub enum Command {
    /// The bounded answer, by the rewritten plan.
    Answer,

    /// The bounded answer, by the generic evaluator.
    Direct,

    /// The answer over the selected-guess world.
    Guess,

    /// The rows of the selected-guess world, each with how often it is certain.
    Ua,

    /// The text of the rewritten plan.
    Rewrite,

    /// The text of the program by which a query is answered.
    Explain,
}

/// A table word: a table's name and the path of its file.
#[derive(Clone, Copy, Debug)]
pub struct TableWord<'a> {
    /// The table's name.
    pub name: &'a str,

    /// The path of the table's file.
    pub path: &'a str,
}

/// What a query's command line asks for.
#[derive(Debug, Drop)]
pub struct Request<'a> {
    /// The command.
    pub command: Command,

    /// The form of the bounded answer.
    pub form: Form,

    /// Whether the rows of the answer are combined.
    pub combine: bool,

    /// Whether rows are grouped by points.
    pub points: bool,

    /// How many workers share the work, 1 to 64.
    pub workers: usize,

    /// To how many rows each side of a join is compressed, 1 to 1,000, if that is asked for.
    pub compress: Option<u32>,

    /// The query's text.
    pub query: &'a str,

    /// The tables, in the order of their words.
    pub tables: Vec<TableWord<'a>>,
}

/// What a command line asks for.
#[derive(Debug, Drop)]
pub enum Asked<'a> {
    /// The answer of a query.
    Query(Request<'a>),

    /// A demonstration.
    Demo {
        /// Where the draws start.
        start: u32,

        /// The number of blocks.
        blocks: u32,

        /// How many workers share the work, 1 to 64.
        workers: usize,
    },

    /// A table with its rows encoded.
    Encode(TableWord<'a>),

    /// The rows of a plan that is read from a file.
    Plain {
        /// The path of the plan's file.
        plan: &'a str,

        /// The tables, in the order of their words.
        tables: Vec<TableWord<'a>>,
    },
}

/// Why a command line is not read.
#[derive(Clone, Copy, Debug, PartialEq, Eq, Error)]
pub enum WordsFault {
    /// The words are refused.
    #[error(transparent)]
    Usage(UsageFault),

    /// Memory was refused.
    #[error("out of memory")]
    NoMemory,
}

/// The words of a command line, without the program's name. Contracts see their texts.
#[derive(Drop)]
pub struct CommandLine<'a> {
    texts: Vec<&'a str>,
}

impl<'a> Model for CommandLine<'a> {
    ghost use Rattle.std.specs.Prelude.{ℕ, List, map};

    ghost Value = { List (List ℕ) };

    ghost view = { λ line. map (λ text. text.now) line.texts.items };
}

impl<'a> CommandLine<'a> {
    /// The command line of these words.
    pub fn of(alloc: Global, words: &'a [Word]) -> Result<CommandLine<'a>, NoMemory>
        ensures { IfOk result (λ line. line ≡ words.entry.now) }
    {
        let mut texts = Vec::new(alloc);
        for word in words {
            texts.push(word.as_str())?;
        }
        Ok(CommandLine { texts })
    }

    /// Reads the words. How many tables there may be is the caller's to judge.
    pub fn read<'b>(&'b self, alloc: Global) -> Result<Asked<'b>, WordsFault>
        ensures asked { IfOk result (λ asked. asked_of self.now ≡ Ok (seen asked)) }
        ensures refused { IfErr result (λ e. IsUsage e (λ fault. asked_of self.now ≡ Err fault)) }
    {
        read_words(alloc, self.texts.as_slice())
    }
}
