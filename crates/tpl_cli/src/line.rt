//! What the words of the command line say.

ghost use Rattle.std.specs.Prelude.{◌≡◌, true, codes, IfOk, MatchResult, map};
ghost use Rattle.clap.specs.Words.{Text, found_of, kind_of, rows_of, subcommand_rows_of, takes};
ghost use Rattle.tpl_cli.specs.Prelude.{AreTries, Asks, Finds, IsAlone, IsForm, IsLineOf, IsWithin, Means, Names, taskgraph};

use crate::number::Number;
use crate::options::{depth_in, is_set, named_in, number_if_given, number_in};
use crate::tips::{no_meaning, with_tip};
use crate::usage::taskgraph;
use clap::ArgMatches;
use clap::error::ErrorKind;
use std::alloc::{AllocError, Global};
use thiserror::Error;
use tpl_commands::Ask;
use tpl_report::{Depth, Form};
use tpl_verdicts::Style;

/// How many random runs are tried for a claim, and where the random numbers begin.
#[derive(Clone, Copy, Debug, Drop, PartialEq, Eq)]
pub struct Tries {
    /// At most 1,000,000 runs.
    pub runs: u32,
    /// The seed of the random numbers.
    pub seed: u32,
}

/// What the program is to do.
#[derive(Clone, Copy, Debug, Drop, PartialEq, Eq)]
pub enum Line {
    /// Answer this of a document.
    Serve(Ask),
    /// Answer it of the document on each line, by so many threads, 1 to 64, or as many as there are processors.
    Each(Ask, Option<u16>),
    /// Make a run of a document.
    Run {
        /// By so many workers, 1 to 64.
        workers: u16,
        /// The document is written with the run in it.
        is_whole: bool,
    },
    /// Search for a run in which a claim doesn't hold.
    Refute {
        /// The claim, 1 to 1,024, or each.
        claim: Option<u16>,
        /// What is tried for a claim.
        tries: Tries,
        /// Lines are asked for on the standard error.
        explains: bool,
    },
    /// Answer each claim of a document.
    Verify {
        /// The most splits on each path of a certificate.
        depth: Depth,
        /// What is tried for a claim.
        tries: Tries,
        /// How many threads work beside each other, 1 to 64, or as many as there are processors.
        jobs: Option<u16>,
        /// How the verdicts are written.
        style: Style,
        /// The claims of the document on each line are answered.
        is_each: bool,
    },
    /// Write the journal of a document for a trace viewer.
    Trace,
    /// Audit the journal of a document, and write that as a page for a browser.
    AuditPage,
}

/// Why there is nothing to do.
#[derive(Debug, Drop, Error)]
pub enum LineFault {
    /// Help or the version was asked for: its text, which belongs on the standard output.
    #[error("{0}")]
    Help(String),
    /// The words name no command: what is wrong with them and how they are written, which belongs
    /// on the standard error.
    #[error("{0}")]
    Usage(String),
    /// The memory for reading the words was refused.
    #[error("out of memory")]
    Memory,
}

impl From<AllocError> for LineFault {
    ghost use Rattle.std.specs.Prelude.{◌≡◌};
    ghost use Rattle.tpl_cli.specs.declared.line.LineFault.TheVariants.{Memory};

    ghost from_gives = { λ _ fault. fault ≡ Memory };

    fn from(_error: AllocError) -> LineFault {
        LineFault::Memory
    }
}

/// The text goes where its kind belongs: help that was asked for isn't a fault of the words.
fn fault_of(alloc: Global, words: &[&str], error: clap::Error) -> LineFault
    ensures { kind_of error ≡ ErrorKind.OutOfMemory → result ≡ LineFault.Memory }
{
    let kind = error.kind();
    let text = match format!(in alloc; "{error}") {
        Ok(text) => text,
        Err(_) => return LineFault::Memory,
    };
    match kind {
        ErrorKind::OutOfMemory => LineFault::Memory,
        ErrorKind::DisplayHelp | ErrorKind::DisplayVersion => LineFault::Help(text),
        _ => match with_tip(alloc, text, words) {
            Ok(text) => LineFault::Usage(text),
            Err(_) => LineFault::Memory,
        },
    }
}

/// The line that asks this of one document, or of the document on each line, as the options say.
fn served(given: &ArgMatches<'_>, ask: Ask) -> Option<Line>
    ensures { (word : Text) → Asks word (rows_of (found_of given.now)) ask
        → Finds (Means word (rows_of (found_of given.now))) result }
{
    let jobs = number_if_given(given, Number::Jobs)?;
    if is_set(given, "each") {
        return Some(Line::Each(ask, jobs));
    }
    match jobs {
        None => Some(Line::Serve(ask)),
        Some(_) => None,
    }
}

/// The form that is asked for. Two at once are none.
fn form_asked(given: &ArgMatches<'_>) -> Option<Form>
    ensures { Finds (IsForm (rows_of (found_of given.now))) result }
{
    match (is_set(given, "slim"), is_set(given, "rows")) {
        (false, false) => Some(Form::Full),
        (true, false) => Some(Form::Slim),
        (false, true) => Some(Form::Rows),
        (true, true) => None,
    }
}

/// What `analyse` asks with these options.
fn search_asked(given: &ArgMatches<'_>) -> Option<Ask>
    ensures { Finds (Asks (codes "analyse") (rows_of (found_of given.now))) result }
{
    let depth = depth_in(given)?;
    let form = form_asked(given)?;
    if is_set(given, "whole") {
        return Some(Ask::Certify(depth, form));
    }
    match form {
        Form::Full => Some(Ask::Analyse(depth)),
        Form::Slim | Form::Rows => Some(Ask::AnalyseIn(depth, form)),
    }
}

/// The line that `run` means with these options.
fn run_line(given: &ArgMatches<'_>) -> Option<Line>
    ensures { Finds (Means (codes "run") (rows_of (found_of given.now))) result }
{
    let workers = number_in(given, Number::Workers)?;
    let is_whole = is_set(given, "whole");
    Some(Line::Run {
        workers: workers as u16,
        is_whole,
    })
}

/// What is tried for a claim with these options.
fn tries_in(given: &ArgMatches<'_>) -> Option<Tries>
    ensures { Finds (AreTries (rows_of (found_of given.now))) result }
{
    let runs = number_in(given, Number::Runs)?;
    let seed = number_in(given, Number::Seed)?;
    Some(Tries { runs, seed })
}

/// The line that `refute` means with these options.
fn refute_line(given: &ArgMatches<'_>) -> Option<Line>
    ensures { Finds (Means (codes "refute") (rows_of (found_of given.now))) result }
{
    let claim = number_if_given(given, Number::Claim)?;
    let tries = tries_in(given)?;
    let explains = is_set(given, "explain");
    Some(Line::Refute {
        claim,
        tries,
        explains,
    })
}

/// The line that `verify` means with these options.
fn verify_line(given: &ArgMatches<'_>) -> Option<Line>
    ensures { Finds (Means (codes "verify") (rows_of (found_of given.now))) result }
{
    let depth = depth_in(given)?;
    let tries = tries_in(given)?;
    let jobs = number_if_given(given, Number::Jobs)?;
    let style = named_in(given)?;
    let is_each = is_set(given, "each");
    Some(Line::Verify {
        depth,
        tries,
        jobs,
        style,
        is_each,
    })
}

/// The line for the page of an audit, of one document alone.
fn page_line(given: &ArgMatches<'_>) -> Option<Line>
    ensures { Finds (λ line. (line ≡ Line.AuditPage) × IsAlone (rows_of (found_of given.now)))
        result }
{
    let jobs = number_if_given(given, Number::Jobs)?;
    if is_set(given, "each") {
        return None;
    }
    match jobs {
        None => Some(Line::AuditPage),
        Some(_) => None,
    }
}

/// The line that `audit` means with these options.
fn audit_line(given: &ArgMatches<'_>) -> Option<Line>
    ensures { Finds (Means (codes "audit") (rows_of (found_of given.now))) result }
{
    let style = named_in(given)?;
    match style {
        Style::Text => served(given, Ask::Audit),
        Style::Html => page_line(given),
        Style::Json | Style::Junit => None,
    }
}

/// The line that the subcommand of this name means with these options.
fn line_meant(word: &str, given: &ArgMatches<'_>) -> Option<Line>
    ensures { Finds (Means word.now (rows_of (found_of given.now))) result }
{
    match word {
        "check" => served(given, Ask::Check),
        "analyse" => served(given, search_asked(given)?),
        "run" => run_line(given),
        "audit" => audit_line(given),
        "refute" => refute_line(given),
        "verify" => verify_line(given),
        "draw" => served(given, Ask::Draw(named_in(given)?)),
        "trace" => Some(Line::Trace),
        _ => None,
    }
}

/// The line that is meant by the words that were read.
fn line_in(matches: &ArgMatches<'_>) -> Option<Line>
    ensures { Finds (IsLineOf (subcommand_rows_of matches.now)) result }
{
    let Some((word, given)) = matches.subcommand() else {
        return None;
    };
    line_meant(word, given)
}

/// What the words say, the first of which is the program's own name. They are read by `clap`.
pub fn line_of<'a>(alloc: Global, words: &'a [&'a str]) -> Result<Line, LineFault>
    ensures named { IfOk result (Names (map (λ word. word.now) words.entry.now)) }
    ensures limit { IfOk result IsWithin }

    // Words that the command line takes are refused only where memory ran out.
    ensures taken { let texts = map (λ word. word.now) words.entry.now in
        takes taskgraph texts ≡ true → (line : Line) → Names texts line
        → MatchResult result (λ found. found ≡ line) (λ fault. fault ≡ LineFault.Memory) }
{
    let matches = match taskgraph(alloc)?.try_get_matches_from(words) {
        Ok(matches) => matches,
        Err(error) => return Err(fault_of(alloc, words, error)),
    };
    match line_in(&matches) {
        Some(line) => Ok(line),
        None => Err(LineFault::Usage(no_meaning(alloc, &matches)?)),
    }
}
