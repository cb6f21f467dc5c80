//! What is added to what `clap` says of a mistake: how a document is given, which command does it, which commands have the
//! option, how options are written, which values there are.

use crate::options::is_set;
use clap::ArgMatches;
use std::alloc::{AllocError, Global};

/// How a text of `clap` begins, before a word that has no place.
const UNEXPECTED: &str = "error: unexpected argument '";

/// How a text of `clap` begins, before a word that names no command.
const UNRECOGNIZED: &str = "error: unrecognized subcommand '";

/// How `clap` begins a line that helps.
const TIP: &str = "  tip: ";

/// What people write for a command, and what does what they ask for.
const COMMANDS: [(&str, &str); 9] = [
    (
        "validate, lint",
        "'verify' answers each of the document's claims, and 'check' checks its certificate",
    ),
    (
        "test, assert, ask",
        "'verify' answers each of the document's claims",
    ),
    (
        "prove, certify, solve, search",
        "'verify' answers each of the document's claims, and 'analyse' searches for a certificate",
    ),
    (
        "show, graph, plot, view, render, dot, mermaid",
        "'draw' draws the document's graph, and 'verify --as html' shows it with the verdicts",
    ),
    (
        "report, html, json, junit",
        "'verify' answers in the form that '--as' names",
    ),
    (
        "explain, why",
        "with '--explain' behind it a command says why its answer is what it is",
    ),
    (
        "simulate, execute, exec, play",
        "'run' makes a run of the document's graph",
    ),
    (
        "falsify, disprove, fuzz",
        "'refute' searches for a run in which a claim fails",
    ),
    ("version", "'--version' says which version this is"),
];

/// Options, and the commands that take them.
const OWNERS: [(&str, &str); 9] = [
    ("as", "'audit', 'verify' and 'draw'"),
    ("claim", "'refute'"),
    ("depth", "'analyse' and 'verify'"),
    ("each", "'check', 'audit' and 'verify'"),
    ("jobs", "'check', 'audit' and 'verify'"),
    ("rows, slim", "'analyse'"),
    ("runs, seed", "'refute' and 'verify'"),
    ("whole", "'analyse' and 'run'"),
    ("workers", "'run'"),
];

/// The options that have a word behind `--as`, by their subcommands: what the help calls the word, and which there are.
const NAMED: [(&str, &str, &str); 3] = [
    ("audit", "STYLE", "text, html"),
    ("draw", "LANGUAGE", "mermaid, dot"),
    ("verify", "STYLE", "text, json, junit, html"),
];

/// Options that people write for the form of an answer, or its place.
const FORMS: &str = "dot, format, html, json, junit, mermaid, out, output, style, svg, text, xml";

/// Options that people write before a document's file.
const FILES: &str = "document, file, in, input";

/// Other options that people write, and what does what they ask for.
const OPTIONS: [(&str, &str); 2] = [
    (
        "debug, reason, reasons, verbose, why",
        "'--explain' says why the answer is what it is",
    ),
    (
        "version",
        "'taskgraph --version' says which version this is",
    ),
];

/// The word, without a value behind the name of an option.
fn name_of<'a>(word: &'a str) -> &'a str {
    match word.split_once('=') {
        Some((name, _)) if name.starts_with("--") => name,
        _ => word,
    }
}

/// Whether this word stands at the front of the text, and a quotation mark behind it.
fn is_quoted(text: &str, word: &str) -> bool {
    match text.strip_prefix(word) {
        Some(rest) => rest.starts_with('\''),
        None => false,
    }
}

/// Adds a word as a shell reads it.
fn put_word(line: &mut String, word: &str) -> Result<(), AllocError> {
    if word.contains(' ') {
        write!(line, "\"{word}\"")
    } else {
        line.push_str(word)
    }
}

/// The words without the one at this place, which follows as the file that standard input comes from.
fn redirected(alloc: Global, words: &[&str], at: usize) -> Result<String, AllocError> {
    let mut line = String::new(alloc);
    for (number, word) in words.iter().enumerate() {
        if number != at {
            put_word(&mut line, word)?;
            line.push_str(" ")?;
        }
    }
    line.push_str("< ")?;
    if let Some(file) = words.get(at) {
        put_word(&mut line, file)?;
    }
    Ok(line)
}

/// Whether the word is one of these names.
fn lists(names: &str, word: &str) -> bool {
    names.split(", ").any(|name| name == word)
}

/// What the table says of the word; empty, where it doesn't have it.
fn said_of(table: &[(&str, &'static str)], word: &str) -> &'static str {
    for (names, said) in table {
        if lists(names, word) {
            return said;
        }
    }
    ""
}

/// Which values there are behind `--as` of the subcommand; empty, where it has no such option.
fn values_of(subcommand: &str) -> &'static str {
    for (owner, _, values) in NAMED {
        if owner == subcommand {
            return values;
        }
    }
    ""
}

/// What helps where a form is asked for by an option of its own: `--as` names forms, where there are several.
fn tip_for_form(alloc: Global, subcommand: &str, form: &str) -> Result<String, AllocError> {
    let values = values_of(subcommand);
    if values.is_empty() {
        return format!(in alloc;
            "the answer of '{subcommand}' goes to standard output, in one form alone"
        );
    }
    if lists(values, form) {
        return format!(in alloc; "that form is named by '--as {form}'");
    }
    format!(in alloc; "the answer goes to standard output, in the form that '--as' names: {values}")
}

/// What helps where the subcommand has no option of this name.
fn tip_for_option(alloc: Global, subcommand: &str, option: &str) -> Result<String, AllocError> {
    let owners = said_of(&OWNERS, option);
    if !owners.is_empty() {
        return format!(in alloc; "'--{option}' is taken only by {owners}");
    }
    if lists(FORMS, option) {
        return tip_for_form(alloc, subcommand, option);
    }
    if lists(FILES, option) {
        return format!(in alloc;
            "the document is read from standard input: taskgraph {subcommand} < document.json"
        );
    }
    String::from_str(alloc, said_of(&OPTIONS, option))
}

/// What helps where the word at this place begins with one hyphen, and has no place there.
fn tip_for_letter(word: &str) -> &'static str {
    if word == "-" {
        "standard input is read without a word for it"
    } else {
        "options are written out, with two hyphens"
    }
}

/// What helps where the word at this place has none there: most often it is the name of a document's file, or an option of
/// another command.
fn tip_for_word(alloc: Global, words: &[&str], at: usize) -> Result<String, AllocError> {
    let word = words.get(at).copied().unwrap_or("");
    if !word.starts_with('-') {
        let line = redirected(alloc, words, at)?;
        return format!(in alloc; "the document is read from standard input: {line}");
    }
    match (name_of(word).strip_prefix("--"), words.get(1)) {
        (Some(option), Some(subcommand)) if at > 1 => tip_for_option(alloc, subcommand, option),
        (Some(_), _) => Ok(String::new(alloc)),
        (None, _) => String::from_str(alloc, tip_for_letter(word)),
    }
}

/// What helps where a word names no command: it looks like a file's name, or another one does what it asks for.
fn tip_for_command(alloc: Global, word: &str) -> Result<String, AllocError> {
    if !word.contains('.') && !word.contains('/') {
        return String::from_str(alloc, said_of(&COMMANDS, word));
    }
    let line = redirected(alloc, &["taskgraph", "check", word], 2)?;
    format!(in alloc; "the document is read from standard input, behind a command: {line}")
}

/// What helps where `clap` says this of one of the words; empty where nothing is known.
fn tip(alloc: Global, text: &str, words: &[&str]) -> Result<String, AllocError> {
    if let Some(named) = text.strip_prefix(UNEXPECTED) {
        if let Some(at) = words
            .iter()
            .position(|word| is_quoted(named, name_of(word)))
        {
            return tip_for_word(alloc, words, at);
        }
    }
    match (text.strip_prefix(UNRECOGNIZED), words.get(1)) {
        (Some(named), Some(word)) if is_quoted(named, word) => tip_for_command(alloc, word),
        _ => Ok(String::new(alloc)),
    }
}

/// The text that `clap` has for these words, with what helps behind its first line, before what `clap` has of that kind.
pub(crate) fn with_tip(alloc: Global, text: String, words: &[&str]) -> Result<String, AllocError> {
    let tip = tip(alloc, text.as_str(), words)?;
    match text.as_str().split_once("\n\n") {
        Some((first, rest)) if !tip.is_empty() => {
            let before_rest = if rest.starts_with(TIP) { "\n" } else { "\n\n" };
            format!(in alloc; "{first}\n\n{TIP}{tip}{before_rest}{rest}")
        }
        _ => Ok(text),
    }
}

/// What is said of a word behind `--as` that names nothing there; empty, where it names something.
fn unnamed(alloc: Global, subcommand: &str, word: &str) -> Result<String, AllocError> {
    for (owner, name, values) in NAMED {
        if owner == subcommand && !lists(values, word) {
            return format!(in alloc;
                "error: invalid value '{word}' for '--as <{name}>'\n  [possible values: {values}]\n\nFor more information, try '--help'.\n"
            );
        }
    }
    Ok(String::new(alloc))
}

/// Which of the options of the subcommand have no meaning together.
fn at_odds(subcommand: &str, options: &ArgMatches<'_>) -> &'static str {
    match subcommand {
        "analyse" => "the argument '--rows' cannot be used with '--slim'",
        "audit" if is_set(options, "each") => {
            "the argument '--as html' cannot be used with '--each'"
        }
        _ => "the argument '--jobs <N>' is taken only with '--each'",
    }
}

/// What is said of words that `clap` takes and that mean nothing: a word behind `--as` names nothing, two forms of a
/// certificate are asked for, a page for the document on each line, or a number of threads is given where no document on
/// each line is asked for.
pub(crate) fn no_meaning(alloc: Global, given: &ArgMatches<'_>) -> Result<String, AllocError> {
    let Some((subcommand, options)) = given.subcommand() else {
        return String::from_str(alloc, "error: no command\n");
    };
    let unnamed = unnamed(alloc, subcommand, options.get_str("as").unwrap_or(""))?;
    if !unnamed.is_empty() {
        return Ok(unnamed);
    }
    let why = at_odds(subcommand, options);
    format!(in alloc; "error: {why}\n\nFor more information, try '--help'.\n")
}
