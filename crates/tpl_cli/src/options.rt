//! The options of the command line, and what is given for them.

ghost use Rattle.std.specs.Prelude.{◌≡◌, ◌<◌, ◌^◌, [], false};
ghost use Rattle.clap.specs.Words.{Text, found_of, rows_of, rule_of};
ghost use Rattle.tpl_cli.specs.Prelude.{Finds, IsFlag, IsGiven, IsIfGiven, IsWord, flag, flag_name, language_word, named, number_range, numbered, rule_for, style_word, usual};

use crate::number::{Number, deepest};
use clap::{Arg, ArgAction, ArgMatches, value_parser};
use std::alloc::Global;
use tpl_draw::Language;
use tpl_report::Depth;
use tpl_verdicts::Style;

/// An option that has no value.
#[derive(Clone, Copy, Debug, Drop, PartialEq, Eq)]
pub(crate) enum Flag {
    /// Rows say no more than the proof needs.
    Slim,
    /// Certificates have the rows of each leaf.
    Rows,
    /// The whole document is written, with the certificate in it.
    WithCertificate,
    /// The whole document is written, with the run in it.
    WithRun,
    /// The document on each line is answered.
    Each,
    /// Lines on the standard error say why.
    Explain,
}

impl Flag {
    /// The name of the option.
    fn name<'a>(self) -> &'a str
        ensures { result.now ≡ flag_name self }
    {
        match self {
            Flag::Slim => "slim",
            Flag::Rows => "rows",
            Flag::WithCertificate | Flag::WithRun => "whole",
            Flag::Each => "each",
            Flag::Explain => "explain",
        }
    }

    /// What help says of it.
    fn help<'a>(self) -> &'a str {
        match self {
            Flag::Slim => "Omits from the rows whatever the proof does not need",
            Flag::Rows => "Writes out the rows of each leaf, in version 3 too",
            Flag::WithCertificate => "Writes the whole document, with the certificate in it",
            Flag::WithRun => "Writes the whole document, with the run in it",
            Flag::Each => "Answers the document on each line, behind its number and exit status",
            Flag::Explain => "Says on standard error why the answer is what it is, and what to do",
        }
    }
}

/// The option that has no value.
fn flag_arg<'a>(alloc: Global, option: Flag) -> Arg<'a>
    ensures rule { rule_of result ≡ flag option }
    ensures own { result.global ≡ false }
{
    let name = option.name();
    Arg::new(alloc, name)
        .long(name)
        .action(ArgAction::SetTrue)
        .help(option.help())
}

/// The option for a number. Nothing stands for it where it is left out.
fn number_arg<'a>(alloc: Global, option: Number) -> Arg<'a>
    ensures rule { rule_of result ≡ numbered option [] }
    ensures own { result.global ≡ false }
{
    let name = option.name();
    let (least, most) = option.range();
    Arg::new(alloc, name)
        .long(name)
        .value_name("N")
        .help(option.help())
        .value_parser(value_parser!(u32).range(i64::from(least)..=i64::from(most)))
}

/// The option for a number, with what stands for it where it is left out.
fn usual_arg<'a>(alloc: Global, option: Number) -> Arg<'a>
    ensures rule { rule_of result ≡ numbered option (usual option) }
    ensures own { result.global ≡ false }
{
    let arg = number_arg(alloc, option);
    match option.usual() {
        Some(usual) => arg.default_value(usual),
        None => arg,
    }
}

/// The option `--as`, with what help calls its value and says of it, and with what stands for one that is left out.
fn word_arg<'a>(alloc: Global, value: &'a str, help: &'a str, usual: &'a str) -> Arg<'a>
    ensures rule { rule_of result ≡ named usual.now }
    ensures own { result.global ≡ false }
{
    Arg::new(alloc, "as")
        .long("as")
        .value_name(value)
        .help(help)
        .default_value(usual)
}

/// An option of a subcommand.
#[derive(Clone, Copy, Debug, Drop, PartialEq, Eq)]
pub(crate) enum CommandOption {
    /// One that has no value.
    Flag(Flag),
    /// A number.
    Number(Number),
    /// The most splits on each path, which are as many as there may be where it is left out.
    Deepest,
    /// The language of a picture.
    Language,
    /// How verdicts are written.
    Style,
    /// How an audit is written.
    AuditStyle,
}

impl CommandOption {
    /// The option as `clap` takes it.
    pub(crate) fn arg<'a>(self, alloc: Global) -> Arg<'a>
        ensures rule { rule_of result ≡ rule_for self }
        ensures own { result.global ≡ false }
    {
        match self {
            CommandOption::Flag(option) => flag_arg(alloc, option),
            CommandOption::Number(option) => usual_arg(alloc, option),
            CommandOption::Deepest => number_arg(alloc, Number::Depth).default_value(deepest()),
            CommandOption::Language => {
                let help = "The language of the picture: mermaid or dot";
                word_arg(alloc, "LANGUAGE", help, "mermaid")
            }
            CommandOption::Style => {
                let help = "How the verdicts are written: text, json, junit or html";
                word_arg(alloc, "STYLE", help, "text")
            }
            CommandOption::AuditStyle => {
                let said = "How the audit is written: text or html";
                word_arg(alloc, "STYLE", said, "text")
            }
        }
    }
}

/// Whether the option was used.
pub(crate) fn is_set(given: &ArgMatches<'_>, option: &str) -> bool
    ensures { IsFlag option.now (rows_of (found_of given.now)) result }
{
    match given.get_str(option) {
        Some(text) if text == "true" => true,
        _ => false,
    }
}

/// The number that is given for the option, if it lies in its range.
pub(crate) fn number_in(given: &ArgMatches<'_>, option: Number) -> Option<u32>
    ensures { Finds (IsGiven option (rows_of (found_of given.now))) result }
{
    let (least, most) = option.range();
    match given.get_one::<u32>(option.name()) {
        Some(number) if least <= number && number <= most => Some(number),
        _ => None,
    }
}

/// The number that is given for the option: one in its range, none, or no such number.
pub(crate) fn number_if_given(given: &ArgMatches<'_>, option: Number) -> Option<Option<u16>>
    requires { (number_range option).1 < 2 ^ 16 }
    ensures { Finds (IsIfGiven option (rows_of (found_of given.now))) result }
{
    match given.get_str(option.name()) {
        None => Some(None),
        Some(_) => match number_in(given, option) {
            Some(number) => Some(Some(number as u16)),
            None => None,
        },
    }
}

/// The most splits on each path that are given.
pub(crate) fn depth_in(given: &ArgMatches<'_>) -> Option<Depth>
    ensures { Finds (IsGiven Number.Depth (rows_of (found_of given.now))) result }
{
    match number_in(given, Number::Depth) {
        Some(splits) => Depth::new(splits as u8),
        None => None,
    }
}

/// Things that words behind `--as` name.
pub(crate) trait FromWord: Sized {
    ghost word: { Self → Text };

    /// The one that the word names.
    fn from_word(text: &str) -> Option<Self>
        ensures { Finds (λ thing. word thing ≡ text.now) result };
}

impl FromWord for Language {
    ghost word = { language_word };

    fn from_word(text: &str) -> Option<Language> {
        match text {
            "mermaid" => Some(Language::Mermaid),
            "dot" => Some(Language::Dot),
            _ => None,
        }
    }
}

impl FromWord for Style {
    ghost word = { style_word };

    fn from_word(text: &str) -> Option<Style> {
        match text {
            "text" => Some(Style::Text),
            "json" => Some(Style::Json),
            "junit" => Some(Style::Junit),
            "html" => Some(Style::Html),
            _ => None,
        }
    }
}

/// The one that the word behind `--as` names.
pub(crate) fn named_in<T: FromWord>(given: &ArgMatches<'_>) -> Option<T>
    ensures { Finds (λ thing. IsWord (rows_of (found_of given.now)) (T.word thing)) result }
{
    match given.get_str("as") {
        Some(word) => T::from_word(word),
        None => None,
    }
}
