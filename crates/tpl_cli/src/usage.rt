//! How the words of the command line are written.

ghost use Rattle.std.specs.Prelude.{◌≡◌, false, IfOk};
ghost use Rattle.clap.specs.declared.builder.command.Command.TheViews.{out-Command};
ghost use Rattle.clap.specs.Words.{app_of, rule_of, with_rule, with_subcommand};
ghost use Rattle.tpl_cli.specs.Prelude.{command_of, no_command, taskgraph, with_options, words_of};

use crate::number::Number;
use crate::options::{CommandOption, Flag};
use clap::{Arg, Command};
use std::alloc::{AllocError, Global};

/// The version of the program, which the file `VERSION` says too.
const VERSION: &str = "0.4.0";

/// A subcommand.
#[derive(Clone, Copy, Debug, Drop, PartialEq, Eq)]
pub(crate) enum Subcommand {
    /// Checks a certificate.
    Check,
    /// Searches for a certificate.
    Analyse,
    /// Makes a run.
    Run,
    /// Audits a journal.
    Audit,
    /// Searches for a run in which a claim fails.
    Refute,
    /// Answers each claim.
    Verify,
    /// Draws a graph.
    Draw,
    /// Writes a journal for a trace viewer.
    Trace,
}

impl Subcommand {
    /// Its name.
    fn name<'a>(self) -> &'a str
        ensures { result.now ≡ (words_of self).0 }
    {
        match self {
            Subcommand::Check => "check",
            Subcommand::Analyse => "analyse",
            Subcommand::Run => "run",
            Subcommand::Audit => "audit",
            Subcommand::Refute => "refute",
            Subcommand::Verify => "verify",
            Subcommand::Draw => "draw",
            Subcommand::Trace => "trace",
        }
    }

    /// What help says of it.
    fn about<'a>(self) -> &'a str {
        match self {
            Subcommand::Check => "Checks the document's certificate",
            Subcommand::Analyse => "Searches for a certificate for the document's claims",
            Subcommand::Run => "Checks the document's certificate and makes a run of its graph",
            Subcommand::Audit => "Audits the document's journal",
            Subcommand::Refute => "Searches for a run in which a claim fails",
            Subcommand::Verify => {
                "Answers each of the document's claims: it holds, fails, is empty, or is unknown"
            }
            Subcommand::Draw => "Draws the document's graph",
            Subcommand::Trace => "Writes the document's journal for a trace viewer",
        }
    }

    /// What help says of its use.
    fn example<'a>(self) -> &'a str {
        match self {
            Subcommand::Check => "Example: ./taskgraph check < examples/one-root.json",
            Subcommand::Analyse => {
                "Example: ./taskgraph analyse --whole < examples/either-or.json | ./taskgraph check"
            }
            Subcommand::Run => "Example: ./taskgraph run --workers 2 < examples/one-root.json",
            Subcommand::Audit => {
                "Example: examples/ask examples/one-root.json '{\"never\":\"A\"}' | ./taskgraph refute | ./taskgraph audit"
            }
            Subcommand::Refute => {
                "Example: examples/ask examples/one-root.json '{\"never\":\"A\"}' | ./taskgraph refute --explain"
            }
            Subcommand::Verify => {
                "Example: ./taskgraph verify --as junit < examples/either-or.json"
            }
            Subcommand::Draw => "Example: ./taskgraph draw --as dot < examples/saga.json",
            Subcommand::Trace => {
                "Example: examples/ask examples/one-root.json '{\"never\":\"A\"}' | ./taskgraph refute | ./taskgraph trace"
            }
        }
    }

    /// Its options, but for `--explain`.
    fn options(self) -> &'static [CommandOption]
        ensures { result.now ≡ (words_of self).1 }
    {
        match self {
            Subcommand::Check => &[
                CommandOption::Flag(Flag::Each),
                CommandOption::Number(Number::Jobs),
            ],
            Subcommand::Audit => &[
                CommandOption::AuditStyle,
                CommandOption::Flag(Flag::Each),
                CommandOption::Number(Number::Jobs),
            ],
            Subcommand::Analyse => &[
                CommandOption::Number(Number::Depth),
                CommandOption::Flag(Flag::Slim),
                CommandOption::Flag(Flag::Rows),
                CommandOption::Flag(Flag::WithCertificate),
            ],
            Subcommand::Run => &[
                CommandOption::Number(Number::Workers),
                CommandOption::Flag(Flag::WithRun),
            ],
            Subcommand::Refute => &[
                CommandOption::Number(Number::Claim),
                CommandOption::Number(Number::Runs),
                CommandOption::Number(Number::Seed),
            ],
            Subcommand::Verify => &[
                CommandOption::Deepest,
                CommandOption::Number(Number::Runs),
                CommandOption::Number(Number::Seed),
                CommandOption::Number(Number::Jobs),
                CommandOption::Style,
                CommandOption::Flag(Flag::Each),
            ],
            Subcommand::Draw => &[CommandOption::Language],
            Subcommand::Trace => &[],
        }
    }

    /// The subcommand as words are read.
    fn command<'a>(self, alloc: Global) -> Result<Command<'a>, AllocError>
        ensures app { IfOk result (λ command. app_of command ≡ command_of self) }
        ensures own { IfOk result (λ command. (out-Command command).has_globals ≡ false) }
    {
        let command = Command::new(alloc, self.name())
            .about(self.about())
            .after_help(self.example());
        let command = with_options(alloc, command, self.options())?;
        with_option(command, CommandOption::Flag(Flag::Explain).arg(alloc))
    }
}

/// The command line without its subcommands. One of them has to stand there.
fn no_command<'a>(alloc: Global) -> Command<'a>
    ensures { app_of result ≡ no_command }
{
    Command::new(alloc, "taskgraph")
        .about("Checks and runs .NET task graphs; the document comes on standard input.")
        .version(VERSION)
        .subcommand_required(true)
}

/// The subcommand with one option more.
fn with_option<'a>(command: Command<'a>, option: Arg<'a>) -> Result<Command<'a>, AllocError>
    requires command { (out-Command command).has_globals ≡ false }
    requires option { option.global ≡ false }
    ensures app { IfOk result (λ more.
        app_of more ≡ with_rule (app_of command.entry) (rule_of option.entry)) }
    ensures own { IfOk result (λ more. (out-Command more).has_globals ≡ false) }
{
    command.arg(option)
}

/// The subcommand with these options more.
fn with_options<'a>(
    alloc: Global,
    command: Command<'a>,
    options: &[CommandOption],
) -> Result<Command<'a>, AllocError>
    requires { (out-Command command).has_globals ≡ false }
    ensures app { IfOk result (λ more.
        app_of more ≡ with_options (app_of command.entry) options.now) }
    ensures own { IfOk result (λ more. (out-Command more).has_globals ≡ false) }
{
    let mut more = command;
    for option in options {
        more = with_option(more, option.arg(alloc))?;
    }
    Ok(more)
}

/// The command line with one subcommand more.
fn with_subcommand<'a>(
    alloc: Global,
    command: Command<'a>,
    subcommand: Subcommand,
) -> Result<Command<'a>, AllocError>
    ensures { IfOk result (λ more.
        app_of more ≡ with_subcommand (app_of command.entry) (command_of subcommand).top) }
{
    command.subcommand(subcommand.command(alloc)?)
}

/// The command line.
pub(crate) fn taskgraph<'a>(alloc: Global) -> Result<Command<'a>, AllocError>
    ensures { IfOk result (λ command. app_of command ≡ taskgraph) }
{
    let command = with_subcommand(alloc, no_command(alloc), Subcommand::Check)?;
    let command = with_subcommand(alloc, command, Subcommand::Analyse)?;
    let command = with_subcommand(alloc, command, Subcommand::Run)?;
    let command = with_subcommand(alloc, command, Subcommand::Audit)?;
    let command = with_subcommand(alloc, command, Subcommand::Refute)?;
    let command = with_subcommand(alloc, command, Subcommand::Verify)?;
    let command = with_subcommand(alloc, command, Subcommand::Draw)?;
    with_subcommand(alloc, command, Subcommand::Trace)
}
