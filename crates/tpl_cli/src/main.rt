//! `taskgraph`: the document comes on standard input, and the answer goes to standard output.
//!
//! ## Choices
//!
//! - **Only help that was asked for is help.** No words at all are a usage fault, and so are arguments that aren't
//!   text.
//! - **The language of a picture is read by this program and not by `clap`**, whose contract for a list of names
//!   speaks of where the list lies in memory. So this program also says which languages there are. What else it has
//!   to add to `clap`'s words on a mistake goes by how these begin, since an error of that library has only its kind
//!   and its text.
//! - **A claim is tried with at most 1,000,000 runs, and a seed below 4,294,967,296.** `--runs 0` tries none.
//!   `--claim` has no default: each claim is tried if it is left out.
//! - **The line that words name is said by subcommand**, in one definition (`Means`), and the words name one line at
//!   most. An option that has no value counts as used where the reader of the command line gives it the text `true`.
//! - **What failed at standard input or standard output is told by the reader and the writer themselves**, which keep
//!   the last error of the system. The commands only count failed calls: which error it was changes no answer.
//! - **That `--explain` was used is read in the words themselves**, once they are known to name a line: no option
//!   takes that word as its value.
//! - **How far the work is stands on standard error, where that is a terminal, and nowhere else.** A search tells its
//!   watcher of each claim as it begins it, and after each 1,000 leaves; a run is seen by a follower in a thread of
//!   its own, who takes the events into a machine beside it and counts the tasks that have ended. Neither can change
//!   the answer: the calls that are watched have the clauses of those that aren't. If there is no memory or no thread
//!   for it, a run isn't followed.
//! - **A write past the largest file that is allowed is a failed write if the script calls the program.** The
//!   toolchain has a program ignore SIGPIPE, and offers no call to ignore another signal. So the script ignores
//!   SIGXFSZ before it starts the program.
#![tactic(auto)]

mod boxes;
mod devices;
mod first_line;
mod line;
mod number;
mod options;
mod progress;
mod seen;
mod stack;
mod tips;
mod usage;
mod why;

ghost use Rattle.std.specs.Prelude.{◌≡◌, ◌<◌, ◌≤◌, IfOk, IfSome, All};
ghost use Rattle.tpl_cli.specs.Prelude.{AreThreads, AuditsAsPage, Does, IsWithin, RefutesDocument, RunsDocument, ServesBoxes, TellsAs, TracesDocument, VerifiesAs, VerifiesDocument};
ghost use Rattle.tpl_commands.specs.Prelude.{RequestsTokens};
ghost use Rattle.tpl_each.specs.Prelude.{RespondsToEach};
ghost use Rattle.tpl_graph.specs.Prelude.{Fits};
ghost use Rattle.tpl_reader.specs.Prelude.{DocumentValue, Spells, doc_of};
ghost use Rattle.tpl_report.specs.Prelude.{IsToldOf};

use crate::boxes::run_boxes;
use crate::devices::{Noting, say_unwritten, say_what_failed};
use crate::first_line::FirstLine;
use crate::line::{Line, LineFault, Tries, line_of};
use crate::progress::{ClaimProgress, RunProgress};
use crate::seen::Seen;
use crate::stack::take_stack;
use crate::why::{Teller, asks_why, reads_each, say_newer, say_one_line, say_what_is_read};
use std::alloc::Global;
use std::io::{BufWriter, ErrorKind, IsTerminal, Read, Write};
use std::process::ExitCode;
use std::sync::Wait;
use std::thread::{Threads, available_parallelism};
use std::{env, iter};
use tpl_commands::{
    Asking, Command, Exit, Loaded, Nobody, load_watched, put_out_of_memory, serve_watched,
};
use tpl_each::{MOST_JOBS, serve_each};
use tpl_journal::Counting;
use tpl_model::Inputs;
use tpl_reader::Document;
use tpl_report::{Crew, Depth, Telling};
use tpl_shown::audit_page;
use tpl_trace::trace_document;
use tpl_verdicts::{OneByOne, Verification, verify_document};
use tpl_verify::{Limits, Search, refute_document};

/// The words of the command line, the program's own name first.
fn words(rt: &HostRuntime) -> Result<Vec<String>, LineFault> {
    match env::args(rt) {
        Ok(words) => Ok(words.collect(rt.alloc())?),
        Err(error) if error.kind() == ErrorKind::OutOfMemory => Err(LineFault::Memory),
        Err(_) => Err(LineFault::Usage(String::from_str(
            rt.alloc(),
            "error: a word is no text\n",
        )?)),
    }
}

/// What is to be done, whether the standard error is to say why the answer is what it is, and what was seen meanwhile.
#[derive(Drop)]
struct Order {
    line: Line,
    explains: bool,
    seen: Seen,
}

/// What the command line says. Its texts call the program `taskgraph`, whatever file it is run from. Where the standard
/// error is a terminal, it says why without being asked.
fn given_order(rt: &HostRuntime) -> Result<Order, LineFault>
    ensures { IfOk result (λ order. IsWithin order.line) }
{
    let words = words(rt)?;
    let given = words.iter().skip(1).map(|word| word.as_str());
    let texts: Vec<&str> = iter::once("taskgraph").chain(given).collect(rt.alloc())?;
    let line = line_of(rt.alloc(), &texts)?;
    let explains = asks_why(&texts) || rt.stderr().is_terminal();
    Ok(Order {
        line,
        explains,
        seen: Seen::new(),
    })
}

/// Makes the run of a document, which is told so.
fn run_document<R: Threads + Wait + Sync, O: Write>(
    rt: &HostRuntime,
    threads: &R,
    workers: u16,
    telling: Telling<'_>,
    document: &Document,
    to: &mut Counting<O>,
) -> Exit
    requires told { IsToldOf telling (doc_of document.now) }
    requires claims { All (Fits document.now.graph.graph) document.now.claims.items }
    requires tokens { RequestsTokens (doc_of document.now) }
    ensures { ServesBoxes telling.entry (doc_of document.now) workers
        O.contents to.old to.new result }
{
    let inputs = document.inputs().unwrap_or(Inputs::new(0));
    let progress = RunProgress::new(rt, &document.graph, inputs);
    let follower = rt.stderr().is_terminal().then_some(&progress);
    let crew = Crew { workers, follower };
    run_boxes(threads, rt.alloc(), telling, document, crew, to)
}

/// How the run of the document that these bytes spell is told.
fn telling_of(is_whole: bool, bytes: &[u8]) -> Telling<'_>
    ensures told { (doc : DocumentValue) → Spells bytes.now doc → IsToldOf result doc }
    ensures asked { TellsAs is_whole result }
{
    if is_whole {
        Telling::Whole(bytes)
    } else {
        Telling::Report
    }
}

/// Makes the run of the document that comes.
fn run<R: Threads + Wait + Sync, I: Read, O: Write>(
    rt: &HostRuntime,
    threads: &R,
    teller: Teller<'_>,
    workers: u16,
    is_whole: bool,
    from: &mut Counting<I>,
    to: &mut Counting<O>,
) -> Exit
    ensures { RunsDocument workers is_whole I.remaining from.old from.new
        O.contents to.old to.new result }
{
    match load_watched(rt.alloc(), teller, from, to) {
        Ok(Loaded { document, bytes }) => {
            let telling = telling_of(is_whole, &bytes);
            let exit = run_document(rt, threads, workers, telling, &document, to);
            teller.ran(exit, &bytes, document);
            exit
        }
        Err(exit) => exit,
    }
}

/// How many threads work beside each other: as many as are asked for, or as there are processors; one where that isn't known.
fn jobs_of<R: Threads>(threads: &R, asked: Option<u16>) -> usize
    requires { AreThreads asked }
    ensures some { 0 < result }
    ensures most { result ≤ MOST_JOBS }
    ensures asked { IfSome asked (λ jobs. result ≡ jobs) }
{
    match asked {
        Some(jobs) => usize::from(jobs),
        None => match available_parallelism(threads) {
            Ok(processors) => processors.get().min(MOST_JOBS),
            Err(_) => 1,
        },
    }
}

/// How many threads work beside each other. Where there are several, the stack is taken before the first one starts.
fn threads_for<R: Threads>(rt: &HostRuntime, threads: &R, asked: Option<u16>) -> usize
    requires { AreThreads asked }
    ensures some { 0 < result }
    ensures most { result ≤ MOST_JOBS }
    ensures asked { IfSome asked (λ jobs. result ≡ jobs) }
{
    let jobs = jobs_of(threads, asked);
    if jobs > 1 {
        take_stack(rt);
    }
    jobs
}

/// Answers the document on each line by this command. No reasons are given.
fn answer_each<R: Threads + Sync, C: Command + Sync, I: Read, O: Write>(
    rt: &HostRuntime,
    threads: &R,
    command: &C,
    jobs: Option<u16>,
    from: &mut Counting<I>,
    to: &mut Counting<O>,
) -> Exit
    requires { AreThreads jobs }
    ensures { RespondsToEach (C.answers command.now) I.remaining from.old from.new
        O.contents to.old to.new result }
{
    let jobs = threads_for(rt, threads, jobs);
    serve_each(threads, command, rt.alloc(), jobs, from, to)
}

/// The search for a run in which a claim fails: of this claim or each, by so many runs and from this seed on. Where lines
/// are asked for, the listener is told when the search for a claim has ended.
fn search_of(claim: Option<u16>, tries: Tries, explains: bool) -> Search
    ensures claim { result.claim ≡ claim }
    ensures tries { (result.limits.runs ≡ tries.runs) × (result.limits.seed ≡ tries.seed) }
    ensures explains { result.explain ≡ explains }
{
    let seed = u64::from(tries.seed);
    Search::new(claim.map(usize::from), tries.runs, seed, explains)
}

/// How much is tried for each claim that is to have a verdict: so many splits, so many runs, and these from this seed on.
fn limits_of(depth: Depth, tries: Tries) -> Limits
    ensures depth { result.depth ≡ depth }
    ensures tries { (result.runs ≡ tries.runs) × (result.seed ≡ tries.seed) }
{
    Limits::usual(depth, tries.runs, u64::from(tries.seed))
}

/// Searches the document that comes for a run in which a claim fails.
fn refute<I: Read, O: Write>(
    rt: &HostRuntime,
    teller: Teller<'_>,
    search: Search,
    from: &mut Counting<I>,
    to: &mut Counting<O>,
) -> Exit
    ensures { RefutesDocument search.claim I.remaining from.old from.new
        O.contents to.old to.new result }
{
    let progress = ClaimProgress::new(rt);
    refute_document(rt.alloc(), search, teller.of_search(), &progress, from, to)
}

/// Answers each claim of the document that comes, by several threads where there are some.
fn verify_one<R: Threads + Wait + Sync, I: Read, O: Write + Send>(
    rt: &HostRuntime,
    threads: &R,
    teller: Teller<'_>,
    asked: Verification,
    from: &mut Counting<I>,
    to: &mut Counting<O>,
) -> Exit
    requires { 0 < asked.jobs }
    ensures { VerifiesDocument asked.limits.depth asked.limits.runs asked.style I.remaining
        from.old from.new O.contents to.old to.new result }
{
    let progress = ClaimProgress::beside(rt, asked.style, teller.seen());
    let teller = teller.of_search();
    verify_document(threads, rt.alloc(), asked, &progress, teller, from, to)
}

/// Answers each claim of the document that comes, or of the document on each line.
fn verify<R: Threads + Wait + Sync, I: Read, O: Write + Send>(
    rt: &HostRuntime,
    threads: &R,
    teller: Teller<'_>,
    command: OneByOne,
    jobs: Option<u16>,
    is_each: bool,
    from: &mut Counting<I>,
    to: &mut Counting<O>,
) -> Exit
    requires { AreThreads jobs }
    ensures { VerifiesAs is_each command.limits.depth command.limits.runs command.style
        I.remaining from.old from.new O.contents to.old to.new result }
{
    if is_each {
        return answer_each(rt, threads, &command, jobs, from, to);
    }
    let OneByOne { limits, style } = command;
    let asked = Verification {
        limits,
        jobs: threads_for(rt, threads, jobs),
        style,
    };
    verify_one(rt, threads, teller, asked, from, to)
}

/// Traces the journal of the document that comes.
fn trace<I: Read, O: Write>(
    rt: &HostRuntime,
    teller: Teller<'_>,
    from: &mut Counting<I>,
    to: &mut Counting<O>,
) -> Exit
    ensures { TracesDocument I.remaining from.old from.new O.contents to.old to.new result }
{
    trace_document(rt.alloc(), teller, from, to)
}

/// Writes the audit of the journal of the document that comes as a page.
fn show_audit<I: Read, O: Write>(
    rt: &HostRuntime,
    teller: Teller<'_>,
    from: &mut Counting<I>,
    to: &mut Counting<O>,
) -> Exit
    ensures { AuditsAsPage I.remaining from.old from.new O.contents to.old to.new result }
{
    audit_page(rt.alloc(), teller, from, to)
}

/// Answers what comes as the line asks, and says on the standard error why the answer is what it is, where that is asked
/// for.
fn answer<R: Threads + Wait + Sync, I: Read, O: Write + Send>(
    rt: &HostRuntime,
    threads: &R,
    order: &Order,
    from: &mut Counting<I>,
    to: &mut Counting<O>,
) -> Exit
    requires { IsWithin order.now.line }
    ensures { Does order.now.line I.remaining from.old from.new O.contents to.old to.new result }
{
    let teller = Teller::new(rt, &order.line, order.explains, &order.seen);
    match order.line {
        Line::Serve(ask) => serve_watched(rt.alloc(), ask, teller.of_ask(&ask), from, to),
        Line::Each(ask, jobs) => {
            let listener = Nobody;
            answer_each(rt, threads, &Asking { ask, listener }, jobs, from, to)
        }
        Line::Run { workers, is_whole } => run(rt, threads, teller, workers, is_whole, from, to),
        Line::Refute {
            claim,
            tries,
            explains,
        } => {
            let search = search_of(claim, tries, explains);
            refute(rt, teller, search, from, to)
        }
        Line::Verify {
            depth,
            tries,
            jobs,
            style,
            is_each,
        } => {
            let limits = limits_of(depth, tries);
            let command = OneByOne { limits, style };
            verify(rt, threads, teller, command, jobs, is_each, from, to)
        }
        Line::Trace => trace(rt, teller, from, to),
        Line::AuditPage => show_audit(rt, teller, from, to),
    }
}

/// Says what helps where not each answer is yes: the first line of several ends in the middle of a document, or a claim may be
/// proved in a newer version of it.
fn say_what_helps(rt: &HostRuntime, order: &Order, is_cut: bool) {
    if is_cut {
        say_one_line(rt);
    } else if order.explains && order.seen.may_be_proved() {
        say_newer(rt);
    }
}

/// Does what the command line says. What is written is kept together, and all of it is written out before the end is
/// known. What a failed write left is not written later. Where reading or writing failed, standard error says how.
fn perform<R: Threads + Wait + Sync>(rt: &HostRuntime, threads: &R, order: Order) -> Exit
    requires { IsWithin order.line }
{
    say_what_is_read(rt);
    let input = FirstLine::new(rt.stdin(), reads_each(&order.line));
    let mut from = Counting::new(Noting::new(input));
    let Ok(out) = BufWriter::new(rt.alloc(), Noting::new(rt.stdout())) else {
        return put_out_of_memory(&mut Counting::new(rt.stdout()));
    };
    let mut to = Counting::new(out);
    let exit = answer(rt, threads, &order, &mut from, &mut to);
    let (out, _left) = to.into_inner().into_parts();
    let from = from.into_inner();
    match exit {
        Exit::Device => say_what_failed(rt, from.error(), out.error()),
        Exit::Failure => say_what_helps(rt, &order, from.inner().is_cut()),
        _ => {}
    }
    exit
}

/// Writes why there is nothing to do.
fn refuse(rt: &HostRuntime, fault: LineFault) -> Exit {
    match fault {
        LineFault::Help(text) => match print!(rt; "{text}") {
            Ok(()) => Exit::Success,
            Err(error) => {
                say_unwritten(rt, error);
                Exit::Device
            }
        },
        LineFault::Usage(text) => match eprint!(rt; "{text}") {
            Ok(()) => Exit::Usage,
            Err(_) => Exit::Device,
        },
        LineFault::Memory => put_out_of_memory(&mut Counting::new(rt.stdout())),
    }
}

fn main(rt: HostRuntime) -> ExitCode {
    let exit = match given_order(&rt) {
        Ok(order) => perform(&rt, &rt, order),
        Err(fault) => refuse(&rt, fault),
    };
    ExitCode::from(exit.code())
}
