//! The words of the command line, as clap reads them.

ghost use Rattle.std.specs.Prelude.{◌≡◌, false, Some, IfOk, map};
ghost use Rattle.clap.specs.Words.{FailsBy, app_of, new_app, rule_of, with_rule, with_subcommand};
ghost use Rattle.gomp_command.specs.CommandLine.{AskFor, HasRequest, IsServiceCommand, asked_by, asked_of, faults_of, ompteam, service_of, settings_rule, values_given};

use clap::{Arg, ArgMatches, Command, Error};
use std::alloc::{AllocError, Global};
use std::convert::AsStr;

/// What the program does with its standard input.
#[derive(Clone, Copy)]
pub enum Service {
    /// `ompteam steps`: a text is read whole, and each of its steps is answered.
    Steps,
    /// `ompteam live`: each line is answered before the next is read.
    Live,
    /// `ompteam check`: a text is read whole, and what it is is said, or its first bad line.
    Check,
    /// `ompteam trace`: a text is read whole, and the trace of its run is written.
    Trace,
    /// `ompteam run`: a script is read whole, its region runs on threads, and what that comes to is
    /// written.
    Run,
}

/// What the words of a command line ask for.
#[derive(Clone, Copy)]
pub struct Request<'m, 'a> {
    /// What is to be done.
    pub service: Service,
    /// The words `NAME=VALUE` behind it, in their order.
    pub settings: &'m [&'a str],
}

impl<'m, 'a> Request<'m, 'a> {
    /// What the word of a service asks for, with these settings if there are any.
    fn new(name: &str, settings: Option<&'m [&'a str]>) -> Self
        ensures { asked_by result
            ≡ record { service = service_of name.now; settings = values_given settings.entry } }
    {
        let settings = match settings {
            Some(settings) => settings,
            None => &[],
        };
        Request {
            service: service_of(name),
            settings,
        }
    }
}

/// What the words say if they are those of `ompteam`, of which the first is the program's name, or why they are refused.
pub fn read_words<'a, S: AsStr>(alloc: Global, words: &'a [S]) -> Result<ArgMatches<'a>, Error>
    ensures faults { FailsBy (faults_of (map S.text words.now)) result }
    ensures asked { IfOk result (AskFor (asked_of (map S.text words.now))) }
    ensures found { IfOk result HasRequest }
{
    ompteam(alloc)?.try_get_matches_from(words)
}

/// What words ask for that were read.
pub fn request_of<'m, 'a>(matches: &'m ArgMatches<'a>) -> Request<'m, 'a>
    requires { HasRequest matches.now }
    ensures { AskFor (Some (asked_by result)) matches.now }
{
    match matches.subcommand() {
        Some((name, found)) => Request::new(name, found.get_strs(SETTINGS)),
        None => unreachable!(),
    }
}

/// The service that this word names.
fn service_of(name: &str) -> Service
    ensures { result ≡ service_of name.now }
{
    if name == "live" {
        Service::Live
    } else if name == "check" {
        Service::Check
    } else if name == "trace" {
        Service::Trace
    } else if name == "run" {
        Service::Run
    } else {
        Service::Steps
    }
}

/// What the help calls a setting.
const SETTINGS: &str = "NAME=VALUE";

/// The command, as its words are read and as its help shows it.
fn ompteam<'a>(alloc: Global) -> Result<Command<'a>, AllocError>
    ensures { IfOk result (λ command. app_of command ≡ ompteam) }
{
    let command = Command::new(alloc, "ompteam")
        .version("0.1.0")
        .about("An OpenMP team, step by step")
        .subcommand_required(true);
    let command = with_service(
        alloc,
        command,
        "steps",
        "Run the text of steps on standard input and print each reply",
    )?;
    let command = with_service(
        alloc,
        command,
        "live",
        "Answer each line of standard input before the next is read",
    )?;
    let command = with_service(
        alloc,
        command,
        "check",
        "Check the text on standard input and print what it is, or its first bad line",
    )?;
    let command = with_service(
        alloc,
        command,
        "trace",
        "Run the text of steps on standard input and write its trace of tool records as JSON",
    )?;
    with_service(
        alloc,
        command,
        "run",
        "Run the script on standard input on threads and print what its members add up to",
    )
}

/// The command with one subcommand more, of this name and with what the help says of it.
fn with_service<'a>(
    alloc: Global,
    command: Command<'a>,
    word: &'a str,
    about: &'a str,
) -> Result<Command<'a>, AllocError>
    ensures { IfOk result (λ added. app_of added ≡
        with_subcommand (app_of command.entry) (with_rule (new_app word.now) settings_rule).top) }
{
    let service = service_command(alloc, word, about)?;
    command.subcommand(service)
}

/// The subcommand of this name, which takes settings, with what the help says of it.
fn service_command<'a>(
    alloc: Global,
    word: &'a str,
    about: &'a str,
) -> Result<Command<'a>, AllocError>
    ensures { IfOk result (IsServiceCommand word.now) }
{
    Command::new(alloc, word)
        .about(about)
        .arg(settings_arg(alloc))
}

/// The argument that takes the settings, any number of them.
fn settings_arg<'a>(alloc: Global) -> Arg<'a>
    ensures rule { rule_of result ≡ settings_rule }
    ensures local { result.global ≡ false }
{
    Arg::new(alloc, SETTINGS)
        .help("Set a control variable, as this word does in the environment")
        .num_args(..)
}
