//! What the words of the command line ask for, done.

ghost use Rattle.std.specs.Prelude.{◌≡◌, IfErr, IfOk, OnErr, map};
ghost use Rattle.gomp_command.specs.declared.command.Service.TheVariants.{Run};
ghost use Rattle.gomp_command.specs.CommandLine.{asked_of, faults_of};
ghost use Rattle.gomp_serve.specs.Ends.{AsksRun, AsksToRun, Ends, EndsByWord, EndsServing, ServesBy};

use crate::status::{no_equals, no_memory, report_error, status_of_ending};
use gomp_check::serve::serve_check;
use gomp_command::command::{Service, read_words, request_of};
use gomp_command::settings::{SettingsError, read_settings};
use gomp_icv::Icv;
use gomp_live::serve::serve_live;
use gomp_service::notes::Status;
use gomp_service::read::Ending;
use gomp_shares::Shares;
use gomp_steps::serve::serve_steps;
use gomp_trace::serve::serve_trace;
use gomp_types::Refusal;
use std::alloc::Global;
use std::convert::AsStr;
use std::io::{BufReader, Read, Write};

/// What is asked for by the word `run`.
#[derive(Drop)]
pub struct RunRequest<R: Drop> {
    /// The control variables that its settings give.
    pub icv: Icv,
    /// A refusal for each setting that is ignored.
    pub ignored: Vec<Refusal>,
    /// The input, of which nothing is read.
    pub reader: R,
}

/// Does what the words of the command line say, of which the first is the program's name. `run` takes threads,
/// which are not had here: if it is asked for, the error is the request, and nothing is read or written.
///
/// The words behind `steps`, `live`, `check`, `trace` or `run` are settings `NAME=VALUE`, which stand for words
/// of the environment (OpenMP API 5.2, chapter 21). One without `=` is a fault, and nothing is read or written then. Those
/// that set nothing are ignored, and in the notes if the input was answered. [`Status`] says which
/// status each end has.
pub fn serve<S: Shares + Drop, T: AsStr, R: Read + Drop, W: Write>(
    alloc: Global,
    words: &[T],
    reader: R,
    writer: &mut W,
) -> Result<Status, RunRequest<R>>
    ensures ends { IfOk result (Ends (faults_of (map T.text words.now))
        (asked_of (map T.text words.now)) (R.remaining reader)
        (W.contents writer.old) (W.contents writer.new)) }
    ensures service { IfOk result (EndsByWord (map T.text words.now) (R.remaining reader)
        (W.contents writer.old) (W.contents writer.new)) }
    ensures run { IfErr result (λ request. AsksRun (faults_of (map T.text words.now))
        (asked_of (map T.text words.now)) request.icv request.ignored.items) }
    ensures unread { IfErr result (λ request. R.remaining request.reader ≡ R.remaining reader) }
    ensures unwritten { OnErr result (W.contents writer.new ≡ W.contents writer.old) }
{
    match read_words(alloc, words) {
        Ok(matches) => {
            let asked = request_of(&matches);
            serve_with_settings::<S, _, _>(alloc, asked.service, asked.settings, reader, writer)
        }
        Err(error) => Ok(report_error(alloc, &error, writer)),
    }
}

/// Does what the word of a service and these settings say.
fn serve_with_settings<S: Shares + Drop, R: Read + Drop, W: Write>(
    alloc: Global,
    service: Service,
    settings: &[&str],
    reader: R,
    writer: &mut W,
) -> Result<Status, RunRequest<R>>
    ensures ends { IfOk result (EndsServing
        (record { service = service; settings = map (λ word. word.now) settings.now })
        (R.remaining reader) (W.contents writer.old) (W.contents writer.new)) }
    ensures run { IfErr result (λ request. AsksToRun
        (record { service = service; settings = map (λ word. word.now) settings.now })
        request.icv request.ignored.items) }
    ensures unread { IfErr result (λ request. R.remaining request.reader ≡ R.remaining reader) }
    ensures unwritten { OnErr result (W.contents writer.new ≡ W.contents writer.old) }
{
    match read_settings(alloc, settings) {
        Ok((icv, ignored)) => {
            match serve_input::<S, _, _>(alloc, service, icv, reader, writer) {
                Ok(ending) => Ok(status_of_ending(ending, ignored)),
                Err((icv, reader)) => Err(RunRequest {
                    icv,
                    ignored,
                    reader,
                }),
            }
        }
        Err(SettingsError::NoMemory) => Ok(no_memory()),
        Err(SettingsError::NoEquals(word)) => Ok(no_equals(alloc, word)),
    }
}

/// Serves the input by these control variables, or hands both back if it is to be run.
fn serve_input<S: Shares + Drop, R: Read + Drop, W: Write>(
    alloc: Global,
    service: Service,
    icv: Icv,
    reader: R,
    writer: &mut W,
) -> Result<Ending, (Icv, R)>
    ensures serves { IfOk result (ServesBy service icv
        (R.remaining reader) (W.contents writer.old) (W.contents writer.new)) }
    ensures run { IfErr result (λ back. service ≡ Run) }
    ensures same { IfErr result (λ back.
        (back.0 ≡ icv) × (R.remaining back.1 ≡ R.remaining reader)) }
    ensures unwritten { OnErr result (W.contents writer.new ≡ W.contents writer.old) }
{
    match service {
        Service::Steps => Ok(serve_steps::<S, _, _>(alloc, icv, reader, writer)),
        Service::Live => match BufReader::new(alloc, reader) {
            Ok(reader) => Ok(serve_live::<S, _, _>(alloc, icv, reader, writer)),
            Err(_) => Ok(Ending::NoMemory),
        },
        Service::Check => Ok(serve_check(alloc, reader, writer)),
        Service::Trace => Ok(serve_trace::<S, _, _>(alloc, icv, reader, writer)),
        Service::Run => Err((icv, reader)),
    }
}
