//! The process: its words, its input, its output and standard error, and the number with which it ends.

ghost use Rattle.std.specs.Prelude.{◌≤◌, IfOk, IfErr};
ghost use Rattle.std.specs.Process.{exit_status};
ghost use Rattle.gomp_serve.specs.Ends.{EndsRunning};
ghost use Rattle.gomp_serve.specs.Process.{EndsAs, EndsOn, EndsWithout, texts_of};

use crate::serve::{RunRequest, serve};
use crate::status::{no_memory, status_of_ending, status_without_words};
use gomp_crew::Host;
use gomp_run::serve::serve_run;
use gomp_service::notes::{Status, finish};
use gomp_shares::Shares;
use std::alloc::Global;
use std::env::Args;
use std::io::{self, Read, Write};
use std::process::ExitCode;

/// Does what the words of the command line say, of which the first is the program's name, writes what is noted at its
/// end to `errors`, and gives the number with which the process ends, at most 3. The error is that the notes could not
/// be written. `run` alone has threads start and wait: it returns if each member's program ends.
///
/// The words are as `std::env::args` gives them: its error says that memory was refused or that a word is not UTF-8.
pub fn run_process<S: Shares + Drop, H: Host, R: Read + Drop, W: Write, E: Write>(
    rt: &H,
    alloc: Global,
    words: io::Result<Args>,
    reader: R,
    writer: &mut W,
    errors: &mut E,
) -> io::Result<ExitCode>
    ensures words { IfOk words (λ given. EndsAs (EndsOn (texts_of given) (R.remaining reader)
        (W.contents writer.old) (W.contents writer.new))
        (E.contents errors.old) (E.contents errors.new) result) }
    ensures none { IfErr words (λ error. EndsAs
        (EndsWithout error (W.contents writer.old) (W.contents writer.new))
        (E.contents errors.old) (E.contents errors.new) result) }
    ensures number { IfOk result (λ code. exit_status code ≤ 3) }
{
    let status = match words {
        Ok(words) => serve_words::<S, _, _, _>(rt, alloc, words, reader, writer),
        Err(error) => status_without_words(alloc, &error),
    };
    Ok(ExitCode::from(finish(&status, errors)?))
}

/// Does what these words say.
fn serve_words<S: Shares + Drop, H: Host, R: Read + Drop, W: Write>(
    rt: &H,
    alloc: Global,
    words: Args,
    reader: R,
    writer: &mut W,
) -> Status
    ensures ends { EndsOn (texts_of words) (R.remaining reader) (W.contents writer.old)
        (W.contents writer.new) result }
    ensures number { result.code ≤ 3 }
{
    let words: Vec<String> = match words.collect(alloc) {
        Ok(words) => words,
        Err(_) => return no_memory(),
    };
    match serve::<S, _, _, _>(alloc, words.as_slice(), reader, writer) {
        Ok(status) => status,
        Err(request) => serve_request(rt, alloc, request, writer),
    }
}

/// Runs the script that the input is.
fn serve_request<H: Host, R: Read + Drop, W: Write>(
    rt: &H,
    alloc: Global,
    request: RunRequest<R>,
    writer: &mut W,
) -> Status
    ensures { EndsRunning request.icv request.ignored.items (R.remaining request.reader)
        (W.contents writer.old) (W.contents writer.new) result }
{
    let RunRequest {
        icv,
        ignored,
        reader,
    } = request;
    status_of_ending(serve_run(rt, alloc, icv, reader, writer), ignored)
}
