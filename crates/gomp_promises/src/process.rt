//! What a process does with its words, and how it ends.

ghost use Rattle.std.specs.Prelude.{◌≤◌, IfOk, IfErr, OnErr, ◌≡◌, map};
ghost use Rattle.std.specs.Process.{exit_status};
ghost use Rattle.gomp_serve.specs.Process.{EndsAs, EndsOn, EndsWithout, texts_of};
ghost use Rattle.gomp_command.specs.CommandLine.{asked_of, faults_of};
ghost use Rattle.gomp_serve.specs.Ends.{AsksRun, Ends, EndsByWord};

use gomp_crew::Host;
use gomp_serve::serve::RunRequest;
use gomp_service::notes::Status;
use gomp_shares::Shares;
use std::alloc::Global;
use std::convert::AsStr;
use std::env::Args;
use std::io::{self, Read, Write};
use std::process::ExitCode;

/// Does what the words of a process say.
pub fn run_process<S: Shares + Drop, H: Host, R: Read + Drop, W: Write, E: Write>(
    rt: &H,
    alloc: Global,
    words: io::Result<Args>,
    reader: R,
    writer: &mut W,
    errors: &mut E,
) -> io::Result<ExitCode>
    ensures words { IfOk words (λ given. EndsAs (EndsOn (texts_of given) (R.remaining reader)
        (W.contents writer.old) (W.contents writer.new))
        (E.contents errors.old) (E.contents errors.new) result) }
    ensures none { IfErr words (λ error. EndsAs
        (EndsWithout error (W.contents writer.old) (W.contents writer.new))
        (E.contents errors.old) (E.contents errors.new) result) }
    ensures number { IfOk result (λ code. exit_status code ≤ 3) }
{
    gomp_serve::run_process::<S, _, _, _, _>(rt, alloc, words, reader, writer, errors)
}

/// Does what these words say, or hands back what `run` asks for.
pub fn serve<S: Shares + Drop, T: AsStr, R: Read + Drop, W: Write>(
    alloc: Global,
    words: &[T],
    reader: R,
    writer: &mut W,
) -> Result<Status, RunRequest<R>>
    ensures ends { IfOk result (Ends (faults_of (map T.text words.now))
        (asked_of (map T.text words.now)) (R.remaining reader)
        (W.contents writer.old) (W.contents writer.new)) }
    ensures service { IfOk result (EndsByWord (map T.text words.now) (R.remaining reader)
        (W.contents writer.old) (W.contents writer.new)) }
    ensures run { IfErr result (λ request. AsksRun (faults_of (map T.text words.now))
        (asked_of (map T.text words.now)) request.icv request.ignored.items) }
    ensures unread { IfErr result (λ request. R.remaining request.reader ≡ R.remaining reader) }
    ensures unwritten { OnErr result (W.contents writer.new ≡ W.contents writer.old) }
{
    gomp_serve::serve::serve::<S, _, _, _>(alloc, words, reader, writer)
}
