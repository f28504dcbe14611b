//! `ompteam` whose team is one of members: of a text of steps each step is answered by its own [`gomp_team::Member`].
//!
//! All members are on one thread, each with its seat on the ring of the work-shares, and make one try of each call. So each answer has
//! to be that of the program whose team is one value. What is no text of steps is answered as by gomp_plain_runner.
#![tactic(auto)]

mod answer;
mod members;
mod served;

use crate::served::{asked_of, serve_by_members};
use gomp_serve::run_process;
use gomp_service::notes::finish;
use gomp_share_plain::PlainShares;
use std::io;
use std::process::ExitCode;

fn main(rt: HostRuntime) -> io::Result<ExitCode> {
    let alloc = rt.alloc();
    if let Some((icv, ignored)) = asked_of(alloc, std::env::args(&rt)) {
        let status = serve_by_members(&rt, alloc, icv, ignored, rt.reader(), &mut io::writer(&rt));
        return Ok(ExitCode::from(finish(&status, &mut rt.stderr())?));
    }
    run_process::<PlainShares, _, _, _, _>(
        &rt,
        alloc,
        std::env::args(&rt),
        rt.reader(),
        &mut io::writer(&rt),
        &mut rt.stderr(),
    )
}
