//! `ompteam`: answers the steps of an OpenMP team, a text whole or line by line, or says what a text is.
//!
//! [`run_process`] does everything, over the work-shares of [`RingAll`]; `main` only hands it the
//! process's words, input, output and standard error.
#![tactic(auto)]

use gomp_serve::run_process;
use gomp_share_ring::RingAll;
use std::io;
use std::process::ExitCode;

fn main(rt: HostRuntime) -> io::Result<ExitCode> {
    run_process::<RingAll, _, _, _, _>(
        &rt,
        rt.alloc(),
        std::env::args(&rt),
        rt.reader(),
        &mut io::writer(&rt),
        &mut rt.stderr(),
    )
}
