//! `ompteam` over the plain body of the work-shares: each answer has to be that of the program over the ring.
//!
//! [`run_process`] does everything; `main` only hands it the process's words, input, output and
//! standard error.
#![tactic(auto)]

use gomp_serve::run_process;
use gomp_share_plain::PlainShares;
use std::io;
use std::process::ExitCode;

fn main(rt: HostRuntime) -> io::Result<ExitCode> {
    run_process::<PlainShares, _, _, _, _>(
        &rt,
        rt.alloc(),
        std::env::args(&rt),
        rt.reader(),
        &mut io::writer(&rt),
        &mut rt.stderr(),
    )
}
