//! A region with the runtime's book of critical names and locks.

ghost use Rattle.std.specs.Prelude.{◌≡◌, ◌+◌, ◌≤◌, IfSome, vec_len};
ghost use Rattle.gomp_locks.specs.Book.{open_holds};
ghost use Rattle.gomp_locks.specs.Order.{IsInOrder};
ghost use Rattle.gomp_types.specs.Limits.{IsTeamSize, standard};
ghost use Rattle.gomp_levels.specs.Levels.{LeavesForked};
ghost use Rattle.gomp_fork.specs.Teams.{team_of};
ghost use Rattle.gomp_nested.specs.Ledgers.{IsLedger};

use gomp_course::{CallGate, Program};
use gomp_crew::{Crew, Host};
use gomp_fork::{Forked, Named, NamedHolds, RegionFault, Report};
use gomp_levels::{OutermostGround, outermost};
use gomp_nested::{Blanks, ClosedBook, OpenBook};
use gomp_ompt::Tool;
use gomp_team_board::EventLedger;
use gomp_types::Refusal;

/// A region whose members share this book, and the book back, as they left it: what they hold of it yet
/// stays held. There is none if another thread has it still, which cannot be once all have returned.
pub(crate) fn region_with_book<L, B, H, F, P, T, G, R>(
    rt: &R,
    blanks: Blanks,
    closed: ClosedBook,
    ground: OutermostGround<G>,
    forked: Forked<P, T>,
) -> (Result<Report<P, T>, RegionFault<P, T>>, Option<ClosedBook>)
where
    L: Named,
    B: Named,
    H: NamedHolds,
    F: Named,
    P: Program + Send + 'static,
    T: Tool + Send + 'static,
    G: CallGate + Send + Sync + 'static,
    R: Host,
    requires events { IsLedger L.name L.parts 65 blanks.events.name blanks.events.parts }
    requires held { IsLedger H.name H.parts 34353345 blanks.held.name blanks.held.parts }
    requires freed { IsLedger F.name F.parts 34353345 blanks.freed.name blanks.freed.parts }
    requires threads { IsLedger B.name B.parts ground.threads.limit
        ground.threads.blank.name ground.threads.blank.parts }
    requires limit { vec_len forked.progs ≤ ground.threads.limit + 1 }
    requires before { open_holds closed.book ≡ H.before }
    requires order { IsInOrder closed.book }
    requires thread_limit { ground.threads.limit + 1 ≡ ground.terms.icv.thread_limit }
    requires limits { ground.terms.limits ≡ standard }
    requires size { IsTeamSize (vec_len forked.progs) }
    requires tools { vec_len forked.tools ≡ vec_len forked.progs }
    ensures region { LeavesForked P.Program T.Tool (vec_len forked.progs)
        (team_of ground.terms) (forked.progs.items, forked.tools.items) result.0 }
    ensures order { IfSome result.1 (λ closed. IsInOrder closed.book) }
{
    let Blanks {
        events,
        held,
        freed,
    } = blanks;
    let mut opened = match OpenBook::<H, F>::new(ground.alloc, closed, held, freed) {
        Ok(opened) => opened,
        Err(back) => return (Err(forked.refused(0, Refusal::NoMemory)), back),
    };
    let mut crew = Crew::new(ground.alloc);
    let ledger = EventLedger::open(events);
    let ended = outermost::<L, B, H, F, P, T, G, R>(
        rt,
        &mut crew,
        &mut opened,
        ledger,
        ground,
        forked,
    );
    crew.stop(rt);
    (ended.result, opened.close())
}
