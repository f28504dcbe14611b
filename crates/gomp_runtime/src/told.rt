//! What the tool of member 0 is told of an outermost region.

ghost use Rattle.std.specs.Prelude.{◌≡◌, vec_len};
ghost use Rattle.gomp_ompt.specs.declared.record.Point.TheVariants.{ParallelBegin, ParallelEnd};
ghost use Rattle.gomp_runtime.specs.Regions.{EndIsTold, FirstIsTold};

use gomp_fork::{Forked, RegionFault, Report};
use gomp_ompt::{Point, Record, Tool};

/// The programs and tools of a team of this size, of whose begin the first tool is told (OpenMP API 5.2, section
/// 19.5.2, `parallel_begin`).
pub(crate) fn begin_told<P: Drop, T: Tool>(size: u16, forked: Forked<P, T>) -> Forked<P, T>
    ensures progs { result.progs ≡ forked.progs }
    ensures tools { FirstIsTold T.Tool ParallelBegin size forked.tools.items result.tools.items }
    ensures len { vec_len result.tools ≡ vec_len forked.tools }
{
    let Forked { progs, mut tools } = forked;
    tell_first(Point::ParallelBegin, size, &mut tools);
    Forked { progs, tools }
}

/// What a region of a team of this size left, of whose end the first tool is told (`parallel_end`).
pub(crate) fn end_told<P: Drop, T: Tool>(
    size: u16,
    ended: Result<Report<P, T>, RegionFault<P, T>>,
) -> Result<Report<P, T>, RegionFault<P, T>>
    ensures { EndIsTold T.Tool size ended result }
{
    match ended {
        Ok(report) => {
            let Report {
                size: members,
                taken,
                history,
                progs,
                mut tools,
            } = report;
            tell_first(Point::ParallelEnd, size, &mut tools);
            Ok(Report {
                size: members,
                taken,
                history,
                progs,
                tools,
            })
        }
        Err(fault) => {
            let RegionFault {
                member,
                refusal,
                progs,
                mut tools,
            } = fault;
            tell_first(Point::ParallelEnd, size, &mut tools);
            Err(RegionFault {
                member,
                refusal,
                progs,
                tools,
            })
        }
    }
}

/// Tells the first of these tools, if there is one, the moment of a team of this size.
fn tell_first<T: Tool>(point: Point, size: u16, tools: &mut Vec<T>)
    ensures told { FirstIsTold T.Tool point size tools.old.items tools.new.items }
    ensures len { vec_len tools.new ≡ vec_len tools.old }
{
    if let Some(first) = tools.first_mut() {
        first.on(&Record::single(point, size as u64, 0));
    }
}
