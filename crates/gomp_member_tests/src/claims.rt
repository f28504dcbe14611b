//! The calls that a member's seat answers alone, with no lock: in loops and sections, and where the member may not make them.

use crate::checks::{AMPLE, same};
use crate::lines::{Answer, Ask, Line};
use crate::regions::run_region;
use crate::walkers::SeatAsk;
use crate::ways::Way;
use gomp_test_data::LOOP;
use gomp_types::{EndKind, LoopDesc};

/// A loop of two iterations by `dynamic, 1`, with no barrier.
const PAIR: LoopDesc = LoopDesc {
    end: 2,
    chunk: 1,
    end_kind: EndKind::Nowait,
    ..LOOP
};

/// The member of a team of one asks its seat in a loop, in a task, in sections, outside of these, and behind the region's end.
pub(crate) const CLAIMS: &[Line] = &[
    Line::Call(
        Ask::Own(SeatAsk::Next),
        Answer::OutsideShare,
        "before a loop",
    ),
    // in a loop: its chunks, and no section
    Line::Call(Ask::OwnLoop(PAIR), Answer::Chunk(0, 1), "a loop"),
    Line::Call(
        Ask::Own(SeatAsk::Section),
        Answer::OutsideShare,
        "a section",
    ),
    // none in an explicit task, which is not deferred
    Line::Call(
        Ask::Create {
            undeferred: true,
            item: None,
        },
        Answer::Run { task: 1, own: true },
        "a task",
    ),
    Line::Call(Ask::Own(SeatAsk::Next), Answer::InsideTask, "in a task"),
    Line::Call(
        Ask::EndTask,
        Answer::Done {
            task: 1,
            waiting: false,
        },
        "the end of a task",
    ),
    Line::Call(
        Ask::Own(SeatAsk::Next),
        Answer::Chunk(1, 1),
        "the second chunk",
    ),
    Line::Call(
        Ask::Own(SeatAsk::Cancel),
        Answer::NotCancellable,
        "a cancel",
    ),
    Line::Call(Ask::Own(SeatAsk::Point), Answer::NotCancellable, "a point"),
    // none behind the last one, and none once the loop has ended
    Line::Call(Ask::Own(SeatAsk::Next), Answer::NoChunk, "the last chunk"),
    Line::Call(Ask::Own(SeatAsk::Next), Answer::Drained, "a chunk more"),
    Line::Call(Ask::Own(SeatAsk::LoopEnd), Answer::Finished, "the end"),
    Line::Call(
        Ask::Own(SeatAsk::Next),
        Answer::OutsideShare,
        "behind the loop",
    ),
    // in sections, likewise
    Line::Call(
        Ask::Sections(2, EndKind::Nowait),
        Answer::Section(1),
        "sections",
    ),
    Line::Call(Ask::Own(SeatAsk::Section), Answer::Section(2), "the second"),
    Line::Call(Ask::Own(SeatAsk::Section), Answer::Section(0), "none left"),
    Line::Call(Ask::Own(SeatAsk::Section), Answer::Drained, "one more"),
    Line::Call(
        Ask::Own(SeatAsk::SectionsEnd),
        Answer::Finished,
        "the end of sections",
    ),
    Line::Call(Ask::RegionEnd, Answer::Passed, "the region's end"),
    Line::Call(Ask::Own(SeatAsk::Next), Answer::Ended, "behind the end"),
];

#[test]
fn seats_answer_alone(rt: HostRuntime) {
    let outcome = run_region(&rt, rt.alloc(), 1, Way::Claims);
    let history = outcome.settled.expect(&rt, "a history");
    // The creation of the task, its start and its end, the arrival at the region's end, and the pass.
    same(&rt, &history.len(), &5, "events", 0);
}
