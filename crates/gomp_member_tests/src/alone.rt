//! The calls that a member's seat answers in a word or two, or not at all: where they are answered, and where nothing is done.

use crate::checks::{AMPLE, same};
use crate::lines::{Answer, Ask, Line};
use crate::regions::run_region;
use crate::walkers::{AloneAsk, SeatAsk};
use crate::ways::Way;
use gomp_team_region::SettleError;
use gomp_test_data::LOOP;
use gomp_types::{Clash, EndKind, LoopDesc, Place};

/// A loop of two iterations by `dynamic, 1`, with no barrier.
const PAIR: LoopDesc = LoopDesc {
    end: 2,
    chunk: 1,
    end_kind: EndKind::Nowait,
    ..LOOP
};

/// The same with a barrier at its end.
const WITH_BARRIER: LoopDesc = LoopDesc {
    end_kind: EndKind::Wait,
    ..PAIR
};

/// The same with ordered parts.
const IN_ORDER: LoopDesc = LoopDesc {
    ordered: true,
    ..PAIR
};

/// The same whose step is 0.
const NO_STEP: LoopDesc = LoopDesc { incr: 0, ..PAIR };

/// The member of a team of one goes through a loop, sections, a single and an ordered loop; it asks where it may not, too: in another
/// share, in a task, in a critical name, with a barrier at the end, and with something left.
pub(crate) const ALONE: &[Line] = &[
    // outside of every share
    Line::Call(
        Ask::Alone(AloneAsk::LoopEnd),
        Answer::Nothing,
        "no loop to end",
    ),
    Line::Call(
        Ask::Alone(AloneAsk::SectionsEnd),
        Answer::Nothing,
        "no sections to end",
    ),
    Line::Call(Ask::Alone(AloneAsk::Section), Answer::Nothing, "no section"),
    Line::Call(
        Ask::Alone(AloneAsk::PartStart(0)),
        Answer::Nothing,
        "no part",
    ),
    Line::Call(
        Ask::Alone(AloneAsk::PartEnd),
        Answer::Nothing,
        "no part to end",
    ),
    Line::Call(
        Ask::Alone(AloneAsk::Next),
        Answer::Nothing,
        "no ordered loop",
    ),
    Line::Call(
        Ask::Alone(AloneAsk::Loop(WITH_BARRIER)),
        Answer::Nothing,
        "a barrier",
    ),
    Line::Call(
        Ask::Alone(AloneAsk::Loop(NO_STEP)),
        Answer::Nothing,
        "a step of 0",
    ),
    // a loop
    Line::Call(
        Ask::Alone(AloneAsk::Loop(PAIR)),
        Answer::Chunk(0, 1),
        "a loop",
    ),
    Line::Call(
        Ask::Alone(AloneAsk::Loop(PAIR)),
        Answer::Nothing,
        "a loop in it",
    ),
    Line::Call(
        Ask::Alone(AloneAsk::Single),
        Answer::Nothing,
        "a single in it",
    ),
    Line::Call(
        Ask::Alone(AloneAsk::Section),
        Answer::Nothing,
        "a section in it",
    ),
    Line::Call(Ask::Alone(AloneAsk::Next), Answer::Nothing, "in order"),
    Line::Call(
        Ask::Alone(AloneAsk::LoopEnd),
        Answer::Nothing,
        "its end too early",
    ),
    Line::Call(
        Ask::Own(SeatAsk::Next),
        Answer::Chunk(1, 1),
        "the second chunk",
    ),
    Line::Call(Ask::Own(SeatAsk::Next), Answer::NoChunk, "no chunk"),
    Line::Call(
        Ask::Alone(AloneAsk::SectionsEnd),
        Answer::Nothing,
        "an end of sections",
    ),
    Line::Call(Ask::Alone(AloneAsk::LoopEnd), Answer::Finished, "its end"),
    Line::Call(
        Ask::Alone(AloneAsk::LoopEnd),
        Answer::Nothing,
        "its end again",
    ),
    // sections
    Line::Call(
        Ask::Alone(AloneAsk::Sections(2, EndKind::Wait)),
        Answer::Nothing,
        "sections with a barrier",
    ),
    Line::Call(
        Ask::Alone(AloneAsk::Sections(2, EndKind::Nowait)),
        Answer::Section(1),
        "sections",
    ),
    Line::Call(
        Ask::Alone(AloneAsk::SectionsEnd),
        Answer::Nothing,
        "their end too early",
    ),
    Line::Call(
        Ask::Alone(AloneAsk::Section),
        Answer::Section(2),
        "the second",
    ),
    Line::Call(
        Ask::Alone(AloneAsk::Section),
        Answer::Section(0),
        "none left",
    ),
    Line::Call(Ask::Alone(AloneAsk::Section), Answer::Nothing, "one more"),
    Line::Call(
        Ask::Alone(AloneAsk::LoopEnd),
        Answer::Nothing,
        "an end of a loop",
    ),
    Line::Call(
        Ask::Alone(AloneAsk::SectionsEnd),
        Answer::Finished,
        "their end",
    ),
    // a single
    Line::Call(
        Ask::Alone(AloneAsk::Single),
        Answer::Executor(true),
        "a single",
    ),
    // an ordered loop
    Line::Call(
        Ask::Alone(AloneAsk::Loop(IN_ORDER)),
        Answer::Chunk(0, 1),
        "an ordered loop",
    ),
    Line::Call(
        Ask::Alone(AloneAsk::PartStart(1)),
        Answer::Nothing,
        "another's iteration",
    ),
    Line::Call(
        Ask::Alone(AloneAsk::PartEnd),
        Answer::Nothing,
        "no part to end in it",
    ),
    Line::Call(
        Ask::Alone(AloneAsk::PartStart(0)),
        Answer::Finished,
        "a part",
    ),
    Line::Call(
        Ask::Alone(AloneAsk::PartStart(0)),
        Answer::Nothing,
        "a part in it",
    ),
    Line::Call(Ask::Alone(AloneAsk::Next), Answer::Nothing, "a chunk in it"),
    Line::Call(
        Ask::Alone(AloneAsk::PartEnd),
        Answer::Finished,
        "the part's end",
    ),
    Line::Call(
        Ask::Alone(AloneAsk::Next),
        Answer::Chunk(1, 1),
        "the next in order",
    ),
    Line::Call(Ask::Alone(AloneAsk::Next), Answer::NoChunk, "none in order"),
    Line::Call(
        Ask::Alone(AloneAsk::Next),
        Answer::Nothing,
        "one more in order",
    ),
    Line::Call(
        Ask::Alone(AloneAsk::LoopEnd),
        Answer::Finished,
        "the ordered loop's end",
    ),
    // none in an explicit task, which is not deferred
    Line::Call(
        Ask::Create {
            undeferred: true,
            item: None,
        },
        Answer::Run { task: 1, own: true },
        "a task",
    ),
    Line::Call(
        Ask::Alone(AloneAsk::Loop(PAIR)),
        Answer::Nothing,
        "a loop in a task",
    ),
    Line::Call(
        Ask::Alone(AloneAsk::Single),
        Answer::Nothing,
        "a single in a task",
    ),
    Line::Call(
        Ask::EndTask,
        Answer::Done {
            task: 1,
            waiting: false,
        },
        "the end of a task",
    ),
    // none in a critical name, where no barrier may be met either
    Line::Call(Ask::Enter(b"a"), Answer::Finished, "a name"),
    Line::Call(
        Ask::Alone(AloneAsk::Loop(PAIR)),
        Answer::Nothing,
        "a loop in a name",
    ),
    Line::Call(Ask::OwnLoop(PAIR), Answer::HoldsCritical, "a loop refused"),
    Line::Call(Ask::Barrier, Answer::HoldsCritical, "a barrier"),
    Line::Call(Ask::Leave(b"a"), Answer::Finished, "the name's end"),
    Line::Call(
        Ask::Alone(AloneAsk::Single),
        Answer::Executor(true),
        "a single behind it",
    ),
    Line::Call(Ask::RegionEnd, Answer::Passed, "the region's end"),
    Line::Call(
        Ask::Alone(AloneAsk::Loop(PAIR)),
        Answer::Nothing,
        "behind the end",
    ),
];

/// Who stopped the team.
const STOPPED: Clash = Clash {
    member: 0,
    place: Place::Stopped,
};

/// Once it is stopped nothing more starts.
pub(crate) const ALONE_STOPPED: &[Line] = &[
    Line::Call(
        Ask::Alone(AloneAsk::Single),
        Answer::Executor(true),
        "a single",
    ),
    Line::Call(Ask::Stop, Answer::Stopped, "a stop"),
    Line::Call(
        Ask::Alone(AloneAsk::Single),
        Answer::Nothing,
        "a single then",
    ),
    Line::Call(
        Ask::Alone(AloneAsk::Loop(PAIR)),
        Answer::Nothing,
        "a loop then",
    ),
    Line::Call(
        Ask::OwnLoop(PAIR),
        Answer::Broken(STOPPED),
        "a loop refused",
    ),
    Line::Call(Ask::Single, Answer::Broken(STOPPED), "a single refused"),
    Line::Call(Ask::LoopNext, Answer::Broken(STOPPED), "a chunk refused"),
];

#[test]
fn seats_answer_all_or_nothing(rt: HostRuntime) {
    let outcome = run_region(&rt, rt.alloc(), 1, Way::Alone);
    let history = outcome.settled.expect(&rt, "a history");
    // The creation of the task, its start and its end, the arrival at the region's end, and the pass.
    same(&rt, &history.len(), &5, "events", 0);
}

#[test]
fn nothing_starts_in_a_stopped_team(rt: HostRuntime) {
    let outcome = run_region(&rt, rt.alloc(), 1, Way::AloneStopped);
    let expected = Err(SettleError::Broken(STOPPED));
    same(&rt, &outcome.settled, &expected, "settled", 0);
}
