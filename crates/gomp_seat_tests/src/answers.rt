//! The replies of these tests, as constants.

use gomp_types::{Refusal, Reply};

/// A reply that these calls give, as a constant; a refusal by its name.
#[derive(Clone, Copy)]
pub(crate) enum Answer {
    Chunk(i64, u64),
    NoChunk,
    Section(u64),
    Executor(bool),
    Cancelling(bool),
    Finished,
    Wait,
    BadChunk,
    BadSections,
    Drained,
    EndDiffers,
    InOrdered,
    InsideShare,
    LoopTooLong,
    Mismatch,
    NotCancellable,
    NotDrained,
    NotInside,
    NotOrdered,
    OrderedBackwards,
    OrderedLoop,
    OutsideShare,
    TooManyShares,
    ZeroStep,
}

/// The refusal that this answer names; none if it is no refusal.
fn refusal_of(answer: Answer) -> Option<Refusal> {
    let refusal = match answer {
        Answer::BadChunk => Refusal::BadChunk,
        Answer::BadSections => Refusal::BadSections,
        Answer::Drained => Refusal::Drained,
        Answer::EndDiffers => Refusal::EndDiffers,
        Answer::InOrdered => Refusal::InOrdered,
        Answer::InsideShare => Refusal::InsideShare,
        Answer::LoopTooLong => Refusal::LoopTooLong,
        Answer::Mismatch => Refusal::Mismatch,
        Answer::NotCancellable => Refusal::NotCancellable,
        Answer::NotDrained => Refusal::NotDrained,
        Answer::NotInside => Refusal::NotInside,
        Answer::NotOrdered => Refusal::NotOrdered,
        Answer::OrderedBackwards => Refusal::OrderedBackwards,
        Answer::OrderedLoop => Refusal::OrderedLoop,
        Answer::OutsideShare => Refusal::OutsideShare,
        Answer::TooManyShares => Refusal::TooManyShares,
        Answer::ZeroStep => Refusal::ZeroStep,
        _ => return None,
    };
    Some(refusal)
}

/// The reply that this answer names.
pub(crate) fn reply_of(answer: Answer) -> Reply {
    if let Some(refusal) = refusal_of(answer) {
        return Reply::Refused(refusal);
    }
    match answer {
        Answer::Chunk(first, count) => Reply::Chunk { first, count },
        Answer::NoChunk => Reply::NoChunk,
        Answer::Section(number) => Reply::Section(number),
        Answer::Executor(executes) => Reply::Executor(executes),
        Answer::Cancelling(cancelled) => Reply::Cancelling(cancelled),
        Answer::Finished => Reply::Finished,
        _ => Reply::Wait,
    }
}
