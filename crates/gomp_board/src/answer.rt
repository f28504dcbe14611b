//! What the board answers an operation that was tested, before it is handed on.

ghost use Rattle.std.specs.Prelude.{◌≡◌};
ghost use Rattle.gomp_board.specs.Answers.{reply_of_answer};

use gomp_types::{Refusal, Reply};
use std::marker::Model;
use std::mem::size_of;

/// Which reply it is; of the refusals want of memory is left.
#[derive(Clone, Copy)]
pub(crate) enum Kind {
    Finished,
    Passed,
    Cancelled,
    Wait,
    Dropped,
    Stopped,
    /// `Reply::Refused(Refusal::NoMemory)`.
    NoMemory,
    Created,
    Cancelling,
    Run,
    TaskDone,
}

/// What an operation that was tested may be answered: the fields of all replies in one record, so that
/// it is moved in a few registers. A field that its kind does not have is 0, and false.
#[derive(Clone, Copy)]
pub(crate) struct Outcome {
    /// Which reply it is.
    pub(crate) kind: Kind,
    /// Of `Cancelling` what it says, of `Run` whether it is the member's own, of `TaskDone` whether it waits.
    pub(crate) flag: bool,
    /// Of `Created`, `Run` and `TaskDone` the number of the task.
    pub(crate) task: u32,
    /// Of `Run`.
    pub(crate) code: u64,
    /// Of `Run`.
    pub(crate) arg: u64,
}

/// `Reply::Finished`.
pub(crate) const FINISHED: Outcome = Outcome {
    kind: Kind::Finished,
    flag: false,
    task: 0,
    code: 0,
    arg: 0,
};

/// `Reply::Passed`.
pub(crate) const PASSED: Outcome = Outcome {
    kind: Kind::Passed,
    flag: false,
    task: 0,
    code: 0,
    arg: 0,
};

/// `Reply::Cancelled`.
pub(crate) const CANCELLED: Outcome = Outcome {
    kind: Kind::Cancelled,
    flag: false,
    task: 0,
    code: 0,
    arg: 0,
};

/// `Reply::Wait`.
pub(crate) const WAIT: Outcome = Outcome {
    kind: Kind::Wait,
    flag: false,
    task: 0,
    code: 0,
    arg: 0,
};

/// `Reply::Dropped`.
pub(crate) const DROPPED: Outcome = Outcome {
    kind: Kind::Dropped,
    flag: false,
    task: 0,
    code: 0,
    arg: 0,
};

/// `Reply::Stopped`.
pub(crate) const STOPPED: Outcome = Outcome {
    kind: Kind::Stopped,
    flag: false,
    task: 0,
    code: 0,
    arg: 0,
};

/// `Reply::Refused(Refusal::NoMemory)`.
pub(crate) const NO_MEMORY: Outcome = Outcome {
    kind: Kind::NoMemory,
    flag: false,
    task: 0,
    code: 0,
    arg: 0,
};

/// A reply of the board in 24 bytes. A [`Reply`] has room for the words of a single, and is copied by
/// each function that hands it on: so it is made once, by the function that the caller asked.
#[derive(Drop)]
pub(crate) struct Answer(pub(crate) Outcome);

const _: () = prove!(size_of::<Answer>() <= 24);

impl Model for Answer {
    ghost use Rattle.gomp_types.specs.declared.reply.Reply.{Reply};
    ghost use Rattle.gomp_board.specs.Answers.{reply_of_answer};

    ghost Value = { Reply };

    ghost view = { λ a. reply_of_answer a.0 };
}

impl Answer {
    /// The reply.
    pub(crate) fn into_reply(self) -> Reply
        ensures { result ≡ self }
    {
        let Outcome {
            kind,
            flag,
            task,
            code,
            arg,
        } = self.0;
        match kind {
            Kind::Finished => Reply::Finished,
            Kind::Passed => Reply::Passed,
            Kind::Cancelled => Reply::Cancelled,
            Kind::Wait => Reply::Wait,
            Kind::Dropped => Reply::Dropped,
            Kind::Stopped => Reply::Stopped,
            Kind::NoMemory => Reply::Refused(Refusal::NoMemory),
            Kind::Created => Reply::Created(task),
            Kind::Cancelling => Reply::Cancelling(flag),
            Kind::Run => Reply::Run {
                task,
                code,
                arg,
                own: flag,
            },
            Kind::TaskDone => Reply::TaskDone {
                task,
                waiting: flag,
            },
        }
    }
}
