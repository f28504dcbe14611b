//! Programs that make planned calls, and execute each task that they are handed.

use gomp_runtime::{Act, Program};
use gomp_types::{Call, CriticalName, Deps, Refusal, Reply, TaskDesc};
use std::alloc::{AllocError, Global};

/// The code of each task that [`task_desc`] describes.
pub const CODE: u64 = 7;

/// What a program plans to do next.
#[derive(Drop)]
pub enum PlannedAct {
    /// To make this call of its team.
    Call(Call),
    /// To fork a nested region, without a `num_threads` clause.
    Nested,
    /// The same, and to find no memory for the programs of its members.
    NestedNoMemory,
    /// To find no memory, which breaks its team.
    NoMemory,
}

/// What each member of a nested region plans.
#[derive(Clone, Copy)]
pub enum Within {
    /// A barrier.
    Meets,
    /// To set lock 0.
    Sets,
    /// To unset it.
    Unsets,
    /// To try what another holds, lock 0 and a critical name, and then to set lock 1 and unset it.
    Tries,
    /// To stop, if its number is 1. The others plan a barrier.
    Stops,
    /// The same, but before it to end a loop that it is not in.
    Errs,
    /// To find no memory, if its number is 1. The others plan a barrier.
    NoMemory,
}

/// A program that makes planned calls. It executes each task that it is handed: it ends the task at once, and goes on with the wait at
/// which it was started.
#[derive(Drop)]
pub struct Planned {
    /// What it is known by.
    pub mark: u64,
    /// What it plans, the next last.
    pub plans: Vec<PlannedAct>,
    /// The tasks that it was told it created.
    pub created: Vec<u32>,
    /// The tasks that it was handed.
    pub started: Vec<u32>,
    /// How often it was asked.
    pub asked: u64,
    /// What it was answered, as it prints: a reply cannot be copied. The first is `Finished`, before its first call.
    pub heard: Vec<String>,
    /// The same of each program that it took back.
    pub theirs: Vec<Vec<String>>,
    /// How many iterations it was told to do.
    pub iterations: u64,
    /// What the members of its nested regions plan.
    pub within: Within,
    /// Whether it finds no memory for the programs of the nested region that it forks.
    pub lacks: bool,
    /// How many levels of nested regions the members of its nested regions plan, one within the other.
    pub levels: u64,
    /// How many programs it took back, and these did.
    pub joined: u64,
    /// How often it, or a program that it took back, was answered that a nested region would lie too deep.
    pub too_deep: u64,
    /// How often it, or a program that it took back, was answered another refusal.
    pub refused: u64,
    /// How often it was answered that a lock was free.
    pub got: u64,
}

/// The critical name that a member holds, and those of [`Within::Tries`] try to give up.
pub fn critical_name() -> CriticalName {
    CriticalName::new(b"held")
}

impl Within {
    /// What the member of this number plans, in its order. Of what another holds it tries what does not wait.
    fn calls(self, alloc: Global, number: u16) -> Result<Vec<Call>, AllocError> {
        Ok(match (self, number) {
            (Within::Sets, _) => vec![in alloc; Call::Set(0)]?,
            (Within::Unsets, _) => vec![in alloc; Call::Unset(0)]?,
            (Within::Tries, _) => vec![in alloc;
                Call::Test(0),
                Call::Unset(0),
                Call::CriticalEnd(critical_name()),
                Call::Set(1),
                Call::Unset(1),
            ]?,
            (Within::Stops, 1) => vec![in alloc; Call::Stop]?,
            (Within::Errs, 1) => vec![in alloc; Call::LoopEnd, Call::Stop]?,
            _ => vec![in alloc; Call::Barrier]?,
        })
    }
}

/// The description of a deferred task without dependences, which has this argument.
pub fn task_desc(alloc: Global, arg: u64) -> TaskDesc {
    TaskDesc {
        code: CODE,
        arg,
        undeferred: false,
        final_task: false,
        deps: Deps::new(alloc),
    }
}

impl Planned {
    /// A program that is known by `mark`, and plans nothing yet: it comes to its region's end at once.
    pub fn new(alloc: Global, mark: u64) -> Planned {
        Planned {
            mark,
            plans: Vec::new(alloc),
            created: Vec::new(alloc),
            started: Vec::new(alloc),
            asked: 0,
            heard: Vec::new(alloc),
            theirs: Vec::new(alloc),
            iterations: 0,
            within: Within::Meets,
            lacks: false,
            levels: 0,
            joined: 0,
            too_deep: 0,
            refused: 0,
            got: 0,
        }
    }

    /// A program for the member of this number of a nested region: it plans what `within` says, and before it a nested
    /// region, if more levels are planned.
    fn child(&self, alloc: Global, number: u16) -> Result<Planned, AllocError> {
        let mut prog = Planned::new(alloc, self.mark);
        for call in self.within.calls(alloc, number)?.into_iter().rev() {
            prog.plans.push(PlannedAct::Call(call))?;
        }
        if let (Within::NoMemory, 1) = (self.within, number) {
            prog.plans.push(PlannedAct::NoMemory)?;
        }
        if let Some(levels) = self.levels.checked_sub(1) {
            prog.levels = levels;
            prog.plans.push(PlannedAct::Nested)?;
        }
        Ok(prog)
    }

    /// To fork a nested region; `lacks` says whether it finds no memory for the programs of that.
    fn nested_act(&mut self, lacks: bool) -> Act {
        self.lacks = lacks;
        Act::Parallel {
            num_threads: None,
            if_clause: true,
        }
    }

    /// What comes behind a reply that is no task.
    fn go_on(&mut self) -> Result<Act, AllocError> {
        match self.plans.pop() {
            Some(PlannedAct::Call(call)) => Ok(Act::Do(call)),
            Some(PlannedAct::Nested) => Ok(self.nested_act(false)),
            Some(PlannedAct::NestedNoMemory) => Ok(self.nested_act(true)),
            Some(PlannedAct::NoMemory) => Err(AllocError),
            None => Ok(Act::Do(Call::RegionEnd)),
        }
    }
}

impl Program for Planned {
    ghost next_gives = { λ before last act after. Unit {0} };

    ghost fork_gives = { λ program count made. Unit {0} };

    ghost join_gives = { λ before children after. Unit {0} };

    fn next(&mut self, alloc: Global, last: &Reply) -> Result<Act, AllocError> {
        self.asked = self.asked.saturating_add(1);
        self.heard.push(format!(in alloc; "{last:?}")?)?;
        match last {
            Reply::Run { task, .. } => {
                self.started.push(*task)?;
                return Ok(Act::Do(Call::TaskEnd));
            }
            Reply::TaskDone { waiting: true, .. } => return Ok(Act::Do(Call::Resume)),
            Reply::Created(task) => self.created.push(*task)?,
            Reply::Chunk { count, .. } => {
                self.iterations = self.iterations.saturating_add(*count);
                return Ok(Act::Do(Call::LoopNext));
            }
            Reply::Refused(Refusal::TooManyLevels) => {
                self.too_deep = self.too_deep.saturating_add(1);
            }
            Reply::Got(true) => self.got = self.got.saturating_add(1),
            Reply::Refused(_) => self.refused = self.refused.saturating_add(1),
            _ => {}
        }
        self.go_on()
    }

    /// A program for each, by `child`, unless it is to find no memory for them.
    fn fork(&self, alloc: Global, count: u16) -> Result<Vec<Planned>, AllocError> {
        if self.lacks {
            return Err(AllocError);
        }
        let mut progs = Vec::new(alloc);
        for member in 0..count {
            progs.push(self.child(alloc, member)?)?;
        }
        Ok(progs)
    }

    /// Counts them, with what they took back, and keeps what they were answered, if there is memory.
    fn join(&mut self, children: Vec<Planned>)
        ensures { Unit {0} }
    {
        for child in children {
            let joined = child.joined.saturating_add(1);
            self.joined = self.joined.saturating_add(joined);
            self.too_deep = self.too_deep.saturating_add(child.too_deep);
            self.refused = self.refused.saturating_add(child.refused);
            let _ = self.theirs.push(child.heard);
        }
    }
}
