//! A member that runs its program, one act after another.

ghost use Rattle.std.specs.Prelude.{◌≡◌, Some, None, true, if◌then◌else◌};
ghost use Rattle.gomp_team.specs.Members.{CalledWhole};
ghost use Rattle.gomp_types.specs.declared.reply.Reply.TheVariants.{Finished};
ghost use Rattle.gomp_course.specs.Exchanges.{end_tasks_after, is_last, taken_after};
ghost use Rattle.gomp_course.specs.Forkers.{KeepsVariables};
ghost use Rattle.gomp_course.specs.Runs.{ActsHere, ActsOn, HasForked, Moves, Rejoins, call_made};
ghost use Rattle.gomp_course.specs.declared.course.Came.TheVariants.{On, Over};
ghost use Rattle.gomp_course.specs.declared.program.Act.TheVariants.{Do, Parallel};

use crate::asked::{Asked, asked_by_call};
use crate::forking::{Forker, Nest, Nested, RegionAsked};
use crate::gate::CallGate;
use crate::job::{Job, Outcome};
use crate::no_tool::NoTool;
use crate::program::{Act, Program};
use crate::replies::{end_tasks_after, is_last, taken_after, tests_refusal};
use crate::runner::Runner;
use crate::site::Site;
use gomp_ompt::Tool;
use gomp_team::Member;
use gomp_team_book::HoldLedger;
use gomp_types::{Call, Refusal, Reply};
use std::alloc::Global;
use std::marker::Model;
use std::mem;
use std::sync::Wait;
use std::sync::ledger::Ledger;

/// The number of a lock that is never made: they are numbered from 0, and there are 2^32 - 1 at most.
const NO_LOCK: u32 = u32::MAX;

/// What has come of an act of a member.
#[derive(Clone, Copy, Debug, PartialEq, Eq)]
pub enum Came {
    /// The program is to be asked on.
    On,
    /// It is asked no more.
    Over,
    /// A nested region is to be forked first.
    Fork(RegionAsked),
}

/// How far a member has come with its program.
#[derive(Drop)]
pub(crate) struct Course<L: Ledger, H: HoldLedger, F: Ledger, I: Drop, P: Program, T: Tool> {
    /// Its number.
    number: u16,
    /// The member with its program.
    runner: Runner<L, H, F, I, P, T>,
    /// The reply to its last act.
    last: Reply,
    /// How many tasks it executes that it started at the region's end, if it waits there.
    end_tasks: Option<u32>,
    /// How many iterations it was given.
    taken: u128,
    /// How many calls it has made.
    calls: u64,
    /// The refusal that it got last, before its last reply.
    refusal: Option<Refusal>,
    /// Whether its program found no memory.
    lacks: bool,
}

impl<L: Ledger, H: HoldLedger, F: Ledger, I: Drop, P: Program, T: Tool> Model
    for Course<L, H, F, I, P, T> {
    ghost use Rattle.gomp_course.specs.Runs.{CourseView};

    ghost Value = { CourseView I P T };

    ghost view = { λ c. record { runner = c.runner; last = c.last; end_tasks = c.end_tasks; taken = c.taken } };
}

/// The member makes the call, until it is answered otherwise than to wait. A loop whose schedule is left to
/// the control variables has theirs.
fn call_whole<L: Ledger, H: HoldLedger, F: Ledger, T: Tool, R: Wait>(
    rt: &R,
    member: &mut Member<L, H, F, T>,
    call: Call,
) -> Reply
    ensures { CalledWhole T.on_gives (call_made member.old.icv call) result
        member.old member.new }
{
    match call {
        Call::LoopStart(desc) => member.loop_start(rt, desc),
        call => member.call(rt, call),
    }
}

/// Has a nested region served that a member forks: the member again, and the reply. Its tool is away until
/// then.
fn fork_of<L, H, F, I, P, T, C>(
    site: &C,
    asked: RegionAsked,
    runner: Runner<L, H, F, I, P, T>,
) -> (Runner<L, H, F, I, P, T>, Reply)
where
    L: Ledger,
    H: HoldLedger,
    F: Ledger,
    I: Drop,
    P: Program,
    T: Tool,
    C: Site<I, P, T>,
    requires ready { C.ready site.now }
    requires icv { KeepsVariables C.forks }
    ensures { HasForked C.forks asked result.1 runner result.0 }
{
    let Runner {
        prog,
        member,
        inner,
    } = runner;
    let icv = member.icv().copied();
    let (member, tool) = member.swap_tool(NoTool);
    let forker = Forker {
        prog,
        tool,
        icv,
        inner,
    };
    let Nested { reply, forker } = site.nest(Nest { asked, forker });
    let Forker {
        prog,
        tool,
        inner,
        ..
    } = forker;
    let (member, _) = member.swap_tool(tool);
    let runner = Runner {
        prog,
        member,
        inner,
    };
    (runner, reply)
}

/// Whether a program is asked no more.
fn came_by(over: bool) -> Came
    ensures { result ≡ (if over then Over else On) }
{
    if over { Came::Over } else { Came::On }
}

impl<L: Ledger, H: HoldLedger, F: Ledger, I: Drop, P: Program, T: Tool> Course<L, H, F, I, P, T> {
    /// A member that has not asked its program yet.
    pub(crate) fn new(job: Job<L, H, F, I, P, T>) -> Course<L, H, F, I, P, T>
        ensures runner { result.runner ≡ job.runner }
        ensures last { result.last ≡ Finished }
        ensures end_tasks { result.end_tasks ≡ None }
        ensures taken { result.taken ≡ 0 }
    {
        let Job { number, runner } = job;
        Course {
            number,
            runner,
            last: Reply::Finished,
            end_tasks: None,
            taken: 0,
            calls: 0,
            refusal: None,
            lacks: false,
        }
    }

    /// What comes back of it.
    pub(crate) fn outcome(self) -> Outcome<L, H, F, I, P, T>
        ensures runner { result.runner ≡ self.runner }
        ensures taken { result.taken ≡ self.taken }
    {
        let Course {
            runner,
            last,
            taken,
            refusal,
            lacks,
            ..
        } = self;
        let refusal = match last {
            _ if lacks => Some(Refusal::NoMemory),
            Reply::Refused(last) => Some(last),
            _ => refusal,
        };
        Outcome {
            runner,
            taken,
            refusal,
        }
    }

    /// Asks the program once more, and has the member do what it asks, unless that is a nested region that
    /// no test of each call refuses.
    pub(crate) fn go_on<G: CallGate, R: Wait>(&mut self, rt: &R, alloc: Global, gate: &G) -> Came
        ensures moves { Moves P.Program T.Tool self.old self.new result }
    {
        match self.runner.ask(alloc, &self.last) {
            Ok(act) => self.do_act(rt, gate, act),
            Err(_) => self.stop(rt),
        }
    }

    /// Does what the program asked for.
    fn do_act<G: CallGate, R: Wait>(&mut self, rt: &R, gate: &G, act: Act) -> Came
        ensures acts { ActsOn T.Tool (Some act) self.old self.new result }
    {
        match act {
            Act::Do(call) => came_by(self.make_call(rt, gate, call)),
            Act::Parallel {
                num_threads,
                if_clause,
            } => {
                self.test_nested(
                    rt,
                    RegionAsked {
                        num_threads,
                        if_clause,
                    },
                )
            }
        }
    }

    /// Makes the call, between the two sides of the gate, and answers whether the program is asked no more.
    fn make_call<G: CallGate, R: Wait>(&mut self, rt: &R, gate: &G, call: Call) -> bool
        ensures acts { ActsHere T.Tool (Some (Do call)) self.old self.new result }
    {
        let asks = asked_by_call(&call);
        self.calls = self.calls.saturating_add(1);
        gate.before(self.number, self.calls);
        let reply = call_whole(rt, &mut self.runner.member, call);
        gate.after(self.number, self.calls);
        self.note(asks, reply)
    }

    /// Finds out whether the tests of each call refuse a nested region. A call shows that which is refused
    /// in any case.
    fn test_nested<R: Wait>(&mut self, rt: &R, asked: RegionAsked) -> Came
        ensures acts { ActsOn T.Tool (Some (Parallel asked.num_threads asked.if_clause))
            self.old self.new result }
    {
        let shown = self.runner.member.call(rt, Call::LockDestroy(NO_LOCK));
        match tests_refusal(shown) {
            Some(refusal) => came_by(self.note(Asked::Other, Reply::Refused(refusal))),
            None => Came::Fork(asked),
        }
    }

    /// Stops the team: the program found no memory.
    fn stop<R: Wait>(&mut self, rt: &R) -> Came
        ensures acts { ActsHere T.Tool None self.old self.new true }
        ensures over { result ≡ Over }
    {
        let reply = self.runner.member.call(rt, Call::Stop);
        self.note(Asked::Other, reply);
        self.lacks = true;
        Came::Over
    }

    /// Has a nested region served, and takes note of what has come of it. The member's tool is away
    /// until then.
    pub(crate) fn fork<C: Site<I, P, T>>(
        self,
        site: &C,
        asked: RegionAsked,
    ) -> Course<L, H, F, I, P, T>
        requires ready { C.ready site.now }
        requires icv { KeepsVariables C.forks }
        ensures rejoins { Rejoins C.forks asked self result }
    {
        let Course {
            number,
            runner,
            last,
            end_tasks,
            taken,
            calls,
            refusal,
            lacks,
        } = self;
        let (runner, reply) = fork_of(site, asked, runner);
        let mut course = Course {
            number,
            runner,
            last,
            end_tasks,
            taken,
            calls,
            refusal,
            lacks,
        };
        course.note(Asked::Other, reply);
        course
    }

    /// Takes note of the reply to an act, and answers whether it is the last one, if it is of its own team.
    fn note(&mut self, asks: Asked, reply: Reply) -> bool
        ensures over { result ≡ is_last asks reply self.old.end_tasks }
        ensures last { self.new.last ≡ reply }
        ensures end_tasks { self.new.end_tasks ≡ end_tasks_after asks reply self.old.end_tasks }
        ensures taken { self.new.taken ≡ taken_after reply self.old.taken }
        ensures runner { self.new.runner ≡ self.old.runner }
    {
        let over = is_last(asks, &reply, self.end_tasks);
        self.end_tasks = end_tasks_after(asks, &reply, self.end_tasks);
        self.taken = taken_after(&reply, self.taken);
        if let Reply::Refused(refusal) = mem::replace(&mut self.last, reply) {
            self.refusal = Some(refusal);
        }
        over
    }
}
