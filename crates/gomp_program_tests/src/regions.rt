//! Regions that run scripts: the members take turns, one step each. A nested region runs on a team of its own, while the
//! others wait.

use crate::checks::{AMPLE, same};
use gomp_core::Team;
use gomp_icv::{Icv, child_icv, read_env, team_size};
use gomp_program::{ScriptAct, ScriptProgram};
use gomp_region::{AskedSize, parse_script};
use gomp_share_ring::RingAll;
use gomp_types::{Refusal, Reply};
use std::alloc::Global;
use std::mem::replace;
use std::process::Abort;
use std::sync::Arc;

/// So many steps a script makes at most.
const STEPS: u32 = 10_000_000;

/// So many orders of turns are tried of a short script.
pub(crate) const ORDERS: u32 = 10;

/// A member of a region: its program, the reply to what it did last, and whether that is the last one.
#[derive(Drop)]
struct Member {
    /// Its number, from 0.
    number: u16,
    /// What it does next.
    program: ScriptProgram,
    /// The reply to what it did last.
    last: Reply,
    /// Whether that was the last one.
    over: bool,
}

/// A region that runs, and the place of the member that has forked another one, if one has.
#[derive(Drop)]
struct Region {
    /// The control variables by which it was forked.
    icv: Icv,
    /// Its team.
    team: Team<RingAll>,
    /// The team's members, by their numbers.
    members: Vec<Member>,
    /// The place of the member that has forked another region, if one has.
    forks: usize,
}

/// What a team of a test has.
const MEMBERS: &str = "at most 64 members";

/// How a script ended: what its members added up to, and the first refusal as it is printed, if there was one.
#[derive(Debug, Drop, PartialEq, Eq)]
struct Outcome {
    total: i128,
    refusal: String,
}

/// The members that run these programs, and have done nothing yet.
fn members_of(rt: &impl Abort, alloc: Global, programs: Vec<ScriptProgram>) -> Vec<Member> {
    let mut members = Vec::new(alloc);
    for (number, program) in programs.into_iter().enumerate() {
        let member = Member {
            number: u16::try_from(number).expect(rt, MEMBERS),
            program,
            last: Reply::Finished,
            over: false,
        };
        members.push(member).expect(rt, AMPLE);
    }
    members
}

/// The region of these programs, inside of a team by these control variables.
fn region_of(rt: &impl Abort, alloc: Global, icv: &Icv, programs: Vec<ScriptProgram>) -> Region {
    let members = members_of(rt, alloc, programs);
    let count = u16::try_from(members.len()).expect(rt, MEMBERS);
    let icv = child_icv(icv, count as u32);
    let team: Team<RingAll> = Team::new(alloc, count, icv.copied()).expect(rt, AMPLE);
    Region {
        icv,
        team,
        members,
        forks: 0,
    }
}

impl Region {
    /// Whether all members have left it.
    fn is_over(&self) -> bool {
        self.members.iter().all(|member| member.over)
    }

    /// The member at this place takes its turn, if it goes on. The region that it forks, if it forks one.
    fn take_turn(
        &mut self,
        rt: &impl Abort,
        alloc: Global,
        place: usize,
        refusal: &mut String,
    ) -> Option<Region> {
        let member = self.members.get_mut(place)?;
        if member.over {
            return None;
        }
        match member.program.next(alloc, &member.last).expect(rt, AMPLE) {
            ScriptAct::Do(call) => {
                let reply = self.team.step(member.number, call);
                member.is_told(rt, reply, refusal);
                None
            }
            ScriptAct::Parallel { members } if members > 64 => {
                member.is_told(rt, Reply::Refused(Refusal::BadTeam), refusal);
                None
            }
            ScriptAct::Parallel { members } => {
                self.forks = place;
                let count = u16::try_from(members).expect(rt, MEMBERS);
                let programs = member.program.fork(alloc, count).expect(rt, AMPLE);
                Some(region_of(rt, alloc, &self.icv, programs))
            }
        }
    }

    /// Its members, when the team is no more.
    fn into_members(self) -> Vec<Member> {
        let Region {
            icv,
            team,
            members,
            forks: _,
        } = self;
        drop(icv);
        drop(team);
        members
    }

    /// The member that has forked a region goes on, with what the members of that have added.
    fn join(&mut self, programs: Vec<ScriptProgram>) {
        if let Some(member) = self.members.get_mut(self.forks) {
            member.program.join(programs);
            drop(replace(&mut member.last, Reply::Finished));
        }
    }
}

impl Member {
    /// The member gets the reply to what it did; the first refusal is written down.
    fn is_told(&mut self, rt: &impl Abort, reply: Reply, refusal: &mut String) {
        if let Reply::Refused(why) = &reply
            && refusal.is_empty()
        {
            write!(refusal, "{why}").expect(rt, AMPLE);
        }
        self.over = self.program.is_last(&reply);
        drop(replace(&mut self.last, reply));
    }
}

/// The programs of these members.
fn programs_of(rt: &impl Abort, alloc: Global, members: Vec<Member>) -> Vec<ScriptProgram> {
    let mut programs = Vec::new(alloc);
    for member in members {
        programs.push(program_of(member)).expect(rt, AMPLE);
    }
    programs
}

/// The program of this member.
fn program_of(member: Member) -> ScriptProgram {
    let Member {
        number: _,
        program,
        last,
        over: _,
    } = member;
    drop(last);
    program
}

/// Whose turn a step is, of so many members: in their order, against it, or as by chance, which is the same in each run.
fn place_of(order: u32, step: u32, count: usize) -> usize {
    let number = match order {
        0 | 1 => step,
        _ => {
            let mixed = step.wrapping_add(order).wrapping_mul(2_654_435_769);
            (mixed ^ (mixed >> 15)).wrapping_mul(2_246_822_519) >> 7
        }
    };
    let place = (number as usize).checked_rem(count).unwrap_or(0);
    if order == 1 {
        count.saturating_sub(place).saturating_sub(1)
    } else {
        place
    }
}

/// The innermost region is over: who has forked it goes on, or nobody has, and the script has this total.
fn end_region(rt: &impl Abort, alloc: Global, regions: &mut Vec<Region>, total: &mut i128) {
    let Some(region) = regions.pop() else {
        return;
    };
    let programs = programs_of(rt, alloc, region.into_members());
    match regions.last_mut() {
        Some(outer) => outer.join(programs),
        None => {
            add_totals(programs.as_slice(), total);
            drop(programs);
        }
    }
}

/// Adds what these programs have come to.
fn add_totals(programs: &[ScriptProgram], total: &mut i128) {
    for program in programs {
        *total = total.wrapping_add(program.total());
    }
}

/// The programs of a script as it begins, on a team of the size that it states.
fn first_programs(rt: &impl Abort, alloc: Global, text: &str, icv: &Icv) -> Vec<ScriptProgram> {
    let script = parse_script(alloc, text.as_bytes()).expect(rt, AMPLE);
    let count = match script.team {
        AskedSize::Unstated => team_size(icv, None, true, 1),
        AskedSize::Stated(count) => count,
    };
    let count = u16::try_from(count).expect(rt, "no team has more than 65,535 members");
    let script = Arc::new(alloc, script).expect(rt, AMPLE);
    ScriptProgram::programs(alloc, script, count).expect(rt, AMPLE)
}

/// The regions of a script as it begins: one, inside of a team whose control variables these words set.
fn regions_of(rt: &impl Abort, alloc: Global, text: &str, words: &[(&str, &str)]) -> Vec<Region> {
    let (icv, ignored) = read_env(alloc, words).expect(rt, AMPLE);
    drop(ignored);
    let programs = first_programs(rt, alloc, text, &icv);
    let region = region_of(rt, alloc, &icv, programs);
    drop(icv);
    vec![in alloc; region].expect(rt, AMPLE)
}

/// One step of a script. Whether no region is left.
fn take_step(
    rt: &impl Abort,
    alloc: Global,
    regions: &mut Vec<Region>,
    (order, step): (u32, u32),
    outcome: &mut Outcome,
) -> bool {
    let Some(region) = regions.last_mut() else {
        return true;
    };
    let place = place_of(order, step, region.members.len());
    let inner = region.take_turn(rt, alloc, place, &mut outcome.refusal);
    let over = region.is_over();
    match inner {
        Some(inner) => regions.push(inner).expect(rt, AMPLE),
        None if over => end_region(rt, alloc, regions, &mut outcome.total),
        None => {}
    }
    false
}

/// How a script ends, whose members take their turns in this order.
fn outcome_of(
    rt: &impl Abort,
    alloc: Global,
    text: &str,
    words: &[(&str, &str)],
    order: u32,
) -> Outcome {
    let mut regions = regions_of(rt, alloc, text, words);
    let mut outcome = Outcome {
        total: 0,
        refusal: String::new(alloc),
    };
    for step in 0..STEPS {
        if take_step(rt, alloc, &mut regions, (order, step), &mut outcome) {
            break;
        }
    }
    same(rt, regions.len(), 0, text, order as u64);
    drop(regions);
    outcome
}

/// That a script ends so, whoever takes the next turn, in so many orders.
pub(crate) fn ends_so(
    rt: &impl Abort,
    alloc: Global,
    text: &str,
    words: &[(&str, &str)],
    (total, refusal): (i128, &str),
    orders: u32,
) {
    for order in 0..orders {
        let found = outcome_of(rt, alloc, text, words, order);
        let refusal = String::from_str(alloc, refusal).expect(rt, AMPLE);
        same(rt, found, Outcome { total, refusal }, text, order as u64);
    }
}
