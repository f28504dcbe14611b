//! A talk with teams, line by line.

ghost use Rattle.std.specs.Prelude.{◌≡◌, []};
ghost use Rattle.gomp_live.specs.Stands.{TalkStands, AnswersLine, BeginsTeam, MakesStep, book_of};

use gomp_core::Team;
use gomp_icv::Icv;
use gomp_locks::LockBook;
use gomp_script::{
    BadLine, LineError, LiveLine, parse_live_line, print_bad_line, print_refusal, print_reply,
};
use gomp_service::answer::team_size;
use gomp_shares::Shares;
use gomp_types::{Refusal, Step, is_team_size};
use std::alloc::{AllocError, Global};
use std::marker::Model;

/// What a talk has come to: the number of its next line, and the team that stands.
///
/// Every team has the same control variables, and its work-shares are kept by `S`.
#[derive(Drop)]
pub struct Talk<S: Shares> {
    icv: Icv,
    number: u64,
    team: Option<Team<S>>,
}

impl<S: Shares> Model for Talk<S> {
    ghost use Rattle.std.specs.Coded.{codes};
    ghost use Rattle.gomp_board.specs.contracts.board.Board.{the_row as board_row};
    ghost use Rattle.gomp_live.specs.Stands.{TalkView};

    ghost Value = { TalkView S };

    ghost coded = { Prim.hlevel (codes, S.code, board_row.coded) };

    ghost view = { λ t. record { icv = t.icv; number = t.number; team = t.team } };
}

impl<S: Shares + Drop> Talk<S> {
    /// A talk of which no line was said yet, so that no team stands.
    pub fn new(icv: Icv) -> Talk<S>
        ensures icv { result.icv ≡ icv }
        ensures stands { TalkStands S.stands S.members result [] [] }
    {
        Talk {
            icv,
            number: 1,
            team: None,
        }
    }

    /// The answer to the next line, which has no line feed: the one that the lines before it leave.
    /// A line that is skipped has an empty one.
    ///
    /// The error is want of memory outside of a step: for the items of a line, whose step is then not
    /// made, for a new team, or for the text of an answer. The talk should end with it.
    pub fn answer(&mut self, alloc: Global, line: &[u8]) -> Result<String, AllocError>
        ensures icv { self.new.icv ≡ self.old.icv }
        ensures answer { AnswersLine S.stands S.members line.now self.old self.new result }
    {
        let number = self.number;
        self.number = number.saturating_add(1);
        match parse_live_line(alloc, line, self.team.is_some()) {
            Ok(Some(LiveLine::NewTeam(count))) => {
                begin_team(alloc, self.icv.copied(), &mut self.team, count)
            }
            Ok(Some(LiveLine::NextStep(step))) => match &mut self.team {
                Some(team) => step_team(alloc, team, step),
                None => unreachable!(),
            },
            Ok(None) => Ok(String::new(alloc)),
            Err(LineError::Fault(why)) => print_bad_line(alloc, &BadLine { line: number, why }),
            Err(LineError::NoMemory) => Err(AllocError),
        }
    }
}

/// Puts a new team of this size in the place of the one that stands, and hands it the locks that were
/// made, which nobody holds then; a size that no team may have leaves the one that stands. Says
/// which.
fn begin_team<S: Shares + Drop>(
    alloc: Global,
    icv: Icv,
    team: &mut Option<Team<S>>,
    count: u32,
) -> Result<String, AllocError>
    ensures { BeginsTeam (record { stands = S.stands; members = S.members }) icv count team.old
        team.new result }
{
    let size = team_size(count);
    if !is_team_size(size) {
        return print_refusal(alloc, &Refusal::BadTeam);
    }
    let book = book_of(alloc, team.take());
    let Ok(new_team) = Team::with_book(alloc, size, icv, book) else {
        return Err(AllocError);
    };
    *team = Some(new_team);
    String::from_str(alloc, "ok\n")
}

/// The book of names and locks of a team that ends; a new one if there was no team.
fn book_of<S: Shares + Drop>(alloc: Global, team: Option<Team<S>>) -> LockBook
    ensures { result ≡ book_of team }
{
    match team {
        Some(old) => old.into_book(),
        None => LockBook::new(alloc),
    }
}

/// The line of the reply to a step.
fn step_team<S: Shares>(alloc: Global, team: &mut Team<S>, step: Step) -> Result<String, AllocError>
    ensures { MakesStep S.stands S.members step team.old team.new result }
{
    let reply = team.step(step.member, step.call);
    let mut answer = String::new(alloc);
    print_reply(&reply, &mut answer)?;
    Ok(answer)
}
