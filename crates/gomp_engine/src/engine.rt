//! An engine: the teams that follow one another in a program's process, of which one stands.

ghost use Rattle.std.specs.Prelude.{◌≡◌, Some, min, slice_get};
ghost use Rattle.gomp_engine.specs.Answers.{name_byte};
ghost use Rattle.gomp_engine.specs.Engines.{NewTeamAnswered, Opens, StepAnswered, Stepped, TeamAnswered, locks_left};
ghost use Rattle.gomp_core.specs.LocksMade.{lock_kinds_of};

use crate::answer::{OwnAnswer, own_numbers};
use crate::call::{EngineCall, read_engine_call};
use crate::settings::read_lines;
use gomp_core::Team;
use gomp_icv::Icv;
use gomp_locks::LockBook;
use gomp_share_ring::RingAll;
use gomp_types::{Refusal, Reply, Step, is_team_size};
use gomp_words::{Numbers, StepRead, numbers_of};
use std::alloc::Global;

/// The control variables of a program, and the team that stands. All its teams have the same
/// variables, and each new one has the locks of the one before it.
#[derive(Drop)]
pub struct Engine {
    /// What its calls take memory of.
    pub alloc: Global,
    /// The control variables of its teams.
    pub icv: Icv,
    /// A refusal for each setting that was ignored, in their order.
    pub ignored: Vec<Refusal>,
    /// The team that stands, if one does.
    pub team: Option<Team<RingAll>>,
}

/// Why no engine is opened.
#[derive(Clone, Copy, Debug, PartialEq, Eq)]
pub enum OpenError {
    /// The settings are no text in UTF-8.
    NotUtf8,
    /// Memory was refused.
    NoMemory,
}

impl Engine {
    /// An engine in which no team stands yet, by these settings: a text in UTF-8 of lines NAME=VALUE,
    /// as words of the environment are.
    pub fn open(alloc: Global, settings: &[u8]) -> Result<Engine, OpenError>
        ensures { Opens settings.now result }
    {
        let Ok(text) = str::from_utf8(settings) else {
            return Err(OpenError::NotUtf8);
        };
        match read_lines(alloc, text) {
            Ok((icv, ignored)) => Ok(Engine {
                alloc,
                icv,
                ignored,
                team: None,
            }),
            Err(_) => Err(OpenError::NoMemory),
        }
    }

    /// Answers what these words ask: the reply of the team that stands to a step, as numbers, or an
    /// answer of the engine's own.
    ///
    /// A new team takes the place of the one that stands, and gets its locks, which nobody holds then;
    /// a size that no team may have changes nothing (`BadTeam`, E38), and if memory for it is refused
    /// (`NoMemory`, E37), no team stands.
    #[inline(always)]
    pub fn step(&mut self, words: &[u64]) -> Numbers
        ensures { Stepped self.old self.new words.now result }
    {
        match read_engine_call(self.alloc, words) {
            Ok(EngineCall::NewTeam(size)) => self.begin_team(size),
            Ok(EngineCall::NameByte { setting, byte }) => own_numbers(self.name_byte(
                setting, byte,
            )),
            Ok(EngineCall::TeamStep(StepRead::Step(step))) => self.team_step(step),
            Ok(EngineCall::TeamStep(StepRead::NoMember)) => own_numbers(OwnAnswer::NoMember),
            Ok(EngineCall::TeamStep(StepRead::NoCall)) => own_numbers(OwnAnswer::NoCall),
            Err(_) => own_numbers(OwnAnswer::NoMemory),
        }
    }

    /// Answers a call for a new team of this size.
    fn begin_team(&mut self, size: u64) -> Numbers
        ensures { NewTeamAnswered self.old self.new size result }
    {
        // Bound first: what a call out of line writes lies in memory, and the answer to each step
        // would lie there with it.
        let answer = self.new_team(size);
        answer
    }

    /// Puts a new team of this size in the place of the one that stands.
    #[cold]
    fn new_team(&mut self, size: u64) -> Numbers
        ensures { NewTeamAnswered self.old self.new size result }
    {
        let size = member_count(size);
        if !is_team_size(size) {
            return numbers_of(&Reply::Refused(Refusal::BadTeam));
        }
        let book = book_left(self.alloc, self.team.take());
        match Team::with_book(self.alloc, size, self.icv.copied(), book) {
            Ok(team) => {
                self.team = Some(team);
                own_numbers(OwnAnswer::NewTeam)
            }
            Err(_) => numbers_of(&Reply::Refused(Refusal::NoMemory)),
        }
    }

    /// A byte of the name of an ignored setting.
    #[cold]
    fn name_byte(&self, setting: u64, byte: u64) -> OwnAnswer
        ensures { result ≡ name_byte (slice_get self.now.ignored.items setting) byte }
    {
        match self.ignored.as_slice().get(setting as usize) {
            Some(refusal) => byte_of(refusal, byte),
            None => OwnAnswer::NotIgnored,
        }
    }

    /// Makes a step of the team that stands.
    fn team_step(&mut self, step: Step) -> Numbers
        ensures { StepAnswered self.old self.new step self.old.team result }
    {
        match &mut self.team {
            Some(team) => reply_numbers(team, step),
            None => own_numbers(OwnAnswer::NoTeam),
        }
    }
}

/// The number of members as a `u16`: one above the largest `u16` becomes that, since no team may have
/// either.
fn member_count(size: u64) -> u16
    ensures { result ≡ min size 65535 }
{
    u16::try_from(size).unwrap_or(u16::MAX)
}

/// The team's reply to a step, as numbers.
fn reply_numbers(team: &mut Team<RingAll>, step: Step) -> Numbers
    ensures { TeamAnswered team.old team.new step result }
{
    let reply = team.step(step.member, step.call);
    numbers_of(&reply)
}

/// The book of names and locks of a team that ends; a new one if there was no team.
fn book_left(alloc: Global, team: Option<Team<RingAll>>) -> LockBook
    ensures { lock_kinds_of result.locks ≡ locks_left team }
{
    match team {
        Some(old) => old.into_book(),
        None => LockBook::new(alloc),
    }
}

/// A byte of the name of this ignored setting.
fn byte_of(setting: &Refusal, byte: u64) -> OwnAnswer
    ensures { result ≡ name_byte (Some setting.now) byte }
{
    let Refusal::BadEnv(name) = setting else {
        return OwnAnswer::NameEnd;
    };
    match name.as_str().as_bytes().get(byte as usize) {
        Some(byte) => OwnAnswer::NameByte(*byte),
        None => OwnAnswer::NameEnd,
    }
}
