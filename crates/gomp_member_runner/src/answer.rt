//! From a text of steps to the text of the members' replies.

use crate::members::{Blanks, replies_of};
use gomp_icv::Icv;
use gomp_script::{ParseError, parse_steps, print_bad_line, print_refusal, print_replies};
use gomp_service::answer::{Answer, status_of, team_size};
use gomp_types::{MAX_MEMBERS, Refusal, Step};
use std::alloc::{AllocError, Global};
use std::marker::Brand;
use std::sync::Wait;
use std::sync::ledger::Blank;

/// The parts of a ledger: one for each member that a team may have, and one more.
const PARTS: u64 = MAX_MEMBERS as u64 + 1;

/// The replies of the members of a new team to a text of steps, a line for each, or why the text or its team is refused. The error is
/// want of memory outside of the steps.
pub(crate) fn answer_text<R: Wait>(
    rt: &R,
    alloc: Global,
    icv: Icv,
    text: &[u8],
) -> Result<Answer, AllocError> {
    match parse_steps(alloc, text) {
        Ok((count, steps)) => answer_team(rt, alloc, icv, team_size(count), steps),
        Err(ParseError::Bad(bad)) => Ok(Answer {
            text: print_bad_line(alloc, &bad)?,
            code: 1,
        }),
        Err(ParseError::Memory) => Err(AllocError),
    }
}

/// The same of these steps of a team of this size.
fn answer_team<R: Wait>(
    rt: &R,
    alloc: Global,
    icv: Icv,
    size: u16,
    steps: Vec<Step>,
) -> Result<Answer, AllocError> {
    let blanks = Blanks {
        events: Blank::new(PARTS),
        held: Blank::new(PARTS),
        freed: Blank::new(PARTS),
    };
    match replies_of::<Brand, Brand, Brand, R>(rt, alloc, size, icv, steps, blanks)? {
        Some(replies) => Ok(Answer {
            text: print_replies(alloc, replies.as_slice())?,
            code: status_of(replies.as_slice()),
        }),
        None => Ok(Answer {
            text: print_refusal(alloc, &Refusal::BadTeam)?,
            code: 2,
        }),
    }
}
