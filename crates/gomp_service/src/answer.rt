//! What a service answers to a text: the size of its team, and the exit status.

ghost use Rattle.std.specs.Prelude.{◌≡◌, min};
ghost use Rattle.gomp_service.specs.Statuses.{lacks, status_of};

use gomp_types::{Refusal, Reply};

/// What is written for a text, and the exit status.
#[derive(Drop)]
pub struct Answer {
    /// The lines that are written.
    pub text: String,
    /// 0 if the steps were answered, 3 if one of them with want of memory (E37); 1 if a line is bad,
    /// 2 if there is no such team.
    pub code: u8,
}

/// The number of members as a `u16`: one above the largest `u16` becomes that, since no team may have
/// either.
pub fn team_size(count: u32) -> u16
    ensures { result ≡ min count 65535 }
{
    u16::try_from(count).unwrap_or(u16::MAX)
}

/// The exit status after these replies: 3 if one of them is want of memory, else 0.
pub fn status_of(replies: &[Reply]) -> u8
    ensures { result ≡ status_of replies.now }
{
    for reply in replies {
        if lacks(reply) {
            return 3;
        }
    }
    0
}

/// Whether a reply is want of memory (E37).
pub fn lacks(reply: &Reply) -> bool
    ensures { result ≡ lacks reply.now }
{
    matches!(reply, Reply::Refused(Refusal::NoMemory))
}
