//! A reply as numbers.

ghost use Rattle.std.specs.Prelude.{◌≡◌, ◌≤◌, length, get_or};
ghost use Rattle.gomp_words.specs.Replies.{numbers_of, padded, IsTellable};
ghost use Rattle.gomp_types.specs.declared.reply.Reply.TheVariants.{Copied, Refused};

use gomp_types::{MAX_WORDS, Payload, Place, Refusal, Reply};
use std::mem::size_of;

/// A reply as numbers.
#[derive(Clone, Copy, Debug, PartialEq, Eq)]
#[repr(C)]
pub struct Numbers {
    /// The number of its kind: 10 to 28. Lower ones are those of no reply.
    pub kind: u64,
    /// How many of the words it has, 0 to 8.
    pub count: u64,
    /// What it says beside its kind; zeros behind these words.
    pub words: [u64; MAX_WORDS],
}

// A program in C declares the same ten numbers.
const _: () = prove!(size_of::<Numbers>() == 80);

/// The numbers of a reply, as the table of the README has them.
///
/// It is inlined, so that a reply which was just made is told from registers.
#[inline(always)]
pub fn numbers_of(reply: &Reply) -> Numbers
    ensures numbers { result ≡ numbers_of reply.now }
    ensures tellable { IsTellable reply.now }
{
    match reply {
        Reply::Chunk { first, count } => few(10, 2, [first.cast_unsigned(), *count, 0, 0]),
        Reply::NoChunk => few(11, 0, [0, 0, 0, 0]),
        Reply::Section(number) => few(12, 1, [*number, 0, 0, 0]),
        Reply::Executor(yes) => few(13, 1, [u64::from(*yes), 0, 0, 0]),
        Reply::Copied(payload) => copied(payload),
        Reply::Finished => few(15, 0, [0, 0, 0, 0]),
        Reply::Passed => few(16, 0, [0, 0, 0, 0]),
        Reply::Cancelled => few(17, 0, [0, 0, 0, 0]),
        Reply::Wait => few(18, 0, [0, 0, 0, 0]),
        Reply::Created(task) => few(19, 1, [u64::from(*task), 0, 0, 0]),
        Reply::Dropped => few(20, 0, [0, 0, 0, 0]),
        Reply::Cancelling(yes) => few(21, 1, [u64::from(*yes), 0, 0, 0]),
        Reply::Run {
            task,
            code,
            arg,
            own,
        } => few(22, 4, [u64::from(*task), *code, *arg, u64::from(*own)]),
        Reply::TaskDone { task, waiting } => few(
            23,
            2,
            [u64::from(*task), u64::from(*waiting), 0, 0],
        ),
        Reply::Lock(number) => few(24, 1, [u64::from(*number), 0, 0, 0]),
        Reply::Got(yes) => few(25, 1, [u64::from(*yes), 0, 0, 0]),
        Reply::Count(count) => few(26, 1, [u64::from(*count), 0, 0, 0]),
        Reply::Stopped => few(27, 0, [0, 0, 0, 0]),
        Reply::Refused(refusal) => refused(refusal),
    }
}

/// A reply of this kind with the first words of these.
fn few(kind: u64, count: u64, words: [u64; 4]) -> Numbers
    ensures { result ≡ record { kind = kind; count = count; words = padded words } }
{
    let [first, second, third, fourth] = words;
    Numbers {
        kind,
        count,
        words: [first, second, third, fourth, 0, 0, 0, 0],
    }
}

/// The words that the executor of a `single` put.
///
/// They are read one after another: a copy of as many as there are is made in memory, and the numbers
/// of all other replies would lie there with them, and be copied from place to place.
fn copied(payload: &Payload) -> Numbers
    ensures numbers { result ≡ numbers_of (Copied payload.now) }
    ensures few { length payload.now ≤ MAX_WORDS }
{
    let words = payload.as_slice();
    Numbers {
        kind: 14,
        count: words.len() as u64,
        words: [
            word_at(words, 0),
            word_at(words, 1),
            word_at(words, 2),
            word_at(words, 3),
            word_at(words, 4),
            word_at(words, 5),
            word_at(words, 6),
            word_at(words, 7),
        ],
    }
}

/// The word there, numbered from 0; 0 behind the last one.
fn word_at(words: &[u64], at: usize) -> u64
    ensures { result ≡ get_or words.now at 0 }
{
    match words.get(at) {
        Some(word) => *word,
        None => 0,
    }
}

/// A refusal by its number; of a broken team the member that broke it, and where: 0 with the number of
/// a share, 1 with that of a barrier, 2 if it was stopped.
fn refused(refusal: &Refusal) -> Numbers
    ensures { result ≡ numbers_of (Refused refusal.now) }
{
    let number = u64::from(refusal.number());
    let Refusal::Broken(clash) = refusal else {
        return few(28, 1, [number, 0, 0, 0]);
    };
    let member = u64::from(clash.member);
    match clash.place {
        Place::Share(share) => few(28, 4, [number, member, 0, share]),
        Place::Barrier(barrier) => few(28, 4, [number, member, 1, barrier]),
        Place::Stopped => few(28, 3, [number, member, 2, 0]),
    }
}
