//! What an engine answers of its own, beside the replies of its team.

ghost use Rattle.std.specs.Prelude.{◌≡◌};
ghost use Rattle.gomp_engine.specs.Answers.{bare, own_numbers};

use gomp_words::Numbers;

/// An answer that is no reply of a team. Its kind lies below those of replies, which are 10 to 28.
#[derive(Clone, Copy, Debug, PartialEq, Eq)]
pub enum OwnAnswer {
    /// 0: the words are no call.
    NoCall,
    /// 1: no team stands.
    NoTeam,
    /// 2: the member's number is above 65,535, so that no team has it.
    NoMember,
    /// 3: memory for the items of a `depend` clause was refused, and the step was not made.
    NoMemory,
    /// 4: the new team stands.
    NewTeam,
    /// 5: this byte stands there in the name.
    NameByte(u8),
    /// 6: the name has no byte of this number.
    NameEnd,
    /// 7: no setting of this number was ignored.
    NotIgnored,
}

/// The numbers of such an answer.
pub fn own_numbers(answer: OwnAnswer) -> Numbers
    ensures { result ≡ own_numbers answer }
{
    match answer {
        OwnAnswer::NoCall => bare(0),
        OwnAnswer::NoTeam => bare(1),
        OwnAnswer::NoMember => bare(2),
        OwnAnswer::NoMemory => bare(3),
        OwnAnswer::NewTeam => bare(4),
        OwnAnswer::NameByte(byte) => Numbers {
            kind: 5,
            count: 1,
            words: [u64::from(byte), 0, 0, 0, 0, 0, 0, 0],
        },
        OwnAnswer::NameEnd => bare(6),
        OwnAnswer::NotIgnored => bare(7),
    }
}

/// An answer of this kind without words.
fn bare(kind: u64) -> Numbers
    ensures { result ≡ bare kind }
{
    Numbers {
        kind,
        count: 0,
        words: [0; 8],
    }
}
