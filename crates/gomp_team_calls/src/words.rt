//! The words of a `single` construct with a `copyprivate` clause, put by its executor.
//!
//! OpenMP API 5.2, section 5.7.2; libgomp's `GOMP_single_copy_end`.

ghost use Rattle.std.specs.Prelude.{◌≡◌};
ghost use Rattle.gomp_board.specs.declared.op.Op.TheVariants.{Put};

use gomp_board::Op;
use gomp_types::Payload;

/// The operation that puts these words in this share.
pub fn put(share: u64, words: &Payload) -> Op
    ensures { result ≡ Put share words.now }
{
    Op::Put {
        share,
        words: words.copied(),
    }
}
