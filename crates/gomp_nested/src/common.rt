//! What the teams of a runtime share.

ghost use Rattle.std.specs.Prelude.{◌≡◌, ◌<◌, IfErr, IfOk, IfSome};
ghost use Rattle.gomp_locks.specs.Book.{open_holds};
ghost use Rattle.gomp_locks.specs.Order.{IsInOrder};
ghost use Rattle.gomp_team_book.specs.Balance.{IsBalanced};
ghost use Rattle.gomp_team_book.specs.Parts.{new_book_part};
ghost use Rattle.gomp_nested.specs.Ledgers.{IsLedger};

use crate::pool::{BookPool, TEAM_BOOK_PARTS, TeamParts};
use gomp_locks::LockBook;
use gomp_team_book::{HoldLedger, LockedBook};
use gomp_team_region::BookShare;
use std::alloc::Global;
use std::sync::atomic::{AtomicU64, Ordering};
use std::sync::ledger::{Blank, Ledger};
use std::sync::{Arc, Mutex, Wait};

/// The number of the first nested region. Outermost regions have those below it.
pub const FIRST_NESTED: u32 = 1 << 31;

/// How many nested teams could be open at once: one for each member of an outermost one, one for each of theirs,
/// and one for each of these. One fewer has parts, since one stays in the pool.
const NESTED_TEAMS: u64 = 266304;

/// The parts of each ledger of the book: 129 for the outermost team, and as many for each nested one.
pub const BOOK_PARTS: u64 = TEAM_BOOK_PARTS * (NESTED_TEAMS + 1);

/// What the teams of a runtime share: the book of critical names and locks, and the numbers of nested regions.
#[derive(Drop)]
pub struct Common<H: HoldLedger, F: Ledger> {
    /// Where their memory comes from.
    pub alloc: Global,
    /// The book, with parts of its ledgers for teams.
    pool: Mutex<BookPool<H, F>>,
    /// How many nested regions had a number.
    nested: AtomicU64,
}

/// The book of critical names and locks of a runtime that has no region open.
#[derive(Drop)]
pub struct ClosedBook {
    /// The book.
    pub book: LockBook,
    /// How many nested regions had a number: the next one has another, so it is no owner of what they hold yet.
    pub nested: u64,
}

/// What the teams of a runtime share, and the book with the parts of its outermost team.
#[derive(Drop)]
pub struct OpenBook<H: HoldLedger, F: Ledger> {
    /// What the teams share.
    pub common: Arc<Common<H, F>>,
    /// The book, with 129 parts of each ledger.
    pub share: BookShare<H, F>,
}

impl<H: HoldLedger, F: Ledger> OpenBook<H, F> {
    /// Puts the book under its lock. Its ledgers are opened by these blanks, each with [`BOOK_PARTS`] parts. The
    /// error is want of memory: the book as it was, unless another thread has it, which cannot be.
    pub fn new(
        alloc: Global,
        closed: ClosedBook,
        held: Blank,
        freed: Blank,
    ) -> Result<OpenBook<H, F>, Option<ClosedBook>>
        requires held { IsLedger H.name H.parts 34353345 held.name held.parts }
        requires freed { IsLedger F.name F.parts 34353345 freed.name freed.parts }
        requires before { open_holds closed.book ≡ H.before }
        requires order { IsInOrder closed.book }
        ensures held { IfOk result (λ opened. opened.share.held ≡ new_book_part 129) }
        ensures freed { IfOk result (λ opened. opened.share.freed ≡ new_book_part 129) }
        ensures order { IfErr result (λ back. IfSome back (λ closed. IsInOrder closed.book)) }
    {
        let ClosedBook { book, nested } = closed;
        let (book, mut held, mut freed) = LockedBook::<H, F>::new(book, held, freed);
        let book = match Arc::new(alloc, Mutex::new(book)) {
            Ok(book) => book,
            Err(failed) => {
                let book = failed.value.into_inner().into_book();
                return Err(Some(ClosedBook { book, nested }));
            }
        };
        let Ok(own) = Arc::try_clone(&book) else {
            return Err(closed_of(book, nested));
        };
        let share = BookShare {
            book: own,
            held: held.split(TEAM_BOOK_PARTS),
            freed: freed.split(TEAM_BOOK_PARTS),
        };
        let rest = BookShare { book, held, freed };
        let pool = BookPool::new(rest, BOOK_PARTS - TEAM_BOOK_PARTS);
        match Arc::new(alloc, Common::new(alloc, pool, nested)) {
            Ok(common) => Ok(OpenBook { common, share }),
            Err(failed) => {
                drop(failed);
                Err(closed_of(share.book, nested))
            }
        }
    }

    /// The book, as the teams left it: what they hold of it yet stays held. As many holds are open as before, with what was held since
    /// and without what was freed, as it is counted on the parts of the outermost team. None if another thread has the book still, or
    /// parts of its ledgers, which cannot be once all have returned.
    pub fn close(self) -> Option<ClosedBook>
        requires held { self.share.held.parts ≡ 129 }
        requires freed { self.share.freed.parts ≡ 129 }
        requires whole { (H.parts ≡ 34353345) × (F.parts ≡ 34353345) }
        ensures order { IfSome result (λ closed. IsInOrder closed.book) }
        ensures balanced { IfSome result (λ closed. IsBalanced H.before
            self.share.held.amount self.share.freed.amount closed.book) }
    {
        let OpenBook { common, share } = self;
        let nested = common.nested.load(Ordering::SeqCst);
        let Common { pool, .. } = Arc::into_inner(common)?;
        let BookShare { book, held, freed } = share;
        let pool = pool.into_inner();
        let (mut held, mut freed) = pool.into_whole(BOOK_PARTS - TEAM_BOOK_PARTS, held, freed)?;
        let mut locked = Arc::into_inner(book)?.into_inner();
        locked.audit(&mut held, &mut freed);
        let book = locked.into_book();
        Some(ClosedBook { book, nested })
    }
}

/// The book of whoever has it alone, when so many nested regions had a number.
fn closed_of<H: HoldLedger, F: Ledger>(
    book: Arc<Mutex<LockedBook<H, F>>, Global>,
    nested: u64,
) -> Option<ClosedBook>
    ensures order { IfSome result (λ closed. IsInOrder closed.book) }
    ensures nested { IfSome result (λ closed. closed.nested ≡ nested) }
{
    let locked = Arc::into_inner(book)?;
    let book = locked.into_inner().into_book();
    Some(ClosedBook { book, nested })
}

impl<H: HoldLedger, F: Ledger> Common<H, F> {
    /// Of this pool; so many nested regions had a number.
    fn new(alloc: Global, pool: BookPool<H, F>, nested: u64) -> Common<H, F> {
        Common {
            alloc,
            pool: Mutex::new(pool),
            nested: AtomicU64::new(nested),
        }
    }

    /// The number of the next nested region: from 2^31. None after 2^31 of them.
    pub(crate) fn take_number(&self) -> Option<u32>
        ensures above { IfSome result (λ number. 2147483647 < number) }
    {
        let nested = self.nested.fetch_add(1, Ordering::SeqCst);
        if nested >= FIRST_NESTED as u64 {
            return None;
        }
        Some(FIRST_NESTED + nested as u32)
    }

    /// The book with parts for a team. None if there are none, or if memory is refused.
    pub(crate) fn take<R: Wait>(&self, rt: &R) -> Option<TeamParts<H, F>>
        ensures held { IfSome result (λ parts. parts.held ≡ new_book_part 129) }
        ensures freed { IfSome result (λ parts. parts.freed ≡ new_book_part 129) }
    {
        let mut pool = self.pool.lock(rt);
        pool.take()
    }

    /// Takes the parts of a team back, all of them, when nothing is counted on them any more. Of the pool no more is known before
    /// and behind its lock than that nothing is counted on its parts.
    pub(crate) fn put<R: Wait>(&self, rt: &R, parts: TeamParts<H, F>)
        requires held { parts.held ≡ new_book_part 129 }
        requires freed { parts.freed ≡ new_book_part 129 }
    {
        let mut pool = self.pool.lock(rt);
        pool.put(parts);
    }
}
