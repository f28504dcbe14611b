//! Whose turn it is, the caller's or its worker's.
//!
//! It is a hint alone, so that a thread knows when to look at the line and may sleep until then. What
//! the line hands over stands on nothing here.

ghost use Rattle.std.specs.Prelude.{◌≡◌, ◌≢◌};

use std::sync::Wait;
use std::sync::atomic::{AtomicU64, Ordering};
use std::{hint, thread};

/// How often a waiting thread looks before it lets others run in between.
const SPINS: u32 = 2_000;

/// How often it then looks, with others in between, before it sleeps.
const YIELDS: u32 = 50;

/// Who has something to do.
#[derive(Clone, Copy, PartialEq, Eq, Drop)]
pub enum Side {
    /// The caller: the worker has done its job, or has none.
    Caller,
    /// The worker: it has a job.
    Worker,
    /// The worker: it ends.
    End,
}

/// The number of a side in the word. (own)
fn number_of(side: Side) -> u32 {
    match side {
        Side::Caller => 0,
        Side::Worker => 1,
        Side::End => 2,
    }
}

/// Whose turn it is, and how many sleep until it changes.
#[derive(Drop)]
pub struct Turn {
    /// The number of the side.
    word: AtomicU64,
    /// How many threads sleep, or are about to: whoever changes the word wakes none if it is 0.
    sleepers: AtomicU64,
}

impl Turn {
    /// The caller's turn.
    pub fn new() -> Turn {
        Turn {
            word: AtomicU64::new(u64::from(number_of(Side::Caller))),
            sleepers: AtomicU64::new(0),
        }
    }

    /// Whose turn it is now.
    fn side(&self) -> Side {
        match self.word.load(Ordering::SeqCst) {
            0 => Side::Caller,
            1 => Side::Worker,
            _ => Side::End,
        }
    }

    /// Gives the turn to `side`, and wakes who sleeps until then.
    pub fn give_to(&self, side: Side) {
        self.word
            .store(u64::from(number_of(side)), Ordering::SeqCst);
        if self.sleepers.load(Ordering::SeqCst) != 0 {
            self.word.wake_all();
        }
    }

    /// Waits while it is the turn of `side`, and answers whose it is then. It looks 2,000 times without
    /// a pause, then lets other threads run in between, then sleeps.
    pub fn wait_while<R: Wait>(&self, rt: &R, side: Side) -> Side
        ensures other { result ≢ side }
    {
        for look in 0..SPINS + YIELDS {
            let found = self.side();
            if found != side {
                return found;
            }
            if look < SPINS {
                hint::spin_loop();
            } else {
                thread::yield_now();
            }
        }
        self.sleep_while(rt, side)
    }

    /// Sleeps while it is the turn of `side`, and answers whose it is then.
    fn sleep_while<R: Wait>(&self, rt: &R, side: Side) -> Side
        ensures other { result ≢ side }
    {
        self.sleepers.fetch_add(1, Ordering::SeqCst);
        for _ in rt.forever() {
            let found = self.side();
            if found != side {
                self.sleepers.fetch_sub(1, Ordering::SeqCst);
                return found;
            }
            self.word.park(rt, number_of(side));
        }
        unreachable!()
    }
}
