//! The words of the work-shares of a team on threads: eight slots, and the single steps that a seat makes on their words.
//!
//! Share `i` is in slot `i % 8`: a member opens it there once all members have left share `i - 8`. What a step tells is a fact of
//! lists of events: there is one list that keeps the rule of the work-shares (`gomp_shares`) and of which the seat knows the part of
//! its members. OpenMP API 5.2, chapter 11.
#![tactic(auto)]

mod claims;
mod leaving;
pub mod new_table;
mod opening;
mod seats;
mod singles;
mod slots;
mod turns;
mod view;

pub use claims::{take_assigned, take_ticket, take_ticket_at};
pub use leaving::{ask_cancelled, cancel_share, leave_share, see_cancelled};
pub use opening::{Delay, Entry, has_same_words, look_at_next, open_next};
pub use seats::{join_seats, settle, split_seat};
pub use singles::{Passage, pass_again, pass_single, passed_by_all};
pub use slots::{Chosen, Slots, SlotsRule, gate_index};
pub use turns::{begin_part, end_part, hand_on};
pub use view::{TeamSize, View};
