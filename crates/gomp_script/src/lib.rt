//! The texts of `ompteam`: reading the text of steps, and printing replies.
//!
//! [`parse_steps`] reads exactly the texts that `StepText.antt` defines, and tells of any other the
//! first bad line and its first fault; [`print_replies`] is the table of replies, byte for byte.
#![tactic(auto)]

mod live;
mod parse;
mod print;

pub use live::{LiveLine, parse_live_line};
pub use parse::{BadLine, LineError, ParseError, TeamLine, Why, parse_steps};
// The parts of a text, for who answers each line as it is read.
pub use parse::{first_fault, next_member, parse_team, read_step};
// The parts of a line, for crates that read lines of other texts.
pub use parse::{
    behind_items, cancel_kind_of, count_of, critical_name_of, end_of, finish, first_word, items_of,
    member_of, number_of, ordered_of, sched_of, take_option, take_word, test_items,
};
pub use print::{print_bad_line, print_refusal, print_replies, print_reply};
