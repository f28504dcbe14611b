//! A team of OpenMP members, as one state machine that is handed their steps.
//!
//! [`Team::step`] answers one call of one member; [`run`] makes a team and answers a list of steps.
//! A team is made with the control variables of its members, from which runtime loops take their
//! schedule, and any member may stop it. A team is generic in the body of its work-shares. Its
//! parts are answered for by `gomp_dispatch`: the shares, and the board of `gomp_board` with the tasks,
//! groups and barriers and the words of singles; each stands for all of the team's events. Its
//! critical names and locks lie in the book of `gomp_locks`, which `gomp_book_calls` asks. The calls that
//! wait, and those at which tasks were started, are kept here ([`waits`]).
//!
//! A step is refused by the least of its layers' refusals, before anything changes; else its call
//! is answered. What a call is tested for, answered and gives is its row (`row_of` in
//! specs/Calls.antt of gomp_model); no definition or proof here lists the calls.
#![tactic(auto)]

pub mod reply;
pub mod steps;
pub mod team;
pub mod waits;

pub use steps::run;
pub use team::Team;
