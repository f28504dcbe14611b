//! The words of a team's calls and replies, and what follows from them alone.
//!
//! Every crate above speaks in these types; what happens in a team is in gomp_events. The definitions are in `specs/`, and `proofs/Laws.antt`
//! names what is proved of them.
#![tactic(auto)]

pub mod call;
pub mod cancel;
mod copy;
pub mod critical_name;
pub mod depend;
pub mod key;
pub mod limits;
pub mod lock;
pub mod loop_desc;
pub mod name;
pub mod payload;
pub mod refusal;
pub mod reply;
pub mod resume;
pub mod sections;
pub mod shape;
pub mod single;
pub mod task;

pub use call::{Call, Server, Step};
pub use cancel::{CancelKind, Scope};
pub use critical_name::{CriticalName, MAX_NAME};
pub use depend::{Dep, DepKind, Deps};
pub use key::Key;
pub use limits::{
    Limits, MAX_CHUNK, MAX_DEPENDS, MAX_MEMBERS, MAX_SECTIONS, MAX_TASK_DEPTH, MAX_TRIPS,
    OPEN_SHARES, is_team_size,
};
pub use lock::{Held, LockKind, MAX_COUNT, MAX_LOCKS};
pub use loop_desc::{EndKind, LoopDesc, Sched, trips};
pub use name::Name;
pub use payload::{MAX_WORDS, Payload};
pub use refusal::{Clash, Place, Refusal};
pub use reply::Reply;
pub use resume::{call_meant, into_call_meant};
pub use sections::sections_shape;
pub use shape::{Shape, ShareKind};
pub use single::single_shape;
pub use task::{Owner, Task, TaskDesc};
