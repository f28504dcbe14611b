//! Which replies say that something was held or freed.

ghost use Rattle.std.specs.Prelude.{◌≡◌};
ghost use Rattle.gomp_team_book.specs.Replies.{one_if_finished, one_if_got, one_if_counted, one_if_set};

use gomp_types::Reply;

/// One if the call has done what it is for.
pub(crate) fn one_if_finished(reply: &Reply) -> u64
    ensures { result ≡ one_if_finished reply.now }
{
    match reply {
        Reply::Finished => 1,
        _ => 0,
    }
}

/// One if the test got the lock.
pub(crate) fn one_if_got(reply: &Reply) -> u64
    ensures { result ≡ one_if_got reply.now }
{
    match reply {
        Reply::Got(true) => 1,
        _ => 0,
    }
}

/// One if a count was told.
pub(crate) fn one_if_counted(reply: &Reply) -> u64
    ensures { result ≡ one_if_counted reply.now }
{
    match reply {
        Reply::Count(_) => 1,
        _ => 0,
    }
}

/// One if a count other than 0 was told.
pub(crate) fn one_if_set(reply: &Reply) -> u64
    ensures { result ≡ one_if_set reply.now }
{
    match reply {
        Reply::Count(count) => { if *count > 0 { 1 } else { 0 } }
        _ => 0,
    }
}
