//! What the tasks of a team are asked.

ghost use Rattle.std.specs.Prelude.{◌≡◌, ◌<◌, ◌≤◌, List, ◌∷◌, None, Some, IfSome};
ghost use Rattle.gomp_events.specs.declared.event.Event.{Event};
ghost use Rattle.gomp_events.specs.declared.event.Event.TheVariants.{Done};
ghost use Rattle.gomp_events.specs.Tasks.{executed_task, epoch, is_odd, is_undeferred};
ghost use Rattle.gomp_tasks.specs.declared.tasks.Ended.{Ended};
ghost use Rattle.gomp_tasks.specs.Stands.{Stands, task_members, count_of, IsNumber};
ghost use Rattle.gomp_tasks.specs.Calls.{task_or_implicit, ended_task};

use gomp_tasks::{Ended, Tasks};

/// A member ends the task that it executes; if that is its implicit one, nothing changes.
pub fn finish(this: &mut Tasks, member: u16) -> Option<Ended>
    requires member { member < task_members this.old }
    ensures room { this.old.room ≤ this.new.room }
    ensures count { count_of this.new ≡ count_of this.old }
    ensures members { task_members this.new ≡ task_members this.old }
    ensures known { (h : List Event) × Stands this.old h }
    ensures answer { (h : List Event) → Stands this.old h →
        executed_task member h ≡ task_or_implicit member (ended_task result) }
    ensures number { IfSome result (λ ended. IsNumber ended.task this.new) }
    ensures odd { IfSome result (λ ended. (h : List Event) → Stands this.old h →
        ended.odd ≡ is_odd (epoch ended.task h)) }
    ensures undeferred { IfSome result (λ ended. (h : List Event) → Stands this.old h →
        ended.undeferred ≡ is_undeferred ended.task h) }
    ensures kept { result ≡ None → this.new ≡ this.old }
    ensures stands { (h : List Event) (ended : Ended) → result ≡ Some ended →
        Stands this.old h → Stands this.new (Done ended.task member ∷ h) }
{
    this.finish(member)
}
