//! The history of a team.

ghost use Rattle.std.specs.Prelude.{◌≡◌, ◌<◌, ◌≤◌, ◌++◌, ◌∷◌, ◌+◌, [], true, Some, length, reverse, IfOk, OnOk, OnErr, IsOk, nat_le, if◌then◌else◌};
ghost use Rattle.std.proofs.Common.{suc};
ghost use Rattle.gomp_events.specs.declared.event.Event.TheVariants.{Create};
ghost use Rattle.gomp_events.specs.Tasks.{tasks_created, is_created, task_desc};
ghost use Rattle.gomp_growth.specs.Growth.{growth_of, room_made};
ghost use Rattle.gomp_history.specs.Histories.{CreatesNone, events_memory};

use gomp_events::Event;
use gomp_growth::{SIXTEENTH, growth_of, reserve_one};
use gomp_types::{Task, TaskDesc};
use std::alloc::{AllocError, Global};
use std::marker::Model;

/// For no more events than this there is memory.
const MAX_EVENTS: usize = 4_294_967_295;

/// The stored events of a team, the oldest first. Tasks are numbered from 1 in the order of their
/// creation. Only `with_room`, `reserve` and `reserve_task` take memory.
#[derive(Drop)]
pub struct History {
    events: Vec<Event>,
    /// Of each task, in the order of creation, the place of the event that creates it.
    places: Vec<u32>,
}

impl Model for History {
    ghost use Rattle.std.specs.Prelude.{◌-◌, vec_len};
    ghost use Rattle.std.specs.Vec.{vec_capacity};
    ghost use Rattle.gomp_history.specs.Histories.{HistoryView, IsHistory};

    ghost Value = { HistoryView };

    ghost view = { λ h. record {
      events = h.events.items;
      capacity = vec_capacity h.events;
      task_room = vec_capacity h.places - vec_len h.places;
    } };

    ghost invariant = { λ h. IsHistory (vec_capacity h.events) h.events.items h.places.items };
}

impl History {
    /// No event, with memory for so many. It fails if that is refused.
    pub fn with_room(alloc: Global, room: u32) -> Result<History, AllocError>
        ensures events { IfOk result (λ history. history.events ≡ []) }
        ensures capacity { IfOk result (λ history. room ≤ history.capacity) }
    {
        Ok(History {
            events: Vec::with_capacity(alloc, room as usize)?,
            places: Vec::new(alloc),
        })
    }

    /// Makes memory for so many events in all. It grows in steps, so that events are seldom moved. It
    /// fails, and nothing changes, if the memory is refused.
    #[inline(always)]
    pub fn reserve(&mut self, room: u32) -> Result<(), AllocError>
        ensures events { self.new.events ≡ self.old.events }
        ensures memory { OnOk result (self.new.capacity
            ≡ (if nat_le room self.old.capacity then self.old.capacity
            else events_memory room)) }
        ensures enough { OnOk result (room ≤ self.new.capacity) }
        ensures grows { self.old.capacity ≤ self.new.capacity }
        ensures task_room { self.new.task_room ≡ self.old.task_room }
        ensures err { OnErr result (self.new ≡ self.old) }
        ensures there { room ≤ self.old.capacity → IsOk result }
    {
        let room = room as usize;
        if room <= self.events.capacity() {
            return Ok(());
        }
        let step = growth_of(SIXTEENTH, room);
        let memory = (room + step).min(MAX_EVENTS);
        self.events.reserve_exact(memory - self.events.len())
    }

    /// Makes memory for the place of one more task. It grows in steps. It fails, and nothing changes,
    /// if the memory is refused.
    pub fn reserve_task(&mut self) -> Result<(), AllocError>
        ensures room { OnOk result (0 < self.new.task_room) }
        ensures memory { OnOk result (self.new.task_room
            ≡ room_made 1 (growth_of 16 (tasks_created (reverse self.old.events)))
            self.old.task_room) }
        ensures kept { OnOk result
            (self.new ≡ record self.old { task_room = self.new.task_room }) }
        ensures grows { self.old.task_room ≤ self.new.task_room }
        ensures there { 0 < self.old.task_room → IsOk result }
        ensures err { OnErr result (self.new ≡ self.old) }
    {
        reserve_one(&mut self.places)
    }

    /// The events, the oldest first.
    pub fn events(&self) -> &[Event]
        ensures value { result.now ≡ self.now.events }
    {
        self.events.as_slice()
    }

    /// The events, the oldest first, of a history that is dropped.
    pub fn into_events(self) -> Vec<Event>
        ensures { result.items ≡ self.events }
    {
        let History { events, .. } = self;
        events
    }

    /// Appends an event that creates no task. There has to be memory for it (`reserve`).
    #[inline(always)]
    pub fn push(&mut self, event: Event)
        requires space { length self.old.events < self.old.capacity }
        requires other { CreatesNone event }
        ensures events { self.new.events ≡ self.old.events ++ event ∷ [] }
        ensures capacity { self.new.capacity ≡ self.old.capacity }
        ensures task_room { self.new.task_room ≡ self.old.task_room }
    {
        self.events.push_reserved(event);
    }

    /// Appends that the member created the task, the next one, in this one. There has to be memory for
    /// the event and for its place (`reserve`, `reserve_task`).
    pub fn push_task(&mut self, task: u32, member: u16, parent: Task, desc: TaskDesc)
        requires space { length self.old.events < self.old.capacity }
        requires room { 0 < self.old.task_room }
        requires next { task ≡ suc (tasks_created (reverse self.old.events)) }
        ensures events { self.new.events
            ≡ self.old.events ++ Create task member parent desc ∷ [] }
        ensures capacity { self.new.capacity ≡ self.old.capacity }
        ensures task_room { self.new.task_room + 1 ≡ self.old.task_room }
    {
        let place = self.events.len() as u32;
        self.places.push_reserved(place);
        self.events.push_reserved(Event::Create {
            task,
            member,
            parent,
            desc,
        });
    }

    /// What was asked for when the task with this number was created. It takes one step.
    pub fn desc(&self, task: u32) -> &TaskDesc
        requires created { is_created task (reverse self.now.events) ≡ true }
        ensures value { task_desc task (reverse self.now.events) ≡ Some result.now }
    {
        let place = self.places[(task - 1) as usize];
        match &self.events[place as usize] {
            Event::Create { desc, .. } => desc,
            _ => unreachable!(),
        }
    }
}
