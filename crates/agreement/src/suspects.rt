//! Objects at which two heaps may differ.
ghost use Rattle.std.specs.Prelude.{◌≡◌, [], ◌++◌, ◌∷◌, map, IfOk, OnOk};
ghost use Rattle.ownership_model.specs.Touched.{event_object, touched_by, touched_in, AgreeOutside};

use crate::agree::is_same_entry;
use crate::listed::Listed;
use object_heap::Heap;
use std::alloc::{AllocError, Global};
use std::marker::Model;
use trace_types::outcomes::{Event, Outcome};

// How many suspects are few.
const FEW: usize = 1_024;

/// Objects at which two heaps may differ: elsewhere the same stands in both. Contracts see the list.
#[derive(Drop)]
pub struct Suspects {
    objects: Vec<u32>,
}

impl Model for Suspects {
    ghost use Rattle.std.specs.Prelude.{List, ℕ};
    ghost use Rattle.std.specs.Coded.{coded_list, coded_ℕ};

    ghost Value = { List ℕ };

    ghost coded = { coded_list coded_ℕ };

    ghost view = { λ s. s.objects.items };
}

impl Suspects {
    /// Of heaps that are the same. Takes no memory.
    pub fn none(alloc: Global) -> Suspects
        ensures { result ≡ [] }
    {
        Suspects {
            objects: Vec::new(alloc),
        }
    }

    /// All objects of both heaps, where nothing else is known of them.
    pub fn of_both(alloc: Global, new: &Heap, old: &Heap) -> Result<Suspects, AllocError>
        ensures { IfOk result (λ s. AgreeOutside s new.now old.now) }
    {
        let mut objects = new.objects(alloc)?;
        objects.extend_from_slice(&old.objects(alloc)?)?;
        Ok(Suspects { objects })
    }

    /// These objects.
    pub fn of(alloc: Global, some: &[u32]) -> Result<Suspects, AllocError>
        ensures { IfOk result (λ s. s ≡ some.now) }
    {
        let mut objects = Vec::new(alloc);
        objects.extend_from_slice(some)?;
        Ok(Suspects { objects })
    }

    /// The suspects, in the order in which they joined. One may be listed twice.
    pub fn as_slice(&self) -> &[u32]
        ensures { result.now ≡ self.now }
    {
        self.objects.as_slice()
    }

    /// The suspects, or none if they are more than 1,024.
    pub(crate) fn few(&self, alloc: Global) -> Result<Vec<u32>, AllocError> {
        let mut few = Vec::new(alloc);
        if self.objects.len() <= FEW {
            few.extend_from_slice(&self.objects)?;
        }
        Ok(few)
    }

    /// What these outcomes tell may have changed joins them.
    pub fn add(&mut self, outcomes: &[Outcome]) -> Result<(), AllocError>
        ensures { OnOk result (self.new ≡ self.old ++ touched_in outcomes.now) }
    {
        for outcome in outcomes {
            self.add_one(outcome)?;
        }
        Ok(())
    }

    /// Those at which the same stands in both heaps are suspects no more, and each of the others is listed once. It is a help for
    /// speed: no clause says that any is dropped.
    pub fn settle(&mut self, alloc: Global, new: &Heap, old: &Heap) -> Result<(), AllocError>
        requires { AgreeOutside self.old new.now old.now }
        ensures { OnOk result (AgreeOutside self.new new.now old.now) }
    {
        let mut left = Listed::none(alloc, 0);
        for object in &self.objects {
            if !is_same_entry(new, old, *object) {
                left.join(*object)?;
            }
        }
        self.objects = left.into_vec();
        Ok(())
    }

    fn add_one(&mut self, outcome: &Outcome) -> Result<(), AllocError>
        ensures { OnOk result (self.new ≡ self.old ++ touched_by outcome.now) }
    {
        self.objects.push(outcome.id)?;
        self.add_events(outcome.events.as_slice())?;
        if let Some(counts) = &outcome.counts {
            self.objects.push(counts.object)?;
        }
        Ok(())
    }

    fn add_events(&mut self, events: &[Event]) -> Result<(), AllocError>
        ensures { OnOk result (self.new ≡ self.old ++ map event_object events.now) }
    {
        for event in events {
            self.objects.push(object_of(*event))?;
        }
        Ok(())
    }
}

fn object_of(event: Event) -> u32
    ensures { result ≡ event_object event }
{
    match event {
        Event::Destroyed(object)
        | Event::Unwrapped(object)
        | Event::Moved(object)
        | Event::Freed(object) => object,
    }
}
