//! The lives of objects: the marks that operations left on them.
ghost use Rattle.std.specs.Prelude.{◌≡◌, ℕ, IfOk};
ghost use Rattle.ownership_model.specs.Touched.{event_object};
ghost use Rattle.retention_model.specs.Turns.{marks_of};
ghost use Rattle.retention_model.specs.declared.mark.Marked.{Marked};
ghost use Rattle.std.specs.List.Sorted.{IsNonDecreasingBy};

use retention_model::Marked;
use std::alloc::AllocError;
use trace_types::outcomes::Event;

/// The marks of all objects, those of each one behind the other.
#[derive(Drop)]
pub struct Lifelines {
    pub marks: Vec<Marked>,
    ghost rising: { IsNonDecreasingBy (λ (x : Marked). x.object) marks.items },
}

impl Lifelines {
    /// Of the marks of all operations, in order.
    pub fn of(marked: Vec<Marked>) -> Result<Lifelines, AllocError>
        ensures { IfOk result (λ l. (o : ℕ) → marks_of o l.marks.items ≡ marks_of o marked.items) }
    {
        let mut marks = marked;
        marks.sort_by_key(|marked: &Marked| marked.object)?;
        Ok(Lifelines { marks })
    }

    /// The marks of an object, in order.
    pub fn life(&self, object: u32) -> &[Marked]
        ensures { result.now ≡ marks_of object self.now.marks.items }
    {
        let marks = self.marks.as_slice();
        let start = marks.partition_point(|marked: &Marked| marked.object < object);
        let (_, rest) = marks.split_at(start);
        let end = rest.partition_point(|marked: &Marked| marked.object <= object);
        let (life, _) = rest.split_at(end);
        life
    }
}

/// The object that an event tells of.
pub fn object_of(event: Event) -> u32
    ensures { result ≡ event_object event }
{
    match event {
        Event::Destroyed(object)
        | Event::Unwrapped(object)
        | Event::Moved(object)
        | Event::Freed(object) => object,
    }
}
