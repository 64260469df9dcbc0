//! The cascade over plain lists: what is pending is dropped, one item after another.
ghost use Rattle.std.specs.Prelude.{◌≡◌, ◌==◌, ◌&&◌, [], IfOk, OnOk};
ghost use Rattle.std.specs.FinMap as map;
ghost use Rattle.ownership_model.specs.State.{weak, ends};
ghost use Rattle.ownership_model.specs.Release.{release, fall, is_husk, left_by, drop_first, Becomes, Goes};
ghost use Rattle.ownership_model.specs.Bounds.{IsBounded};
ghost use Rattle.ownership_model.specs.Plain.{state_of};

use crate::effects::drops;
use crate::plain::state::PlainState;
use std::alloc::{AllocError, Global};
use trace_types::outcomes::Event;
use trace_types::slots::{Entry, Item, Slot};

impl PlainState {
    /// Drops the items in order, each with all that it sets off before the next: what became of objects, in order.
    ///
    /// Where memory runs out the state is unspecified: let it go.
    pub(crate) fn release(
        &mut self,
        alloc: Global,
        items: &[Item],
    ) -> Result<Vec<Event>, AllocError>
        requires { IsBounded (state_of self.old) }
        ensures state { OnOk result
            (state_of self.new ≡ (release (state_of self.old) items.now).state) }
        ensures events { IfOk result
            (λ es. es.items ≡ (release (state_of self.old) items.now).events) }
    {
        let mut pending = Vec::from_slice(alloc, items)?;
        let mut events = Vec::new(alloc);
        while !pending.is_empty() {
            let item = pending.remove(0);
            self.drop_item(alloc, item, &mut pending, &mut events)?;
        }
        Ok(events)
    }

    // Drops one item, before the rest.
    fn drop_item(
        &mut self,
        alloc: Global,
        item: Item,
        rest: &mut Vec<Item>,
        events: &mut Vec<Event>,
    ) -> Result<(), AllocError>
        requires { IsBounded (state_of self.old) }
        ensures { OnOk result (Becomes
            (state_of self.new) rest.new.items events.old.items events.new.items
            (drop_first (state_of self.old) item rest.old.items)) }
    {
        match item {
            Item::Slot(Slot::Strong(object)) => {
                if self.count(Slot::Strong(object), rest) == 0 {
                    return self.destroy(alloc, object, rest, events);
                }
            }
            Item::Slot(Slot::Weak(object)) => {
                if self.is_last_weak(object, rest) {
                    return self.free(object, events);
                }
            }
            Item::End(object) => {
                if self.count(Slot::Weak(object), rest) == 0 {
                    return self.free(object, events);
                }
            }
            Item::Slot(Slot::Nothing | Slot::Dangling) => {}
        }
        Ok(())
    }

    // The value of the object goes, where it lives: its fields, and then its end, come before the rest.
    fn destroy(
        &mut self,
        alloc: Global,
        object: u32,
        rest: &mut Vec<Item>,
        events: &mut Vec<Event>,
    ) -> Result<(), AllocError>
        ensures { OnOk result (Becomes
            (state_of self.new) rest.new.items events.old.items events.new.items
            (left_by (state_of self.old) rest.old.items
            (fall object (map.get self.old.objects object)))) }
    {
        match self.objects.get(object) {
            Some(Entry::Alive(fields)) => {
                let mut after = vec![in alloc; Item::End(object)]?;
                after.extend_from_slice(rest)?;
                *rest = drops(alloc, fields.as_slice(), &after)?;
                events.push(Event::Destroyed(object))?;
                self.objects.insert(object, Entry::Husk)
            }
            Some(Entry::Husk) | None => Ok(()),
        }
    }

    // The allocation of the object goes.
    fn free(&mut self, object: u32, events: &mut Vec<Event>) -> Result<(), AllocError>
        ensures { OnOk result (Becomes (state_of self.new) [] events.old.items events.new.items
            (left_by (state_of self.old) [] (Goes object))) }
    {
        events.push(Event::Freed(object))?;
        self.objects.remove(object);
        Ok(())
    }

    // Whether neither a weak slot is left to the object, nor its value, nor the end of that.
    fn is_last_weak(&self, object: u32, rest: &[Item]) -> bool
        requires { IsBounded (state_of self.now) }
        ensures { result ≡ ((weak (state_of self.now) rest.now object == 0) &&
            (is_husk (map.get self.now.objects object) && (ends object rest.now == 0))) }
    {
        self.count(Slot::Weak(object), rest) == 0
            && matches!(self.objects.get(object), Some(Entry::Husk))
            && has_no_end(object, rest)
    }
}

fn has_no_end(object: u32, items: &[Item]) -> bool
    ensures { result ≡ (ends object items.now == 0) }
{
    for item in items {
        if let Item::End(ended) = item {
            if *ended == object {
                return false;
            }
        }
    }
    true
}
