//! Changes of an object where it is kept: of its counters, of a field, or of all that stands for it.
ghost use Rattle.std.specs.Prelude.{◌≡◌, ⊤, true, IfOk, OnOk, OnErr, Some, is_some, unwrap_or};
ghost use Rattle.std.specs.Option.{option_map};
ghost use Rattle.std.specs.Arc.{arc_value};
ghost use Rattle.trace_types.specs.declared.slots.Entry.TheVariants.{Husk};
ghost use Rattle.ownership_model.specs.Changes.{HasField, with_field};
ghost use Rattle.object_heap.specs.TableView.{kept_of, minus, plus, AreAmong, HasRoomFor};

use crate::counters::Counters;
use crate::object::Object;
use share_tree::Update;
use std::alloc::{AllocError, Global};
use std::mem::replace;
use std::sync::Arc;
use trace_types::sequence::Sequence;
use trace_types::slots::{Entry, Slot};

/// Counters in the place of an object's own.
impl Update<Object> for Counters {
    ghost can = { λ _ _. ⊤ };

    ghost to = { λ counters object. (object.0, counters) };

    ghost answer = { λ _ _. true };

    fn update(&self, _alloc: Global, object: &mut Object) -> Result<bool, AllocError> {
        object.counters = *self;
        Ok(true)
    }

    fn updated(&self, _alloc: Global, object: &Object) -> Result<(Object, bool), AllocError> {
        let object = object.share()?.with_counters(*self);
        Ok((object, true))
    }
}

/// Counters that are added to an object's own.
#[derive(Clone, Copy)]
pub struct More(pub Counters);

impl Update<Object> for More {
    ghost can = { λ more object. HasRoomFor object.1 more.0 };

    ghost to = { λ more object. (object.0, plus object.1 more.0) };

    ghost answer = { λ _ _. true };

    fn update(&self, _alloc: Global, object: &mut Object) -> Result<bool, AllocError> {
        object.counters = object.counters.plus(self.0);
        Ok(true)
    }

    fn updated(&self, _alloc: Global, object: &Object) -> Result<(Object, bool), AllocError> {
        let counters = object.counters.plus(self.0);
        let object = object.share()?.with_counters(counters);
        Ok((object, true))
    }
}

/// Counters that are taken off an object's own. Where nothing stands and none would be left it changes nothing and answers no.
#[derive(Clone, Copy)]
pub struct Less(pub Counters);

impl Update<Object> for Less {
    ghost can = { λ less object. AreAmong less.0 object.1 };

    ghost to = { λ less object. unwrap_or (kept_of object.0 (minus object.1 less.0)) object };

    ghost answer = { λ less object. is_some (kept_of object.0 (minus object.1 less.0)) };

    fn update(&self, _alloc: Global, object: &mut Object) -> Result<bool, AllocError> {
        let Some(counters) = self.left(object) else {
            return Ok(false);
        };
        object.counters = counters;
        Ok(true)
    }

    fn updated(&self, _alloc: Global, object: &Object) -> Result<(Object, bool), AllocError> {
        let object = object.share()?;
        match self.left(&object) {
            Some(counters) => Ok((object.with_counters(counters), true)),
            None => Ok((object, false)),
        }
    }
}

impl Less {
    // What is left of an object's counters, if it is needed with these.
    fn left(&self, object: &Object) -> Option<Counters>
        requires { AreAmong self.now.0 object.now.1 }
        ensures { option_map (λ c. (object.now.0, c)) result
            ≡ kept_of object.now.0 (minus object.now.1 self.now.0) }
    {
        let counters = object.counters.minus(self.0);
        if object.entry.is_none() && counters.are_zero() {
            return None;
        }
        Some(counters)
    }
}

/// A husk in the place of what stands, with these counters.
#[derive(Clone, Copy)]
pub struct TurnHusk(pub Counters);

impl Update<Object> for TurnHusk {
    ghost can = { λ _ _. ⊤ };

    ghost to = { λ husk _. (Some Husk, husk.0) };

    ghost answer = { λ _ _. true };

    fn update(&self, alloc: Global, object: &mut Object) -> Result<bool, AllocError> {
        turn_husk(alloc, &mut object.entry)?;
        object.counters = self.0;
        Ok(true)
    }

    fn updated(&self, alloc: Global, _object: &Object) -> Result<(Object, bool), AllocError> {
        Ok((Object::standing(alloc, Entry::Husk, self.0)?, true))
    }
}

// A husk takes the place of what stands, in its memory if no share holds that.
fn turn_husk(alloc: Global, entry: &mut Option<Arc<Entry>>) -> Result<(), AllocError>
    ensures ok { OnOk result (option_map arc_value entry.new ≡ Some Husk) }
    ensures err { OnErr result (entry.new ≡ entry.old) }
{
    if let Some(shared) = entry {
        if let Some(own) = Arc::get_mut(shared) {
            *own = Entry::Husk;
            return Ok(());
        }
    }
    *entry = Some(Arc::new(alloc, Entry::Husk)?);
    Ok(())
}

/// Another slot in a field of an object that is alive.
#[derive(Clone, Copy)]
pub struct SetField {
    pub index: u32,
    pub slot: Slot,
}

impl Update<Object> for SetField {
    ghost can = { λ field object. HasField object.0 field.index };

    ghost to = { λ field object. (Some (with_field object.0 field.index field.slot), object.1) };

    ghost answer = { λ _ _. true };

    fn update(&self, alloc: Global, object: &mut Object) -> Result<bool, AllocError> {
        let Some(entry) = &mut object.entry else {
            unreachable!()
        };
        match Arc::get_mut(entry) {
            Some(own) => self.set(alloc, own),
            None => {
                let changed = self.changed(entry)?;
                *entry = Arc::new(alloc, changed)?;
            }
        }
        Ok(true)
    }

    fn updated(&self, alloc: Global, object: &Object) -> Result<(Object, bool), AllocError> {
        let Some(entry) = &object.entry else {
            unreachable!()
        };
        let changed = self.changed(entry)?;
        let object = Object::standing(alloc, changed, object.counters)?;
        Ok((object, true))
    }
}

impl SetField {
    // Sets the slot where it stands.
    fn set(&self, alloc: Global, entry: &mut Entry)
        requires { HasField (Some entry.old) self.now.index }
        ensures { entry.new ≡ with_field (Some entry.old) self.now.index self.now.slot }
    {
        match entry {
            Entry::Alive(fields) => {
                let mut slots = replace(fields, Sequence::empty(alloc)).into_vec();
                slots[self.index as usize] = self.slot;
                *fields = Sequence::from_vec(slots);
            }
            Entry::Husk => unreachable!(),
        }
    }

    // What stands, with the slot set.
    fn changed(&self, entry: &Entry) -> Result<Entry, AllocError>
        requires { HasField (Some entry.now) self.now.index }
        ensures { IfOk result (λ e. e ≡ with_field (Some entry.now) self.now.index self.now.slot) }
    {
        match entry {
            Entry::Alive(fields) => {
                let mut slots = fields.clone()?.into_vec();
                slots[self.index as usize] = self.slot;
                Ok(Entry::Alive(Sequence::from_vec(slots)))
            }
            Entry::Husk => unreachable!(),
        }
    }
}
