//! The objects of a trace that is being made, so that its operations are mostly ones that can be done.

use crate::places::Held;
use std::alloc::{AllocError, Global};

/// How many fields an object may have here.
pub const FIELDS: usize = 4;

// An object is alive while a strong slot names it. A value that was moved out keeps its fields here.
#[derive(Clone, Copy)]
struct Object {
    strong: u32,
    weak: u32,
    fields: [Held; FIELDS],
    // how many of the fields there are
    count: u32,
}

const NO_OBJECT: Object = Object {
    strong: 0,
    weak: 0,
    fields: [Held::Nothing; FIELDS],
    count: 0,
};

/// What `make_mut` does.
#[derive(Clone, Copy)]
pub enum Made {
    Unique,
    Other(Held),
}

/// The objects, numbered from 0 as they are made.
#[derive(Drop)]
pub struct Objects {
    objects: Vec<Object>,
    made: u32,
    // slots that are still to be let go
    falling: Vec<Held>,
}

impl Objects {
    pub fn new(alloc: Global) -> Self {
        Objects {
            objects: Vec::new(alloc),
            made: 0,
            falling: Vec::new(alloc),
        }
    }

    fn at(&self, object: u32) -> Object {
        self.objects
            .get(object as usize)
            .copied()
            .unwrap_or(NO_OBJECT)
    }

    /// The number of the object that is made next.
    pub fn next(&self) -> u32 {
        self.made
    }

    pub fn is_alive(&self, object: u32) -> bool {
        self.at(object).strong > 0
    }

    pub fn is_sole(&self, object: u32) -> bool {
        self.at(object).strong == 1
    }

    /// How many fields there are behind a strong pointer or in a value.
    pub fn fields(&self, held: Held) -> u32 {
        match held {
            Held::Strong(object) | Held::Value(object) => self.at(object).count,
            _ => 0,
        }
    }

    /// Makes an object that takes these slots, and answers the strong pointer to it.
    pub fn make(&mut self, fields: [Held; FIELDS], count: u32) -> Result<Held, AllocError> {
        let object = self.made;
        self.objects.push(Object {
            strong: 1,
            weak: 0,
            fields,
            count,
        })?;
        self.made = object.wrapping_add(1);
        Ok(Held::Strong(object))
    }

    /// Makes an object of a value that was moved out.
    pub fn make_from(&mut self, value: u32) -> Result<Held, AllocError> {
        let Object { fields, count, .. } = self.at(value);
        self.make(fields, count)
    }

    /// Counts one more of a slot.
    pub fn copy(&mut self, held: Held) {
        match held {
            Held::Strong(object) => {
                if let Some(it) = self.objects.get_mut(object as usize) {
                    it.strong = it.strong.wrapping_add(1);
                }
            }
            Held::Weak(object) => {
                if let Some(it) = self.objects.get_mut(object as usize) {
                    it.weak = it.weak.wrapping_add(1);
                }
            }
            _ => {}
        }
    }

    /// Lets go of what a place held, and of all that this destroys.
    pub fn release(&mut self, held: Held) -> Result<(), AllocError> {
        self.release_one(held)?;
        for _ in 0..u32::MAX {
            let Some(held) = self.falling.pop() else {
                break;
            };
            self.release_one(held)?;
        }
        Ok(())
    }

    fn release_one(&mut self, held: Held) -> Result<(), AllocError> {
        match held {
            Held::Strong(object) => {
                let Some(it) = self.objects.get_mut(object as usize) else {
                    return Ok(());
                };
                it.strong = it.strong.wrapping_sub(1);
                if it.strong == 0 {
                    self.drop_fields(object)?;
                }
            }
            Held::Weak(object) => {
                if let Some(it) = self.objects.get_mut(object as usize) {
                    it.weak = it.weak.wrapping_sub(1);
                }
            }
            Held::Value(object) => self.drop_fields(object)?,
            _ => {}
        }
        Ok(())
    }

    fn drop_fields(&mut self, object: u32) -> Result<(), AllocError> {
        for field in self.at(object).fields {
            if field != Held::Nothing {
                self.falling.push(field)?;
            }
        }
        Ok(())
    }

    /// Moves the value out of an object that one strong pointer names.
    pub fn unwrap(&mut self, object: u32) {
        if let Some(it) = self.objects.get_mut(object as usize) {
            it.strong = 0;
        }
    }

    /// Leaves an object alone that only one strong pointer names and no Weak, and else copies or moves its value.
    pub fn make_mut(&mut self, object: u32) -> Result<Made, AllocError> {
        let it = self.at(object);
        if it.strong == 1 && it.weak == 0 {
            return Ok(Made::Unique);
        }
        if it.strong == 1 {
            self.unwrap(object);
            return Ok(Made::Other(self.make(it.fields, it.count)?));
        }
        for field in it.fields {
            self.copy(field);
        }
        self.release(Held::Strong(object))?;
        Ok(Made::Other(self.make(it.fields, it.count)?))
    }

    /// What is in a field.
    pub fn field(&self, holder: Held, i: u32) -> Held {
        match holder {
            Held::Strong(object) | Held::Value(object) => {
                let fields = self.at(object).fields;
                fields.get(i as usize).copied().unwrap_or(Held::Nothing)
            }
            _ => Held::Nothing,
        }
    }

    /// Puts a slot into a field, and answers what was there.
    pub fn replace(&mut self, holder: Held, i: u32, slot: Held) -> Held {
        let (Held::Strong(object) | Held::Value(object)) = holder else {
            return Held::Nothing;
        };
        let Some(it) = self.objects.get_mut(object as usize) else {
            return Held::Nothing;
        };
        let Some(field) = it.fields.get_mut(i as usize) else {
            return Held::Nothing;
        };
        let before = *field;
        *field = slot;
        before
    }
}
