//! A trace as programs leave it: eight threads that clone, drop, downgrade and upgrade their handles, and now and then do all else.

use crate::lines::{Field, Lines, Member, Plan};
use crate::names::{Name, Op};
use crate::objects::{FIELDS, Made, Objects};
use crate::places::{Held, Places, Wanted};
use crate::random::Random;
use crate::writer::LABELS;
use std::alloc::{AllocError, Global};

/// How many handles there may be at once; about half of them are held.
pub const HANDLES: u32 = 2048;

const CELLS: u32 = 64;

/// The lines of a mixed trace. Of a hundred operations some fifteen can't be done.
pub fn mixed(alloc: Global, plan: Plan) -> Result<Lines, AllocError> {
    let mut writer = MixedWriter::new(alloc, plan)?;
    for _ in 0..plan.operations {
        // A knot is two lines.
        if writer.lines.count() < plan.operations {
            writer.step()?;
        }
    }
    Ok(writer.lines)
}

#[derive(Drop)]
struct MixedWriter {
    lines: Lines,
    random: Random,
    handles: Places,
    cells: Places,
    // the scope of each handle
    labels: Vec<u32>,
    objects: Objects,
    label: u32,
    // whether the operation is to be one that can't be done
    is_wrong: bool,
}

impl MixedWriter {
    fn new(alloc: Global, plan: Plan) -> Result<Self, AllocError> {
        let mut labels = Vec::new(alloc);
        for _ in 0..HANDLES {
            labels.push(0)?;
        }
        Ok(MixedWriter {
            lines: Lines::new(alloc, plan)?,
            random: Random::new(plan.seed),
            handles: Places::new(alloc, HANDLES)?,
            cells: Places::new(alloc, CELLS)?,
            labels,
            objects: Objects::new(alloc),
            label: 0,
            is_wrong: false,
        })
    }

    fn step(&mut self) -> Result<(), AllocError> {
        let [label, chance, kind, wrong] = self.random.parts();
        if label % 3 == 0 {
            self.label = label / 3 % LABELS;
        }
        let taken = self.handles.taken();
        self.is_wrong = taken > HANDLES / 4 && wrong % 7 == 0;
        // A trace begins with objects for its handles.
        if taken < chance % (HANDLES / 4) {
            return self.make(Op::New);
        }
        // The more handles are held, the more of the operations are drops.
        if chance % (HANDLES * 3 / 2) < taken {
            return self.drop_handle();
        }
        match kind % 256 {
            0..=49 => self.clone_handle(),
            50..=83 => self.downgrade(),
            84..=123 => self.upgrade(),
            124..=163 => self.make(Op::New),
            164..=171 => self.make(Op::NewCyclic),
            172..=199 => self.use_object(),
            200..=225 => self.use_field(),
            226..=251 => self.use_cell(),
            252 | 253 => self.new_from(),
            254 => self.knot(),
            _ => self.seldom(),
        }
    }

    fn use_object(&mut self) -> Result<(), AllocError> {
        match self.random.below(28) {
            0..=8 => self.counts(),
            9..=13 => self.ptr_eq(),
            14..=16 => self.get_mut(),
            17..=21 => self.make_mut(),
            22 | 23 => self.unwrap(Op::TryUnwrap),
            _ => self.unwrap(Op::IntoInner),
        }
    }

    fn use_field(&mut self) -> Result<(), AllocError> {
        match self.random.below(3) {
            0 => self.set(),
            1 => self.take(),
            _ => self.get(),
        }
    }

    fn use_cell(&mut self) -> Result<(), AllocError> {
        if self.cells.taken() < self.random.below(CELLS / 2) {
            return self.cell_new();
        }
        match self.random.below(16) {
            0..=6 => self.cell_load(),
            7 | 8 => self.cell_swap(),
            9 | 10 => self.cell_store(),
            11..=14 => self.cell_cas(),
            _ => self.cell_drop(),
        }
    }

    fn seldom(&mut self) -> Result<(), AllocError> {
        match self.random.below(6) {
            0 => self.scope_end(),
            1 => self.plain(Op::WeakNew, Held::Dangling),
            _ => self.plain(Op::Null, Held::Nothing),
        }
    }

    // A handle as wanted. Where it is to be a wrong one, one that holds something else or that never was.
    fn pick(&mut self, wanted: Wanted) -> u32 {
        let sought = match wanted {
            _ if !self.is_wrong => wanted,
            Wanted::Free => Wanted::Held,
            Wanted::Weak => Wanted::Strong,
            Wanted::Strong => Wanted::Weak,
            _ => return HANDLES,
        };
        let found = self.handles.find(&mut self.random, sought);
        found.unwrap_or(HANDLES)
    }

    // A cell as wanted, or one that never was.
    fn pick_cell(&mut self, wanted: Wanted) -> u32 {
        let found = self.cells.find(&mut self.random, wanted);
        found.unwrap_or(CELLS)
    }

    fn add(&mut self, op: Op, members: &[Member]) -> Result<(), AllocError> {
        self.lines.add(self.label, op, members)
    }

    fn is_free(&self, handle: u32) -> bool {
        handle < HANDLES && self.handles.fits(handle, Wanted::Free)
    }

    // A handle is made, in the scope of the label.
    fn hold(&mut self, handle: u32, held: Held) {
        self.handles.put(handle, held);
        if let Some(label) = self.labels.get_mut(handle as usize) {
            *label = self.label;
        }
    }

    fn end(&mut self, handle: u32) -> Held {
        self.handles.put(handle, Held::Free)
    }

    // A handle is made that holds the same slot as another place.
    fn hold_copy(&mut self, handle: u32, held: Held) {
        self.objects.copy(held);
        self.hold(handle, held);
    }

    fn drop_handle(&mut self) -> Result<(), AllocError> {
        let h = self.pick(Wanted::Held);
        self.add(Op::Drop, &[Member::Number(Name::H, h)])?;
        let held = self.end(h);
        self.objects.release(held)
    }

    fn plain(&mut self, op: Op, held: Held) -> Result<(), AllocError> {
        let to = self.pick(Wanted::Free);
        self.add(op, &[Member::To(to)])?;
        if self.is_free(to) {
            self.hold(to, held);
        }
        Ok(())
    }

    // An operation that makes a handle of what another one holds: what that is, where it can be done.
    fn derive(&mut self, op: Op, wanted: Wanted) -> Result<Option<(Held, u32)>, AllocError> {
        let from = self.pick(wanted);
        let to = self.pick(Wanted::Free);
        self.add(op, &[Member::Number(Name::From, from), Member::To(to)])?;
        let held = self.handles.at(from);
        let can = held.fits(wanted) && self.is_free(to);
        Ok(can.then_some((held, to)))
    }

    fn clone_handle(&mut self) -> Result<(), AllocError> {
        if let Some((held, to)) = self.derive(Op::Clone, Wanted::Slot)? {
            self.hold_copy(to, held);
        }
        Ok(())
    }

    fn downgrade(&mut self) -> Result<(), AllocError> {
        if let Some((Held::Strong(object), to)) = self.derive(Op::Downgrade, Wanted::Strong)? {
            self.hold_copy(to, Held::Weak(object));
        }
        Ok(())
    }

    fn upgrade(&mut self) -> Result<(), AllocError> {
        if let Some((held, to)) = self.derive(Op::Upgrade, Wanted::Weak)? {
            match held {
                Held::Weak(object) if self.objects.is_alive(object) => {
                    self.hold_copy(to, Held::Strong(object));
                }
                _ => self.hold(to, Held::Nothing),
            }
        }
        Ok(())
    }

    // Values are few: where none is found a handle is cloned.
    fn new_from(&mut self) -> Result<(), AllocError> {
        let from = self.pick(Wanted::Value);
        let Held::Value(value) = self.handles.at(from) else {
            return self.clone_handle();
        };
        let to = self.pick(Wanted::Free);
        self.add(
            Op::NewFrom,
            &[Member::Number(Name::From, from), Member::To(to)],
        )?;
        if self.is_free(to) {
            self.end(from);
            let made = self.objects.make_from(value)?;
            self.hold(to, made);
        }
        Ok(())
    }

    // Up to four fields: null, a Weak to the object itself where that can be, or what a handle held.
    fn make(&mut self, op: Op) -> Result<(), AllocError> {
        let to = self.pick(Wanted::Free);
        let is_made = self.is_free(to);
        let own = Held::Weak(self.objects.next());
        let mut named = [Field::Null; FIELDS];
        let mut held = [Held::Nothing; FIELDS];
        let count = self.random.below(5);
        for (field, slot) in named.iter_mut().zip(held.iter_mut()).take(count as usize) {
            match self.random.below(6) {
                0 | 1 => {}
                2 if matches!(op, Op::NewCyclic) => (*field, *slot) = (Field::Me, own),
                _ => (*field, *slot) = self.pick_field(is_made),
            }
        }
        let (named, _) = named.split_at(count as usize);
        self.add(op, &[Member::Fields(named), Member::To(to)])?;
        if is_made {
            let made = self.objects.make(held, count)?;
            self.hold(to, made);
            for slot in held {
                if slot == own {
                    self.objects.copy(own);
                }
            }
        }
        Ok(())
    }

    // A handle that ends where the object is made, and what it holds. Where few are held it is seldom one.
    fn pick_field(&mut self, is_made: bool) -> (Field, Held) {
        if self.random.below(HANDLES) >= self.handles.taken() {
            return (Field::Null, Held::Nothing);
        }
        match self.handles.find(&mut self.random, Wanted::Slot) {
            Some(handle) if is_made => (Field::Handle(handle), self.end(handle)),
            Some(handle) => (Field::Handle(handle), Held::Nothing),
            None => (Field::Null, Held::Nothing),
        }
    }

    fn counts(&mut self) -> Result<(), AllocError> {
        let wanted = if self.random.below(3) == 0 {
            Wanted::Weak
        } else {
            Wanted::Strong
        };
        let h = self.pick(wanted);
        self.add(Op::Counts, &[Member::Number(Name::H, h)])
    }

    fn ptr_eq(&mut self) -> Result<(), AllocError> {
        let a = self.pick(Wanted::Strong);
        let b = self.pick(Wanted::Strong);
        self.add(
            Op::PtrEq,
            &[Member::Number(Name::A, a), Member::Number(Name::B, b)],
        )
    }

    fn get_mut(&mut self) -> Result<(), AllocError> {
        let h = self.pick(Wanted::Strong);
        self.add(Op::GetMut, &[Member::Number(Name::H, h)])
    }

    fn make_mut(&mut self) -> Result<(), AllocError> {
        let h = self.pick(Wanted::Strong);
        self.add(Op::MakeMut, &[Member::Number(Name::H, h)])?;
        if let Held::Strong(object) = self.handles.at(h) {
            if let Made::Other(made) = self.objects.make_mut(object)? {
                self.handles.put(h, made);
            }
        }
        Ok(())
    }

    fn unwrap(&mut self, op: Op) -> Result<(), AllocError> {
        let h = self.pick(Wanted::Strong);
        self.add(op, &[Member::Number(Name::H, h)])?;
        let held = self.handles.at(h);
        if let Held::Strong(object) = held {
            if self.objects.is_sole(object) {
                self.objects.unwrap(object);
                self.handles.put(h, Held::Value(object));
            } else if matches!(op, Op::IntoInner) {
                self.handles.put(h, Held::Nothing);
                self.objects.release(held)?;
            }
        }
        Ok(())
    }

    // A handle with fields, and one of them.
    fn pick_fielded(&mut self) -> (u32, u32) {
        let mut h = self.pick(Wanted::Fielded);
        for _ in 0..4 {
            if self.fields_of(h) > 0 {
                break;
            }
            h = self.pick(Wanted::Fielded);
        }
        let fields = self.fields_of(h);
        (h, self.random.below(fields.max(1)))
    }

    fn fields_of(&self, handle: u32) -> u32 {
        self.objects.fields(self.handles.at(handle))
    }

    fn set(&mut self) -> Result<(), AllocError> {
        let (h, i) = self.pick_fielded();
        let from = self.pick(Wanted::Slot);
        self.put_field(h, i, from)
    }

    fn put_field(&mut self, h: u32, i: u32, from: u32) -> Result<(), AllocError> {
        let members = [
            Member::Number(Name::From, from),
            Member::Number(Name::H, h),
            Member::Number(Name::I, i),
        ];
        self.add(Op::Set, &members)?;
        let is_slot = self.handles.fits(from, Wanted::Slot);
        if h == from || !is_slot || i >= self.fields_of(h) {
            return Ok(());
        }
        let slot = self.end(from);
        let before = self.objects.replace(self.handles.at(h), i, slot);
        self.objects.release(before)
    }

    fn take(&mut self) -> Result<(), AllocError> {
        if let Some((holder, i, to)) = self.read_field(Op::Take)? {
            let slot = self.objects.replace(holder, i, Held::Nothing);
            self.hold(to, slot);
        }
        Ok(())
    }

    fn get(&mut self) -> Result<(), AllocError> {
        if let Some((holder, i, to)) = self.read_field(Op::Get)? {
            let slot = self.objects.field(holder, i);
            self.hold_copy(to, slot);
        }
        Ok(())
    }

    // An operation that makes a handle from a field: of what holds it, where it can be done.
    fn read_field(&mut self, op: Op) -> Result<Option<(Held, u32, u32)>, AllocError> {
        let (h, i) = self.pick_fielded();
        let to = self.pick(Wanted::Free);
        let members = [
            Member::Number(Name::H, h),
            Member::Number(Name::I, i),
            Member::To(to),
        ];
        self.add(op, &members)?;
        let can = i < self.fields_of(h) && self.is_free(to);
        Ok(can.then_some((self.handles.at(h), i, to)))
    }

    // An object holds itself, and leaks once its handles are gone.
    fn knot(&mut self) -> Result<(), AllocError> {
        self.is_wrong = false;
        let (h, i) = self.pick_fielded();
        let to = self.pick(Wanted::Free);
        self.add(Op::Clone, &[Member::Number(Name::From, h), Member::To(to)])?;
        let held = self.handles.at(h);
        if held.fits(Wanted::Slot) && self.is_free(to) {
            self.hold_copy(to, held);
        }
        self.put_field(h, i, to)
    }

    fn cell_new(&mut self) -> Result<(), AllocError> {
        let c = self.pick_cell(Wanted::Free);
        let from = self.pick(Wanted::Pointer);
        let members = [Member::Number(Name::C, c), Member::Number(Name::From, from)];
        self.add(Op::CellNew, &members)?;
        if self.cells.fits(c, Wanted::Free) && self.handles.fits(from, Wanted::Pointer) {
            let held = self.end(from);
            self.cells.put(c, held);
        }
        Ok(())
    }

    fn cell_load(&mut self) -> Result<(), AllocError> {
        let c = self.pick_cell(Wanted::Held);
        let to = self.pick(Wanted::Free);
        self.add(Op::CellLoad, &[Member::Number(Name::C, c), Member::To(to)])?;
        let held = self.cells.at(c);
        if held.fits(Wanted::Held) && self.is_free(to) {
            self.hold_copy(to, held);
        }
        Ok(())
    }

    fn can_swap(&self, c: u32, from: u32) -> bool {
        self.cells.fits(c, Wanted::Held) && self.handles.fits(from, Wanted::Pointer)
    }

    fn cell_swap(&mut self) -> Result<(), AllocError> {
        let c = self.pick_cell(Wanted::Held);
        let from = self.pick(Wanted::Pointer);
        let to = self.pick(Wanted::Free);
        let members = [
            Member::Number(Name::C, c),
            Member::Number(Name::From, from),
            Member::To(to),
        ];
        self.add(Op::CellSwap, &members)?;
        if self.can_swap(c, from) && self.is_free(to) {
            let held = self.end(from);
            let before = self.cells.put(c, held);
            self.hold(to, before);
        }
        Ok(())
    }

    fn cell_store(&mut self) -> Result<(), AllocError> {
        let c = self.pick_cell(Wanted::Held);
        let from = self.pick(Wanted::Pointer);
        let members = [Member::Number(Name::C, c), Member::Number(Name::From, from)];
        self.add(Op::CellSwap, &members)?;
        if !self.can_swap(c, from) {
            return Ok(());
        }
        let held = self.end(from);
        let before = self.cells.put(c, held);
        self.objects.release(before)
    }

    fn cell_cas(&mut self) -> Result<(), AllocError> {
        let c = self.pick_cell(Wanted::Held);
        let expected = self.pick(Wanted::Pointer);
        let desired = self.pick(Wanted::Pointer);
        let members = [
            Member::Number(Name::C, c),
            Member::Number(Name::Desired, desired),
            Member::Number(Name::Expected, expected),
        ];
        self.add(Op::CellCas, &members)?;
        let are_pointers = self.can_swap(c, expected) && self.can_swap(c, desired);
        if !are_pointers || expected == desired {
            return Ok(());
        }
        let there = self.cells.at(c);
        let new = self.end(desired);
        if there == self.handles.at(expected) {
            self.cells.put(c, new);
            return self.objects.release(there);
        }
        self.objects.copy(there);
        let before = self.handles.put(expected, there);
        self.objects.release(before)?;
        self.objects.release(new)
    }

    fn cell_drop(&mut self) -> Result<(), AllocError> {
        let c = self.pick_cell(Wanted::Held);
        self.add(Op::CellDrop, &[Member::Number(Name::C, c)])?;
        let held = self.cells.put(c, Held::Free);
        self.objects.release(held)
    }

    // The handles that operations with this label made end.
    fn scope_end(&mut self) -> Result<(), AllocError> {
        self.add(Op::ScopeEnd, &[])?;
        for handle in 0..HANDLES {
            if self.labels.get(handle as usize) == Some(&self.label) {
                let held = self.end(handle);
                self.objects.release(held)?;
            }
        }
        Ok(())
    }
}
