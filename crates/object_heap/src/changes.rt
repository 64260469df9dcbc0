//! The changes of a state, with the counts of its slots.
ghost use Rattle.std.specs.Prelude.{◌≡◌, ◌++◌, IfOk, OnOk, []};
ghost use Rattle.std.specs.Option.{option_copied, option_map_or};
ghost use Rattle.std.specs.FinMap as map;
ghost use Rattle.trace_types.specs.declared.slots.Change.TheVariants as change;
ghost use Rattle.ownership_model.specs.State.{holding_weight, entry_weight};
ghost use Rattle.ownership_model.specs.Changes.{HasField, CanBeDone, CanChange, changed};
ghost use Rattle.ownership_model.specs.Bounds.{IsBounded, HoldingFits, AreFew, ChangeFits, ChangesFit};
ghost use Rattle.ownership_model.specs.Alike.{Covers};
ghost use Rattle.ownership_model.specs.Footprint.{moved_by, moved_by_changes};
ghost use Rattle.object_heap.specs.Counted.{drafted, IsCounted};
ghost use Rattle.object_heap.specs.NamesCounted.{AreNamesCounted};
ghost use Rattle.object_heap.specs.Gains.{Changes, CountsMore, HasRoom, HasSlots};

use crate::counting::{hold, hold_all, hold_holding, let_go, let_go_holding, let_go_object};
use crate::draft::Draft;
use crate::object::{counters_of, entry_of};
use crate::objects::Objects;
use crate::told::{tell_held, tell_holding};
use crate::updates::SetField;
use crate::weight::added;
use ownership_model::Key;
use std::alloc::{AllocError, Global};
use trace_types::sequence::Sequence;
use trace_types::slots::{Change, Entry, Holding, Slot};

impl Draft {
    /// Makes the changes in order. Where memory runs out some are made, and the draft is unspecified: let it go.
    pub fn apply(&mut self, alloc: Global, changes: &[Change]) -> Result<(), AllocError>
        requires counted { IsCounted self.old.objects.counts (drafted self.old) [] }
        requires bounded { IsBounded (drafted self.old) }
        requires can { CanChange (drafted self.old) changes.now }
        requires fits { ChangesFit changes.now }

        // What the draft holds then.
        ensures state { OnOk result (drafted self.new ≡ changed (drafted self.old) changes.now) }
        ensures counted { OnOk result (IsCounted self.new.objects.counts (drafted self.new) []) }
        ensures bounded { OnOk result (IsBounded (drafted self.new)) }
    {
        for change in changes {
            self.change(alloc, change)?;
        }
        Ok(())
    }

    /// As `apply`, and tells what each change moves or copies, but not the places that are set. Where memory runs out the keys are
    /// unspecified, too.
    pub fn apply_told(
        &mut self,
        alloc: Global,
        changes: &[Change],
        keys: &mut Vec<Key>,
    ) -> Result<(), AllocError>
        requires counted { IsCounted self.old.objects.counts (drafted self.old) [] }
        requires bounded { IsBounded (drafted self.old) }
        requires can { CanChange (drafted self.old) changes.now }
        requires fits { ChangesFit changes.now }

        // What the draft holds then, and what is told.
        ensures state { OnOk result (drafted self.new ≡ changed (drafted self.old) changes.now) }
        ensures counted { OnOk result (IsCounted self.new.objects.counts (drafted self.new) []) }
        ensures bounded { OnOk result (IsBounded (drafted self.new)) }
        ensures told { OnOk result (Covers keys.new.items
            (keys.old.items ++ moved_by_changes (drafted self.old) changes.now)) }
    {
        for change in changes {
            self.change_told(alloc, change, keys)?;
        }
        Ok(())
    }

    fn change(&mut self, alloc: Global, change: &Change) -> Result<(), AllocError>
        requires counted { IsCounted self.old.objects.counts (drafted self.old) [] }
        requires bounded { IsBounded (drafted self.old) }
        requires can { CanBeDone (drafted self.old) change.now }
        requires fits { ChangeFits change.now }
        ensures { OnOk result (Changes self.old self.new change.now) }
    {
        match change {
            Change::SetHandle(label, handle, holding) => {
                self.set_handle(alloc, *label, *handle, holding)
            }
            Change::EndHandle(handle) => self.end_handle(alloc, *handle),
            Change::SetCell(cell, slot) => self.set_cell(alloc, *cell, *slot),
            Change::EndCell(cell) => self.end_cell(alloc, *cell),
            Change::SetField(object, index, slot) => {
                self.set_field(alloc, *object, *index, *slot)
            }
            Change::Make(object, fields) => self.make(alloc, *object, fields),
            Change::TurnHusk(object) => self.turn_husk(alloc, *object),
        }
    }

    // As `change`, and tells what the change moves or copies. What stood at a handle is told as it goes, so that it isn't looked up before.
    fn change_told(
        &mut self,
        alloc: Global,
        change: &Change,
        keys: &mut Vec<Key>,
    ) -> Result<(), AllocError>
        requires counted { IsCounted self.old.objects.counts (drafted self.old) [] }
        requires bounded { IsBounded (drafted self.old) }
        requires can { CanBeDone (drafted self.old) change.now }
        requires fits { ChangeFits change.now }
        ensures made { OnOk result (Changes self.old self.new change.now) }
        ensures told { OnOk result (Covers keys.new.items
            (keys.old.items ++ moved_by (drafted self.old) change.now)) }
    {
        match change {
            Change::SetHandle(label, handle, holding) => {
                tell_holding(holding, keys)?;
                let held = self.replace_handle(alloc, *label, *handle, holding)?;
                tell_held(held.as_ref(), keys)
            }
            Change::EndHandle(handle) => {
                let held = self.take_handle(alloc, *handle)?;
                tell_held(held.as_ref(), keys)
            }
            Change::SetCell(_, _)
            | Change::EndCell(_)
            | Change::SetField(_, _, _)
            | Change::Make(_, _)
            | Change::TurnHusk(_) => {
                self.tell_change(change, keys)?;
                self.change(alloc, change)
            }
        }
    }

    #[inline(always)]
    fn set_handle(
        &mut self,
        alloc: Global,
        label: u32,
        handle: u32,
        holding: &Holding,
    ) -> Result<(), AllocError>
        requires counted { IsCounted self.old.objects.counts (drafted self.old) [] }
        requires bounded { IsBounded (drafted self.old) }
        requires fits { HoldingFits holding.now }
        ensures { OnOk result (Changes self.old self.new
            (change.SetHandle label handle holding.now)) }
    {
        let _held = self.replace_handle(alloc, label, handle, holding)?;
        Ok(())
    }

    // A handle holds this from now on, and what it held is told. What comes is counted before what goes, so that no count is ever too small.
    fn replace_handle(
        &mut self,
        alloc: Global,
        label: u32,
        handle: u32,
        holding: &Holding,
    ) -> Result<Option<Holding>, AllocError>
        requires counted { IsCounted self.old.objects.counts (drafted self.old) [] }
        requires bounded { IsBounded (drafted self.old) }
        requires fits { HoldingFits holding.now }
        ensures made { OnOk result (Changes self.old self.new
            (change.SetHandle label handle holding.now)) }
        ensures was { IfOk result (λ was. was ≡ map.get self.old.handles.holdings handle) }
    {
        hold_holding(alloc, &mut self.objects, holding)?;
        let copy = holding.clone()?;
        let held = self.handles.set(alloc, label, handle, copy)?;
        let_go_held(alloc, &mut self.objects, held.as_ref())?;
        Ok(held)
    }

    /// A handle is held no more. Where memory runs out the draft is unspecified: let it go.
    #[inline(always)]
    pub fn end_handle(&mut self, alloc: Global, handle: u32) -> Result<(), AllocError>
        requires counted { IsCounted self.old.objects.counts (drafted self.old) [] }
        requires can { CanBeDone (drafted self.old) (change.EndHandle handle) }
        ensures { OnOk result (Changes self.old self.new (change.EndHandle handle)) }
    {
        let _held = self.take_handle(alloc, handle)?;
        Ok(())
    }

    // As `end_handle`, and what it held is told.
    #[inline(always)]
    fn take_handle(&mut self, alloc: Global, handle: u32) -> Result<Option<Holding>, AllocError>
        requires counted { IsCounted self.old.objects.counts (drafted self.old) [] }
        requires can { CanBeDone (drafted self.old) (change.EndHandle handle) }
        ensures made { OnOk result (Changes self.old self.new (change.EndHandle handle)) }
        ensures was { IfOk result (λ was. was ≡ map.get self.old.handles.holdings handle) }
    {
        let held = self.handles.end(alloc, handle)?;
        let_go_held(alloc, &mut self.objects, held.as_ref())?;
        Ok(held)
    }

    /// A cell holds this from now on. What comes is counted before what goes, so that no count is ever too small. Where memory runs out the
    /// draft is unspecified: let it go.
    #[inline(always)]
    pub fn set_cell(&mut self, alloc: Global, cell: u32, slot: Slot) -> Result<(), AllocError>
        requires counted { IsCounted self.old.objects.counts (drafted self.old) [] }
        requires bounded { IsBounded (drafted self.old) }
        requires can { CanBeDone (drafted self.old) (change.SetCell cell slot) }
        ensures { OnOk result (Changes self.old self.new (change.SetCell cell slot)) }
    {
        hold(alloc, &mut self.objects, slot)?;
        let held = self.cells.get(cell);
        let part = added(cell, held);
        let_go_cell(alloc, &mut self.objects, held)?;
        self.cells.replace(alloc, cell, part, slot)
    }

    /// A cell is there no more. Where memory runs out the draft is unspecified: let it go.
    pub fn end_cell(&mut self, alloc: Global, cell: u32) -> Result<(), AllocError>
        requires counted { IsCounted self.old.objects.counts (drafted self.old) [] }
        requires can { CanBeDone (drafted self.old) (change.EndCell cell) }
        ensures { OnOk result (Changes self.old self.new (change.EndCell cell)) }
    {
        let held = self.cells.get(cell);
        let part = added(cell, held);
        let_go_cell(alloc, &mut self.objects, held)?;
        self.cells.take(alloc, cell, part)
    }

    /// A field of an object that is alive holds this from now on. What comes is counted before what goes, so that no count is ever too small.
    /// Where memory runs out the draft is unspecified: let it go.
    pub fn set_field(
        &mut self,
        alloc: Global,
        object: u32,
        index: u32,
        slot: Slot,
    ) -> Result<(), AllocError>
        requires counted { IsCounted self.old.objects.counts (drafted self.old) [] }
        requires bounded { IsBounded (drafted self.old) }
        requires can { HasField (map.get self.old.objects.entries object) index }
        ensures { OnOk result (Changes self.old self.new (change.SetField object index slot)) }
    {
        let Some(Entry::Alive(fields)) = self.objects.get(object) else {
            unreachable!()
        };
        let old = fields.as_slice()[index as usize];
        hold(alloc, &mut self.objects, slot)?;
        let_go(alloc, &mut self.objects, old)?;
        self.objects
            .set_field(alloc, object, SetField { index, slot })
    }

    fn make(
        &mut self,
        alloc: Global,
        object: u32,
        fields: &Sequence<Slot>,
    ) -> Result<(), AllocError>
        requires counted { IsCounted self.old.objects.counts (drafted self.old) [] }
        requires bounded { IsBounded (drafted self.old) }
        requires can { CanBeDone (drafted self.old) (change.Make object fields.now) }
        requires fits { AreFew fields.now }
        ensures { OnOk result (Changes self.old self.new (change.Make object fields.now)) }
    {
        rank_new(alloc, &mut self.objects, object, fields)?;
        hold_all(alloc, &mut self.objects, fields.as_slice())?;
        let copy = fields.clone()?;
        self.objects.insert(alloc, object, Entry::Alive(copy))
    }

    fn turn_husk(&mut self, alloc: Global, object: u32) -> Result<(), AllocError>
        requires counted { IsCounted self.old.objects.counts (drafted self.old) [] }
        requires can { CanBeDone (drafted self.old) (change.TurnHusk object) }
        ensures { OnOk result (Changes self.old self.new (change.TurnHusk object)) }
    {
        let_go_object(alloc, &mut self.objects, object)?;
        let kept = self.objects.kept(object);
        let part = added(object, entry_of(kept));
        let counters = counters_of(kept);
        self.objects.set_husk(alloc, object, part, counters)
    }
}

// Ranks an object that is to be made over what its fields name, where no field names it yet. Else its rank is left.
fn rank_new(
    alloc: Global,
    objects: &mut Objects,
    object: u32,
    fields: &Sequence<Slot>,
) -> Result<(), AllocError>
    requires { AreNamesCounted objects.old.counts objects.old.entries }
    ensures { objects.new ≡ objects.old }
{
    let rank = objects.rank_over(fields.as_slice());
    if rank <= object as u64 {
        return Ok(());
    }
    let counters = objects.counters(object);
    if counters.strong == 0 && counters.weak == 0 {
        objects.raise(alloc, object, rank)?;
    }
    Ok(())
}

// What a handle held, if it held anything, is counted no more.
#[inline(always)]
fn let_go_held(
    alloc: Global,
    objects: &mut Objects,
    held: Option<&Holding>,
) -> Result<(), AllocError>
    requires { HasSlots objects.old.counts (λ w.
        option_map_or (holding_weight w) (option_copied held) 0) }
    ensures counts { OnOk result (CountsMore objects.new.counts objects.old.counts
        (λ w. option_map_or (holding_weight w) (option_copied held.entry) 0)) }
    ensures entries { OnOk result (objects.new.entries ≡ objects.old.entries) }
{
    match held {
        Some(holding) => let_go_holding(alloc, objects, holding),
        None => Ok(()),
    }
}

// What a cell held, if there was one, is counted no more.
fn let_go_cell(alloc: Global, objects: &mut Objects, held: Option<&Slot>) -> Result<(), AllocError>
    requires { HasSlots objects.old.counts (λ w. option_map_or w (option_copied held) 0) }
    ensures counts { OnOk result (CountsMore objects.new.counts objects.old.counts
        (λ w. option_map_or w (option_copied held.entry) 0)) }
    ensures entries { OnOk result (objects.new.entries ≡ objects.old.entries) }
{
    match held {
        Some(slot) => let_go(alloc, objects, *slot),
        None => Ok(()),
    }
}
