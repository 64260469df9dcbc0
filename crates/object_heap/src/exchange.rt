//! Objects that go from a state and others that come, with the counts of its slots.
ghost use Rattle.std.specs.Prelude.{◌≡◌, ◌≤◌, [], OnOk};
ghost use Rattle.std.specs.FinMap as map;
ghost use Rattle.trace_types.specs.declared.limits.TheConstants.{MAX_ID};
ghost use Rattle.ownership_model.specs.Bounds.{IsBounded, EntryFits};
ghost use Rattle.ownership_model.specs.Patch.{patched};
ghost use Rattle.object_heap.specs.Counted.{drafted, IsCounted};
ghost use Rattle.object_heap.specs.Exchange.{AreWithinLimits, without_keys, with_keys, PutsIn, TakesOut};

use crate::counting::{hold_entry, let_go_object};
use crate::draft::Draft;
use ownership_model::remaining::Remaining;
use share_tree::ShareTree;
use std::alloc::{AllocError, Global};
use trace_types::slots::Entry;

impl Draft {
    /// Objects go, and others come. Where memory runs out the draft is unspecified: let it go.
    pub fn exchange(
        &mut self,
        alloc: Global,
        removed: &ShareTree<Remaining>,
        added: &ShareTree<Remaining>,
    ) -> Result<(), AllocError>
        requires counted { IsCounted self.old.objects.counts (drafted self.old) [] }
        requires bounded { IsBounded (drafted self.old) }
        requires fits { AreWithinLimits added.now }
        ensures state { OnOk result (drafted self.new ≡ patched (drafted self.old) (record {
          removed = removed.now;
          added = added.now;
        })) }
        ensures counted { OnOk result (IsCounted self.new.objects.counts (drafted self.new) []) }
        ensures bounded { OnOk result (IsBounded (drafted self.new)) }
    {
        self.take_out_all(alloc, removed)?;
        self.put_in_all(alloc, added)
    }

    fn take_out_all(
        &mut self,
        alloc: Global,
        removed: &ShareTree<Remaining>,
    ) -> Result<(), AllocError>
        requires counted { IsCounted self.old.objects.counts (drafted self.old) [] }
        requires bounded { IsBounded (drafted self.old) }
        ensures state { OnOk result (drafted self.new
            ≡ without_keys (map.keys removed.now) (drafted self.old)) }
        ensures counted { OnOk result (IsCounted self.new.objects.counts (drafted self.new) []) }
        ensures bounded { OnOk result (IsBounded (drafted self.new)) }
    {
        let keys = removed.keys(alloc)?;
        self.take_out_each(alloc, &keys)
    }

    /// These objects go, one after another. Where memory runs out the draft is unspecified: let it go.
    pub fn take_out_each(&mut self, alloc: Global, objects: &[u32]) -> Result<(), AllocError>
        requires counted { IsCounted self.old.objects.counts (drafted self.old) [] }
        requires bounded { IsBounded (drafted self.old) }
        ensures state { OnOk result (drafted self.new
            ≡ without_keys objects.now (drafted self.old)) }
        ensures counted { OnOk result (IsCounted self.new.objects.counts (drafted self.new) []) }
        ensures bounded { OnOk result (IsBounded (drafted self.new)) }
    {
        for object in objects {
            self.take_out(alloc, *object)?;
        }
        Ok(())
    }

    fn put_in_all(&mut self, alloc: Global, added: &ShareTree<Remaining>) -> Result<(), AllocError>
        requires counted { IsCounted self.old.objects.counts (drafted self.old) [] }
        requires bounded { IsBounded (drafted self.old) }
        requires fits { AreWithinLimits added.now }
        ensures state { OnOk result (drafted self.new
            ≡ with_keys added.now (map.keys added.now) (drafted self.old)) }
        ensures counted { OnOk result (IsCounted self.new.objects.counts (drafted self.new) []) }
        ensures bounded { OnOk result (IsBounded (drafted self.new)) }
    {
        let keys = added.keys(alloc)?;
        for key in &keys {
            if let Some(remaining) = added.get(*key) {
                self.put_in(alloc, *key, &remaining.entry)?;
            }
        }
        Ok(())
    }

    /// An object goes. Where memory runs out the draft is unspecified: let it go.
    pub fn take_out(&mut self, alloc: Global, object: u32) -> Result<(), AllocError>
        requires counted { IsCounted self.old.objects.counts (drafted self.old) [] }
        requires bounded { IsBounded (drafted self.old) }
        ensures { OnOk result (TakesOut self.old self.new object) }
    {
        let_go_object(alloc, &mut self.objects, object)?;
        self.objects.remove(alloc, object)
    }

    /// An object comes, whatever stood there. What comes is counted before what goes, so that no count is ever too small. Where memory runs
    /// out the draft is unspecified: let it go.
    pub fn put_in(&mut self, alloc: Global, object: u32, entry: &Entry) -> Result<(), AllocError>
        requires counted { IsCounted self.old.objects.counts (drafted self.old) [] }
        requires bounded { IsBounded (drafted self.old) }
        requires few { EntryFits entry.now }
        requires within { object ≤ MAX_ID }
        ensures { OnOk result (PutsIn self.old self.new object entry.now) }
    {
        hold_entry(alloc, &mut self.objects, entry)?;
        let_go_object(alloc, &mut self.objects, object)?;
        let copy = entry.clone()?;
        self.objects.insert(alloc, object, copy)
    }
}
