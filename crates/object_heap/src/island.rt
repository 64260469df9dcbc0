//! Objects that only their own fields name.
ghost use Rattle.std.specs.Prelude.{◌≡◌, [], IfOk, IsTrue, not};
ghost use Rattle.std.specs.FinMap as map;
ghost use Rattle.std.specs.List.{list_all};
ghost use Rattle.ownership_model.specs.Bounds.{IsBounded};
ghost use Rattle.ownership_model.specs.declared.link.Link.TheVariants.{StrongOrWeak};
ghost use Rattle.ownership_model.specs.Reach.{has, IsClosed};
ghost use Rattle.object_heap.specs.Counted.{drafted, IsCounted};
ghost use Rattle.object_heap.specs.Exchange.{without_keys};
ghost use Rattle.object_heap.specs.TableView.{are_zero, counters_at};

use crate::draft::Draft;
use std::alloc::{AllocError, Global};

impl Draft {
    /// Whether nothing but fields of these objects names any of them. One may be listed twice, or not stand at all.
    ///
    /// They are taken out of a share: what is still counted for them then names them from outside.
    pub fn is_island(&self, alloc: Global, objects: &[u32]) -> Result<bool, AllocError>
        requires counted { IsCounted self.now.objects.counts (drafted self.now) [] }
        requires bounded { IsBounded (drafted self.now) }
        ensures { IfOk result (λ b. IsTrue b → IsClosed StrongOrWeak (drafted self.now)
            (λ o. not (has o objects.now))) }
    {
        let rest = self.without(alloc, objects)?;
        Ok(rest.counts_none(objects))
    }

    // The same without these objects.
    fn without(&self, alloc: Global, objects: &[u32]) -> Result<Draft, AllocError>
        requires counted { IsCounted self.now.objects.counts (drafted self.now) [] }
        requires bounded { IsBounded (drafted self.now) }
        ensures { IfOk result (λ d. IsCounted d.objects.counts
            (without_keys objects.now (drafted self.now)) []) }
    {
        let mut rest = self.share()?;
        rest.take_out_each(alloc, objects)?;
        Ok(rest)
    }

    // Whether all their counters are zero.
    fn counts_none(&self, objects: &[u32]) -> bool
        ensures { result ≡ list_all (λ o. are_zero
            (counters_at (map.get self.now.objects.counts o))) objects.now }
    {
        objects
            .iter()
            .all(|object| self.objects.counters(*object).are_zero())
    }
}
