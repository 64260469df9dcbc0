//! Small heaps that a release makes of nothing, and what becomes of their objects.
ghost use Rattle.std.specs.Prelude.{◌≡◌, IfOk};
ghost use Rattle.ownership_model.specs.State.{nothing_held, IsSound};
ghost use Rattle.ownership_model.specs.Changes.{changed, CanChange};
ghost use Rattle.ownership_model.specs.Bounds.{ChangesFit};
ghost use Rattle.ownership_model.proofs.WorkedReleases as Worked;

use object_heap::Heap;
use std::alloc::{AllocError, Global};
use std::test::Fail;
use trace_types::outcomes::Event;
use trace_types::sequence::Sequence;
use trace_types::slots::{Change, Holding, Item, Slot};

// What changes make of nothing, when the items were dropped.
fn made(
    alloc: Global,
    changes: &[Change],
    pending: &[Item],
) -> Result<(Heap, Sequence<Event>), AllocError>
    requires can { CanChange nothing_held changes.now }
    requires fits { ChangesFit changes.now }
    requires sound { IsSound (changed nothing_held changes.now) pending.now }
{
    Heap::empty().release(alloc, changes, pending)
}

fn slots(alloc: Global, slots: &[Slot]) -> Result<Sequence<Slot>, AllocError>
    ensures { IfOk result (λ s. s ≡ slots.now) }
{
    Ok(Sequence::from_vec(Vec::from_slice(alloc, slots)?))
}

fn pair(alloc: Global) -> Result<Vec<Change>, AllocError>
    ensures { IfOk result (λ v. v.items ≡ Worked.pair) }
{
    let first = slots(alloc, &[Slot::Strong(2)])?;
    let second = slots(alloc, &[Slot::Strong(1)])?;
    Ok(vec![in alloc; Change::Make(1, first), Change::Make(2, second)]?)
}

fn nested(alloc: Global) -> Result<Vec<Change>, AllocError>
    ensures { IfOk result (λ v. v.items ≡ Worked.nested) }
{
    let second = slots(alloc, &[Slot::Strong(1)])?;
    let sixth = slots(alloc, &[Slot::Strong(2), Slot::Weak(3), Slot::Strong(5)])?;
    Ok(vec![in alloc;
        Change::Make(1, Sequence::empty(alloc)),
        Change::Make(2, second),
        Change::Make(3, Sequence::empty(alloc)),
        Change::Make(5, Sequence::empty(alloc)),
        Change::Make(6, sixth),
        Change::SetHandle(0, 2, Holding::Slot(Slot::Strong(3))),
    ]?)
}

fn own_weak(alloc: Global) -> Result<Vec<Change>, AllocError>
    ensures { IfOk result (λ v. v.items ≡ Worked.own_weak) }
{
    let fields = slots(alloc, &[Slot::Weak(1)])?;
    Ok(vec![in alloc; Change::Make(1, fields)]?)
}

fn husk(alloc: Global) -> Result<Vec<Change>, AllocError>
    ensures { IfOk result (λ v. v.items ≡ Worked.husk) }
{
    Ok(vec![in alloc;
        Change::Make(1, Sequence::empty(alloc)),
        Change::TurnHusk(1),
        Change::SetHandle(0, 0, Holding::Slot(Slot::Weak(1))),
    ]?)
}

#[test]
fn pair_stays(rt: HostRuntime) -> Result<(), Fail> {
    let alloc = rt.alloc();
    let changes = pair(alloc)?;
    let (heap, events) = made(alloc, changes.as_slice(), &[])?;
    assert_eq!(rt; events.len(), 0);
    assert_eq!(rt; heap.objects(alloc)?.len(), 2);
    assert_eq!(rt; heap.strong(1), 1);
    assert_eq!(rt; heap.strong(2), 1);
    Ok(())
}

#[test]
fn fields_fall_in_order(rt: HostRuntime) -> Result<(), Fail> {
    let alloc = rt.alloc();
    let changes = nested(alloc)?;
    let pending = [Item::Slot(Slot::Strong(6))];
    let (heap, events) = made(alloc, changes.as_slice(), &pending)?;
    let wanted = [
        Event::Destroyed(6),
        Event::Destroyed(2),
        Event::Destroyed(1),
        Event::Freed(1),
        Event::Freed(2),
        Event::Destroyed(5),
        Event::Freed(5),
        Event::Freed(6),
    ];
    assert!(rt; events.as_slice() == wanted.as_slice());
    assert_eq!(rt; heap.objects(alloc)?.len(), 1);
    assert_eq!(rt; heap.strong(3), 1);
    assert_eq!(rt; heap.weak(3), 0);
    Ok(())
}

#[test]
fn own_weak_falls(rt: HostRuntime) -> Result<(), Fail> {
    let alloc = rt.alloc();
    let changes = own_weak(alloc)?;
    let pending = [Item::Slot(Slot::Strong(1))];
    let (heap, events) = made(alloc, changes.as_slice(), &pending)?;
    let wanted = [Event::Destroyed(1), Event::Freed(1)];
    assert!(rt; events.as_slice() == wanted.as_slice());
    assert!(rt; heap.same(&Heap::empty()));
    Ok(())
}

#[test]
fn husk_stays(rt: HostRuntime) -> Result<(), Fail> {
    let alloc = rt.alloc();
    let changes = husk(alloc)?;
    let (heap, events) = made(alloc, changes.as_slice(), &[])?;
    assert_eq!(rt; events.len(), 0);
    assert_eq!(rt; heap.weak(1), 1);
    assert_eq!(rt; heap.strong(1), 0);
    Ok(())
}
