//! What leaks in small heaps that a release makes of nothing.
ghost use Rattle.std.specs.Prelude.{◌≡◌, [], IfOk};
ghost use Rattle.ownership_model.specs.State.{nothing_held, IsSound};
ghost use Rattle.ownership_model.specs.Changes.{changed, CanChange};
ghost use Rattle.ownership_model.specs.Bounds.{ChangesFit};
ghost use Rattle.ownership_model.proofs.WorkedReleases as Worked;

use leak_report::find_leaks;
use object_heap::Heap;
use ownership_model::{Holder, HuskLeft, Leak};
use std::alloc::{AllocError, Global};
use std::process::Abort;
use std::test::Fail;
use trace_types::sequence::Sequence;
use trace_types::slots::{Change, Holding, Slot};

// What changes make of nothing.
fn made(alloc: Global, changes: &[Change]) -> Result<Heap, AllocError>
    requires can { CanChange nothing_held changes.now }
    requires fits { ChangesFit changes.now }
    requires sound { IsSound (changed nothing_held changes.now) [] }
{
    let (heap, _) = Heap::empty().release(alloc, changes, &[])?;
    Ok(heap)
}

fn pair(alloc: Global) -> Result<Vec<Change>, AllocError>
    ensures { IfOk result (λ v. v.items ≡ Worked.pair) }
{
    let first = Sequence::from_vec(Vec::from_slice(alloc, &[Slot::Strong(2)])?);
    let second = Sequence::from_vec(Vec::from_slice(alloc, &[Slot::Strong(1)])?);
    Ok(vec![in alloc; Change::Make(1, first), Change::Make(2, second)]?)
}

fn husk(alloc: Global) -> Result<Vec<Change>, AllocError>
    ensures { IfOk result (λ v. v.items ≡ Worked.husk) }
{
    Ok(vec![in alloc;
        Change::Make(1, Sequence::empty(alloc)),
        Change::TurnHusk(1),
        Change::SetHandle(0, 0, Holding::Slot(Slot::Weak(1))),
    ]?)
}

// The leak is of this object, which field 0 of the other holds.
fn assert_held_by(rt: &impl Abort, leak: Option<&Leak>, object: u32, other: u32) {
    let holder = Holder {
        object: other,
        field: 0,
    };
    match leak {
        None => assert!(rt; false),
        Some(leak) => {
            assert_eq!(rt; leak.object, object);
            assert!(rt; leak.holders.as_slice() == [holder].as_slice());
        }
    }
}

#[test]
fn pair_leaks(rt: HostRuntime) -> Result<(), Fail> {
    let alloc = rt.alloc();
    let changes = pair(alloc)?;
    let heap = made(alloc, changes.as_slice())?;
    let leaks = find_leaks(alloc, &heap)?;
    assert_eq!(rt; leaks.leaked.len(), 2);
    assert_held_by(&rt, leaks.leaked.as_slice().first(), 1, 2);
    assert_held_by(&rt, leaks.leaked.as_slice().last(), 2, 1);
    assert_eq!(rt; leaks.husks.len(), 0);
    Ok(())
}

#[test]
fn husk_is_left(rt: HostRuntime) -> Result<(), Fail> {
    let alloc = rt.alloc();
    let changes = husk(alloc)?;
    let heap = made(alloc, changes.as_slice())?;
    let leaks = find_leaks(alloc, &heap)?;
    assert_eq!(rt; leaks.leaked.len(), 0);
    let left = HuskLeft { object: 1, weak: 1 };
    assert!(rt; leaks.husks.as_slice() == [left].as_slice());
    Ok(())
}
