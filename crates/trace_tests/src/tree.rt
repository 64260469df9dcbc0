//! What no clause says: that each call succeeds, and that a tree goes on where memory was refused once.
ghost use Rattle.std.specs.Prelude.{⊤, ◌==◌};

use share_tree::{ShareTree, Update};
use std::alloc::{AllocError, Global};
use std::process::Abort;
use std::test::Fail;
use trace_types::same::Same;

#[derive(Drop)]
struct Number(u32);

impl Same for Number {
    fn same(&self, other: &Self) -> bool {
        self.0 == other.0
    }
}

// This in the place of a number. It answers whether it was there before.
#[derive(Drop)]
struct Put(u32);

impl Update<Number> for Put {
    ghost can = { λ _ _. ⊤ };

    ghost to = { λ put _. record { 0 = put.0 } };

    ghost answer = { λ put number. number.0 == put.0 };

    fn update(&self, _alloc: Global, number: &mut Number) -> Result<bool, AllocError> {
        let was = number.0;
        number.0 = self.0;
        Ok(was == self.0)
    }

    fn updated(&self, _alloc: Global, number: &Number) -> Result<(Number, bool), AllocError> {
        Ok((Number(self.0), number.0 == self.0))
    }
}

fn tree_of(alloc: Global, keys: &[u32]) -> Result<ShareTree<Number>, AllocError> {
    let mut tree = ShareTree::<Number>::empty();
    for key in keys {
        tree = tree.with(alloc, *key, Number(key.wrapping_mul(10)))?;
    }
    Ok(tree)
}

fn number_at(tree: &ShareTree<Number>, key: u32) -> Option<u32> {
    match tree.get(key) {
        Some(number) => Some(number.0),
        None => None,
    }
}

// The keys, rising.
fn has_keys(alloc: Global, tree: &ShareTree<Number>, keys: &[u32]) -> Result<bool, AllocError> {
    Ok(tree.keys(alloc)?.as_slice() == keys)
}

// A tree of keys 5 and 3 stays as it is while one without 5 is made of it.
fn assert_stays(rt: &impl Abort, alloc: Global, a: &ShareTree<Number>) -> Result<(), Fail> {
    let b = a.without(alloc, 5)?;
    assert!(rt; has_keys(alloc, &b, &[3])?);
    assert!(rt; has_keys(alloc, a, &[3, 5])?);
    assert_eq!(rt; number_at(a, 5), Some(50));
    assert!(rt; !a.same(&b));
    Ok(())
}

#[test]
fn persistent_map(rt: HostRuntime) -> Result<(), Fail> {
    let a = tree_of(rt.alloc(), &[5, 3])?;
    assert!(rt; has_keys(rt.alloc(), &a, &[3, 5])?);
    assert_stays(&rt, rt.alloc(), &a)?;
    assert!(rt; a.same(&tree_of(rt.alloc(), &[3, 5])?));
    Ok(())
}

// A map that had a higher key is searched through more levels, and is the same map still.
#[test]
fn maps_of_other_heights_are_the_same(rt: HostRuntime) -> Result<(), Fail> {
    let alloc = rt.alloc();
    let five = tree_of(alloc, &[5])?;
    let six = tree_of(alloc, &[6])?;
    for high in [7, 300, 1_048_576] {
        let grown = tree_of(alloc, &[5, high])?.without(alloc, high)?;
        assert!(rt; five.same(&grown));
        assert!(rt; grown.same(&five));
        assert!(rt; !six.same(&grown));
        assert!(rt; !grown.same(&six));
    }
    Ok(())
}

// The tree of keys 1, 2, 4 and 300 changes, and a share of it stands.
fn assert_share_stands(
    rt: &impl Abort,
    alloc: Global,
    tree: &mut ShareTree<Number>,
    share: &ShareTree<Number>,
) -> Result<(), Fail> {
    tree.insert(alloc, 2, Number(7))?;
    tree.remove(alloc, 300)?;
    tree.remove(alloc, 9)?;
    assert!(rt; has_keys(alloc, tree, &[1, 2, 4])?);
    assert_eq!(rt; number_at(tree, 2), Some(7));
    assert!(rt; has_keys(alloc, share, &[1, 2, 4, 300])?);
    assert_eq!(rt; number_at(share, 2), Some(20));
    assert_eq!(rt; share.len(), 4);
    assert_eq!(rt; tree.len(), 3);
    Ok(())
}

#[test]
fn share_stands_while_the_other_changes(rt: HostRuntime) -> Result<(), Fail> {
    let mut tree = tree_of(rt.alloc(), &[1, 2, 300])?;
    tree.insert(rt.alloc(), 4, Number(4))?;
    let share = tree.share()?;
    assert_share_stands(&rt, rt.alloc(), &mut tree, &share)
}

// Puts a number in the place of another one. The tree tells whether it was there before, and then it is there.
fn assert_put(
    rt: &impl Abort,
    alloc: Global,
    tree: &mut ShareTree<Number>,
    key: u32,
    number: u32,
    was_there: bool,
) -> Result<(), Fail> {
    assert_eq!(rt; tree.update(alloc, key, &Put(number))?, was_there);
    assert_eq!(rt; number_at(tree, key), Some(number));
    Ok(())
}

// Where nothing is, nothing is changed.
fn assert_put_at_nothing(
    rt: &impl Abort,
    alloc: Global,
    tree: &mut ShareTree<Number>,
) -> Result<(), Fail> {
    assert!(rt; !tree.update(alloc, 9, &Put(7))?);
    assert!(rt; has_keys(alloc, tree, &[1, 2, 300])?);
    Ok(())
}

// The same while a share holds what the tree does.
fn assert_put_beside_a_share(
    rt: &impl Abort,
    alloc: Global,
    tree: &mut ShareTree<Number>,
    share: &ShareTree<Number>,
) -> Result<(), Fail> {
    assert_put(rt, alloc, tree, 2, 7, true)?;
    assert_put(rt, alloc, tree, 300, 8, false)?;
    assert_put_at_nothing(rt, alloc, tree)?;
    assert_eq!(rt; number_at(share, 300), Some(3000));
    assert_eq!(rt; share.len(), 3);
    Ok(())
}

#[test]
fn update_changes_what_is_there(rt: HostRuntime) -> Result<(), Fail> {
    let mut tree = tree_of(rt.alloc(), &[1, 2, 300])?;
    assert_put(&rt, rt.alloc(), &mut tree, 2, 7, false)?;
    assert_put(&rt, rt.alloc(), &mut tree, 2, 7, true)?;
    assert_put_at_nothing(&rt, rt.alloc(), &mut tree)?;
    let share = tree.share()?;
    assert_put_beside_a_share(&rt, rt.alloc(), &mut tree, &share)
}

#[test]
fn walk_rises_to_the_greatest_key(rt: HostRuntime) -> Result<(), Fail> {
    let keys = [0, 15, 16, 4096, 65536, u32::MAX];
    let tree = tree_of(rt.alloc(), &keys)?;
    let mut last = None;
    for key in keys {
        match tree.next_after(last) {
            Some((found, number)) => {
                assert_eq!(rt; found, key);
                assert_eq!(rt; number.0, key.wrapping_mul(10));
            }
            None => assert!(rt; false),
        }
        last = Some(key);
    }
    assert!(rt; tree.next_after(last).is_none());
    Ok(())
}

// Puts a number in. Where memory is refused, the tree stays as it was, and the same call goes well afterwards.
fn insert_at_last(
    rt: &impl Abort,
    alloc: Global,
    tree: &mut ShareTree<Number>,
    key: u32,
    number: u32,
) -> Result<(), Fail> {
    let len = tree.len();
    if tree.insert(alloc, key, Number(number)).is_err() {
        assert_eq!(rt; tree.len(), len);
        assert!(rt; !tree.contains_key(key));
        tree.insert(alloc, key, Number(number))?;
    }
    Ok(())
}

// Puts 50 in the place of a number, in the same way.
fn update_at_last(
    rt: &impl Abort,
    alloc: Global,
    tree: &mut ShareTree<Number>,
    key: u32,
    number: u32,
) -> Result<(), Fail> {
    if tree.update(alloc, key, &Put(50)).is_err() {
        assert_eq!(rt; number_at(tree, key), Some(number));
        tree.update(alloc, key, &Put(50))?;
    }
    Ok(())
}

// Takes a number out, in the same way.
fn remove_at_last(
    rt: &impl Abort,
    alloc: Global,
    tree: &mut ShareTree<Number>,
    key: u32,
    number: u32,
) -> Result<(), Fail> {
    if tree.remove(alloc, key).is_err() {
        assert_eq!(rt; number_at(tree, key), Some(number));
        tree.remove(alloc, key)?;
    }
    Ok(())
}

// A key far from the one before.
fn far_key(i: u32) -> u32 {
    i.wrapping_mul(2654435761) % 4099
}

// Puts forty numbers in, far from one another. The share is the tree as it was with 33.
fn fill_far(
    rt: &impl Abort,
    alloc: Global,
    tree: &mut ShareTree<Number>,
    share: &mut ShareTree<Number>,
) -> Result<(), Fail> {
    for i in 0..40u32 {
        insert_at_last(rt, alloc, tree, far_key(i), i)?;
        if i % 8 == 0 {
            *share = tree.share()?;
        }
    }
    assert_eq!(rt; tree.len(), 40);
    assert_eq!(rt; share.len(), 33);
    Ok(())
}

// Changes all forty, and then takes them out.
fn empty_far(rt: &impl Abort, alloc: Global, tree: &mut ShareTree<Number>) -> Result<(), Fail> {
    for i in 0..40u32 {
        update_at_last(rt, alloc, tree, far_key(i), i)?;
    }
    for i in 0..40u32 {
        remove_at_last(rt, alloc, tree, far_key(i), 50)?;
    }
    assert_eq!(rt; tree.len(), 0);
    Ok(())
}

// With each allocation refused in turn (`tools/refused_memory/run`) each refusal meets one call here, which leaves
// the tree as it was, and which is then made again.
#[test]
fn refused_memory_leaves_the_tree(rt: HostRuntime) -> Result<(), Fail> {
    let mut tree = ShareTree::<Number>::empty();
    let mut share = tree.share()?;
    fill_far(&rt, rt.alloc(), &mut tree, &mut share)?;
    empty_far(&rt, rt.alloc(), &mut tree)?;
    assert_eq!(rt; share.len(), 33);
    Ok(())
}

// One of 48 keys side by side.
fn near_key(i: u32) -> u32 {
    i.wrapping_mul(7) % 48
}

// Puts 48 numbers in, side by side. The share is the tree as it was with 37.
fn fill_near(
    rt: &impl Abort,
    alloc: Global,
    tree: &mut ShareTree<Number>,
    share: &mut ShareTree<Number>,
) -> Result<(), Fail> {
    for i in 0..48u32 {
        insert_at_last(rt, alloc, tree, near_key(i), i)?;
        if i % 12 == 0 {
            *share = tree.share()?;
        }
    }
    assert_eq!(rt; tree.len(), 48);
    assert_eq!(rt; share.len(), 37);
    Ok(())
}

// Takes forty of them out.
fn empty_near(rt: &impl Abort, alloc: Global, tree: &mut ShareTree<Number>) -> Result<(), Fail> {
    for i in 0..40u32 {
        remove_at_last(rt, alloc, tree, near_key(i), i)?;
    }
    assert_eq!(rt; tree.len(), 8);
    Ok(())
}

// The same for keys side by side, so that a node over leaves is copied with a few of them and gets more.
#[test]
fn refused_memory_leaves_neighbours(rt: HostRuntime) -> Result<(), Fail> {
    let mut tree = ShareTree::<Number>::empty();
    let mut share = tree.share()?;
    fill_near(&rt, rt.alloc(), &mut tree, &mut share)?;
    share = tree.share()?;
    empty_near(&rt, rt.alloc(), &mut tree)?;
    assert_eq!(rt; share.len(), 48);
    Ok(())
}

// With each allocation refused in turn each refusal meets an insertion: a removal from a map that nobody shares asks for no memory.
#[test]
fn removal_asks_for_no_memory(rt: HostRuntime) -> Result<(), Fail> {
    let alloc = rt.alloc();
    let mut tree = ShareTree::<Number>::empty();
    for i in 0..48u32 {
        let key = if i % 3 == 0 { i * 1000 } else { i };
        if tree.insert(alloc, key, Number(i)).is_err() {
            tree.insert(alloc, key, Number(i))?;
        }
    }
    assert_eq!(rt; tree.len(), 48);
    for i in 0..48u32 {
        tree.remove(alloc, if i % 3 == 0 { i * 1000 } else { i })?;
    }
    assert_eq!(rt; tree.len(), 0);
    Ok(())
}
