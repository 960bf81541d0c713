//! Keys that are put, found and taken away, in trees with room for a few.

ghost use Rattle.std.specs.Prelude.{◌≡◌, IfOk};

use key_tree::KeyTree;
use std::alloc::{AllocError, Global};
use std::test::Fail;

/// Puts a number under a key of a tree with room for four, and answers whether one more had room.
fn puts(tree: &mut KeyTree, key: u64, number: usize) -> bool
    requires { tree.old.capacity ≡ 4 }
    ensures { tree.new.capacity ≡ 4 }
{
    if tree.len() < 4 {
        tree.put(key, number);
        return true;
    }
    false
}

/// A tree with room for four keys, in which 5, the greatest key and 0 were put, and 5 once more.
fn three_keys(alloc: Global) -> Result<KeyTree, AllocError>
    ensures { IfOk result (λ tree. tree.capacity ≡ 4) }
{
    let mut tree = KeyTree::new(alloc, 4)?;
    puts(&mut tree, 5, 50);
    puts(&mut tree, u64::MAX, 60);
    puts(&mut tree, 0, 70);
    puts(&mut tree, 5, 80);
    Ok(tree)
}

#[test]
fn a_key_has_the_number_that_was_put_last(rt: HostRuntime) -> Result<(), Fail> {
    let tree = three_keys(rt.alloc())?;
    assert_eq!(rt; tree.get(0), Some(70));
    assert_eq!(rt; tree.get(5), Some(80));
    assert_eq!(rt; tree.get(u64::MAX), Some(60));
    assert_eq!(rt; tree.get(1), None);
    assert_eq!(rt; tree.len(), 3);
    Ok(())
}

#[test]
fn a_key_that_is_taken_is_gone(rt: HostRuntime) -> Result<(), Fail> {
    let mut tree = three_keys(rt.alloc())?;
    assert_eq!(rt; tree.take(5), Some(80));
    assert_eq!(rt; tree.take(5), None);
    assert_eq!(rt; tree.get(5), None);
    assert_eq!(rt; (tree.get(0), tree.get(u64::MAX)), (Some(70), Some(60)));
    assert_eq!(rt; tree.len(), 2);
    Ok(())
}

#[test]
fn a_full_tree_has_room_again_once_a_key_is_taken(rt: HostRuntime) -> Result<(), Fail> {
    let mut tree = three_keys(rt.alloc())?;
    assert!(rt; puts(&mut tree, 2, 90));
    assert_eq!(rt; tree.len(), 4);
    assert!(rt; !puts(&mut tree, 3, 100));
    assert_eq!(rt; tree.take(0), Some(70));
    assert!(rt; puts(&mut tree, 3, 100));
    assert_eq!(rt; (tree.get(2), tree.get(3)), (Some(90), Some(100)));
    Ok(())
}

#[test]
fn a_tree_without_room_has_no_keys(rt: HostRuntime) -> Result<(), Fail> {
    let mut tree = KeyTree::new(rt.alloc(), 0)?;
    assert_eq!(rt; tree.len(), 0);
    assert_eq!(rt; tree.get(0), None);
    assert_eq!(rt; tree.take(0), None);
    Ok(())
}

/// Puts a number under a key of a tree that is given room for it.
fn grows(tree: &mut KeyTree, key: u64, number: usize) -> Result<(), AllocError> {
    tree.reserve()?;
    tree.put(key, number);
    Ok(())
}

#[test]
fn a_tree_is_given_room_key_by_key(rt: HostRuntime) -> Result<(), Fail> {
    let mut tree = KeyTree::empty(rt.alloc());
    grows(&mut tree, 5, 50)?;
    grows(&mut tree, 7, 70)?;
    grows(&mut tree, 5, 80)?;
    assert_eq!(rt; (tree.get(5), tree.get(7)), (Some(80), Some(70)));
    assert_eq!(rt; tree.len(), 2);
    Ok(())
}
