//! Slices that are put in, read and cut away.

use crate::*;
use fill_text::NoMemory;
use std::test::Fail;

/// Puts the pairs of a number and the next one at the end.
fn add_pairs(pool: &mut Pool<u32>, from: u32, to: u32) -> Result<(), NoMemory> {
    for i in from..to {
        let _span = pool.append(&[i, i + 1])?;
    }
    Ok(())
}

/// Whether the pool has the slice at the place.
fn has(pool: &Pool<u32>, number: usize, items: &[u32]) -> bool {
    if number >= pool.len() {
        return false;
    }
    pool.slice(Span::at(number)) == items
}

/// Whether the first slices of the pool are those pairs, from 0 on.
fn has_pairs(pool: &Pool<u32>, count: u32) -> bool {
    for i in 0..count {
        if !has(pool, i as usize, &[i, i + 1]) {
            return false;
        }
    }
    true
}

/// Cuts the pool back, unless the mark is past its end.
fn cut_back<T: Copy>(pool: &mut Pool<T>, mark: PoolMark) -> bool {
    if mark.count() > pool.len() {
        return false;
    }
    pool.cut(mark);
    true
}

/// Puts 5,000 pairs in, and gives the mark after the first 100.
fn add_marked(pool: &mut Pool<u32>) -> Result<PoolMark, NoMemory> {
    add_pairs(pool, 0, 100)?;
    let mark = pool.mark();
    add_pairs(pool, 100, 5_000)?;
    Ok(mark)
}

/// Whether a slice that comes after a cut back stands behind the first 100 pairs.
fn goes_on(pool: &mut Pool<u32>, mark: PoolMark) -> Result<bool, NoMemory> {
    if !cut_back(pool, mark) {
        return Ok(false);
    }
    let _span = pool.append(&[7])?;
    Ok(pool.len() == 101 && has_pairs(pool, 100) && has(pool, 100, &[7]))
}

#[test]
fn a_cut_back_over_chunks(rt: HostRuntime) -> Result<(), Fail> {
    let mut pool = Pool::new(rt.alloc());
    let mark = add_marked(&mut pool)?;
    assert!(rt; pool.len() == 5_000 && has_pairs(&pool, 5_000));
    assert!(rt; goes_on(&mut pool, mark)?);
    Ok(())
}

/// Whether an empty slice counts as the others do, before and after a cut.
fn keeps_empty(pool: &mut Pool<u32>) -> Result<bool, NoMemory> {
    let first = pool.append(&[1, 2, 3])?;
    let second = pool.append(&[])?;
    let mark = pool.mark();
    let _third = pool.append(&[4])?;
    let has_third = has(pool, 2, &[4]);
    pool.cut(mark);
    Ok(
        has_third
            && pool.slice(first) == [1, 2, 3].as_slice()
            && pool.slice(second) == [].as_slice()
            && pool.len() == 2,
    )
}

#[test]
fn an_empty_slice_is_one(rt: HostRuntime) -> Result<(), Fail> {
    let mut pool = Pool::new(rt.alloc());
    assert!(rt; keeps_empty(&mut pool)?);
    Ok(())
}

fn keeps_long(pool: &mut Pool<i32>) -> Result<bool, NoMemory> {
    let first = pool.append(&[1])?;
    let long = pool.append(&[2; 3_000])?;
    let last = pool.append(&[3])?;
    Ok(
        pool.slice(first) == [1].as_slice()
            && pool.slice(long) == [2; 3_000].as_slice()
            && pool.slice(last) == [3].as_slice(),
    )
}

#[test]
fn a_slice_longer_than_a_chunk(rt: HostRuntime) -> Result<(), Fail> {
    let mut pool = Pool::new(rt.alloc());
    assert!(rt; keeps_long(&mut pool)?);
    Ok(())
}

#[derive(Clone, Copy, Debug, PartialEq)]
enum Item {
    Empty,
    Number(i32),
    Pair(u8, u64),
}

fn keeps_items(pool: &mut Pool<Item>) -> Result<bool, NoMemory> {
    let items = [Item::Number(-1), Item::Empty, Item::Pair(2, 3)];
    let all = pool.append(&items)?;
    let two = pool.append(&items[1..])?;
    Ok(pool.slice(all) == items.as_slice() && pool.slice(two) == &items[1..])
}

fn keeps_units(pool: &mut Pool<()>) -> Result<bool, NoMemory> {
    let many = pool.append(&[(); 5_000])?;
    let none = pool.append(&[])?;
    Ok(pool.slice(many).len() == 5_000 && pool.slice(none).len() == 0)
}

#[test]
fn items_of_other_types(rt: HostRuntime) -> Result<(), Fail> {
    let mut pool = Pool::new(rt.alloc());
    assert!(rt; keeps_items(&mut pool)?);
    let mut units = Pool::new(rt.alloc());
    assert!(rt; keeps_units(&mut units)?);
    Ok(())
}
