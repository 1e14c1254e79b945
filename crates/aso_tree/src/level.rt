// The classes of a level, by node.
ghost use Rattle.std.specs.Prelude.{◌≡◌, ◌<◌, ◌≤◌, ◌+◌, ◌^◌, length, map, true, IfOk, Some};
ghost use Rattle.std.specs.List.{filter, range_with_len};
ghost use Rattle.aso_tree.specs.Trees.{class_count, class_number, class_of, height, is_leaf, places_of, IsTree};
ghost use Rattle.aso_tree.specs.Levels.{AreLevels, IsOpen, classes_before, is_class};

use aso_memory::NoMemory;
use std::alloc::Global;

/// How many classes a level has, and the number of each node's class: 0 where it has none.
#[derive(Debug, Drop)]
pub struct Level {
    pub count: u32,
    pub numbers: Vec<u32>,
}

/// The height of a node, from the table of heights.
pub fn height_at(parents: &[u32], heights: &[u32], node: u32) -> u32
    requires known { heights.now ≡ map (height parents.now) (places_of parents.now) }
    requires within { node < length parents.now }
    ensures { result ≡ height parents.now node }
{
    heights[node as usize]
}

/// The node is a class: it isn't too high for the level, and its parent is.
fn is_class(parents: &[u32], heights: &[u32], level: u32, node: u32) -> bool
    requires known { heights.now ≡ map (height parents.now) (places_of parents.now) }
    requires within { node < length parents.now }
    ensures { result ≡ is_class parents.now level node }
{
    if height_at(parents, heights, node) > level {
        return false;
    }
    let parent = parents[node as usize];
    if parent >= node {
        return true;
    }
    height_at(parents, heights, parent) > level
}

/// The number of a node's class, from the numbers of the nodes before it and the count of the classes among them.
fn class_number(
    parents: &[u32],
    heights: &[u32],
    numbers: &[u32],
    level: u32,
    node: u32,
    count: u32,
) -> u32
    requires known { heights.now ≡ map (height parents.now) (places_of parents.now) }
    requires within { node < length parents.now }
    requires before { numbers.now ≡ map (class_number parents.now level) (range_with_len 0 node) }
    requires counted { count ≡ length (filter (is_class parents.now level) (range_with_len 0 node)) }
    ensures { result ≡ class_number parents.now level node }
{
    if height_at(parents, heights, node) > level {
        return 0;
    }
    let parent = parents[node as usize];
    if parent >= node {
        return count;
    }
    if height_at(parents, heights, parent) > level {
        return count;
    }
    numbers[parent as usize]
}

fn level_of(alloc: Global, parents: &[u32], heights: &[u32], level: u32) -> Result<Level, NoMemory>
    requires short { length parents.now < 2 ^ 32 }
    requires known { heights.now ≡ map (height parents.now) (places_of parents.now) }
    ensures numbers { IfOk result (λ l. l.numbers.items ≡ map (class_number parents.now level) (places_of parents.now)) }
    ensures count { IfOk result (λ l. l.count ≡ class_count parents.now level) }
{
    let mut numbers = Vec::new(alloc);
    let mut count = 0;
    for node in 0..parents.len() as u32 {
        let number = class_number(parents, heights, numbers.as_slice(), level, node, count);
        numbers.push(number)?;
        if is_class(parents, heights, level, node) {
            count += 1;
        }
    }
    Ok(Level { count, numbers })
}

/// The height of the root.
fn top_of(parents: &[u32], heights: &[u32]) -> u32
    requires known { heights.now ≡ map (height parents.now) (places_of parents.now) }
    ensures { result ≡ height parents.now 0 }
{
    if parents.is_empty() {
        0
    } else {
        height_at(parents, heights, 0)
    }
}

/// The levels from 0 to the height of the root.
pub fn levels_of(alloc: Global, parents: &[u32], heights: &[u32]) -> Result<Vec<Level>, NoMemory>
    requires short { length parents.now < 2 ^ 32 }
    requires known { heights.now ≡ map (height parents.now) (places_of parents.now) }
    ensures { IfOk result (λ v. AreLevels parents.now (height parents.now 0 + 1) v.items) }
{
    let mut levels = Vec::new(alloc);
    for level in 0..u64::from(top_of(parents, heights)) + 1 {
        levels.push(level_of(alloc, parents, heights, level as u32)?)?;
    }
    Ok(levels)
}

/// The number of a leaf's class, from the tables of the levels.
pub fn class_of(parents: &[u32], levels: &[Level], level: u32, leaf: u32) -> u32
    requires known { AreLevels parents.now (height parents.now 0 + 1) levels.now }
    requires tree { IsTree parents.now }
    requires leaf { is_leaf parents.now leaf ≡ true }
    requires within { leaf < length parents.now }
    requires level { level ≤ height parents.now 0 }
    ensures { class_of parents.now level leaf ≡ Some result }
{
    let numbers = levels[level as usize].numbers.as_slice();
    numbers[leaf as usize]
}

/// How many classes a level has, from the tables of the levels.
pub fn class_count(parents: &[u32], levels: &[Level], level: u32) -> u32
    requires known { AreLevels parents.now (height parents.now 0 + 1) levels.now }
    requires level { level ≤ height parents.now 0 }
    ensures { result ≡ class_count parents.now level }
{
    levels[level as usize].count
}

/// How many classes of a level stand before a place, where the node there lies below none: the number of the next class, to which
/// one goes down from there.
pub fn classes_before(
    parents: &[u32],
    heights: &[u32],
    levels: &[Level],
    level: u32,
    place: u32,
) -> u32
    requires short { length parents.now < 2 ^ 32 }
    requires tree { IsTree parents.now }
    requires heights { heights.now ≡ map (height parents.now) (places_of parents.now) }
    requires known { AreLevels parents.now (height parents.now 0 + 1) levels.now }
    requires level { level ≤ height parents.now 0 }
    requires within { place ≤ length parents.now }
    requires outside { IsOpen parents.now level place }
    ensures { result ≡ classes_before parents.now level place }
{
    for node in place..parents.len() as u32 {
        if height_at(parents, heights, node) <= level {
            return number_at(parents, levels, level, node);
        }
    }
    class_count(parents, levels, level)
}

/// The number of a node's class, from the tables of the levels; 0 where it has none.
fn number_at(parents: &[u32], levels: &[Level], level: u32, node: u32) -> u32
    requires known { AreLevels parents.now (height parents.now 0 + 1) levels.now }
    requires within { node < length parents.now }
    requires level { level ≤ height parents.now 0 }
    ensures { result ≡ class_number parents.now level node }
{
    let row = levels[level as usize].numbers.as_slice();
    row[node as usize]
}
