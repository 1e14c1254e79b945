// What is known under lists of numbers.
use aso_memory::NoMemory;
use indexmap::IndexMap;
use std::alloc::Global;

/// A value for each of some lists of numbers, found by their hash.
#[derive(Drop)]
pub struct Table<V> {
    map: IndexMap<Vec<u64>, V>,
}

impl<V: Copy + Drop> Table<V> {
    ghost use Rattle.std.specs.Prelude.{◌≡◌, ℕ, List, Some, None, OnOk, if◌then◌else◌};
    ghost use Rattle.std.specs.Str.{bytes_eq};
    ghost use Rattle.aso_calc.specs.Tables.{at};

    pub fn new(alloc: Global) -> Table<V>
        ensures { (q : List ℕ) → at result q ≡ None }
    {
        Table {
            map: IndexMap::new(alloc),
        }
    }

    pub fn find(&self, key: &[u64]) -> Option<V>
        ensures { result ≡ at self.now key.now }
    {
        self.map.get(key).copied()
    }

    pub fn add(&mut self, key: Vec<u64>, value: V) -> Result<(), NoMemory>
        ensures { OnOk result ((q : List ℕ) → at self.new q ≡ (if bytes_eq key.items q then Some value else at self.old q)) }
    {
        self.map.insert(key, value)?;
        Ok(())
    }
}
