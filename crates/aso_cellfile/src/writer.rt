ghost use Rattle.std.specs.Prelude.{◌≡◌, ◌↔◌, ◌⊎◌, ◌+◌, ◌-◌, ◌*◌, ◌<◌, ◌≤◌, ◌^◌, ◌++◌, ◌∷◌, [], ℕ, List, Some, None, Err, length, option_map, unsigned_abs, IfOk, IfErr, IfNone, IfSome, OnOk, OnErr, IsErrOf};
ghost use Rattle.std.specs.Option.{ForSome};
ghost use Rattle.aso_disk.specs.Causes.{HasCause};
ghost use Rattle.aso_disk.specs.Shelf.{HasNoFile, with_begun};
ghost use Rattle.aso_runs.specs.Runs.{Entries};
ghost use Rattle.aso_runs.specs.Cells.{entry_of};
ghost use Rattle.aso_cellfile.specs.File.{Block, cells_in};
ghost use Rattle.aso_cellfile.specs.Making.{Lays, Writes, AreFull, refusal};
ghost use Rattle.aso_cellfile.specs.Faults.{IsRefusal};

use crate::block::{HEAVIEST, is_past, put_cell};
use crate::entry::{Entry, put_header};
use crate::fault::WriteFault;
use aso_disk::{Shelf, Trouble};
use aso_memory::NoMemory;
use aso_runs::Cell;
use aso_words::Words;
use std::alloc::Global;
use std::marker::Model;

/// A cell file in the making. It keeps one block of at most 4096 cells, and the index, in memory.
#[derive(Drop)]
pub struct Writer<S: Shelf, const W: usize> {
    pub(crate) alloc: Global,
    pub(crate) id: u64,
    pub(crate) bits: u16,
    pub(crate) file: S::Open,
    pub(crate) entries: Vec<Entry<W>>,
    pub(crate) place: u64,
    pub(crate) total: u32,
    pub(crate) last: Words<W>,
    // the block at hand
    pub(crate) text: Vec<u8>,
    pub(crate) first: Words<W>,
    pub(crate) count: u32,
    pub(crate) room: u128,
}

impl<S: Shelf, const W: usize> Model for Writer<S, W> {
    ghost use Rattle.std.specs.Prelude.{◌≡◌, ◌≤◌, ◌*◌};
    ghost use Rattle.aso_cellfile.specs.Making.{Making};
    ghost use Rattle.aso_cellfile.specs.Entries.{pairs_of};

    ghost Value = { Making };

    ghost view = { λ w. record { id = w.id; bits = w.bits; told = S.written w.file; size = S.written_size w.file; entries = pairs_of w.entries.items; place = w.place; total = w.total; last = w.last; text = w.text.items; first = w.first; count = w.count; room = w.room } };

    ghost invariant = { λ w. (1 ≤ W) × (W ≤ 4) × (w.bits ≤ 64 * W) × (w.bits ≤ 128) × (S.number w.file ≡ w.id) };
}

impl<S: Shelf, const W: usize> Writer<S, W> {
    /// Begins a file of that number, whose keys have so many bits, at most 128. Where the shelf tells its files, no file
    /// has the number. After an error the number may have a file.
    pub fn new(alloc: Global, shelf: &mut S, id: u64, bits: u16) -> Result<Writer<S, W>, Trouble>
        requires some { 1 ≤ W }
        requires few { W ≤ 4 }
        requires held { bits ≤ 64 * W }
        requires narrow { bits ≤ 128 }
        requires absent { ForSome (S.files shelf.old) (λ files. HasNoFile (files id)) }
        ensures id { IfOk result (λ w. w.id ≡ id) }
        ensures bits { IfOk result (λ w. w.bits ≡ bits) }
        ensures stands { IfOk result (λ w. Writes W w []) }
        ensures begun { OnOk result (S.files shelf.new ≡ option_map (with_begun id) (S.files shelf.old)) }
        ensures failed { OnErr result ((S.files shelf.new ≡ S.files shelf.old) ⊎ (S.files shelf.new ≡ option_map (with_begun id) (S.files shelf.old))) }
        ensures same { S.same shelf.old shelf.new }
        ensures cause { HasCause (S.faults shelf.old) (S.faults shelf.new) (IsErrOf result Trouble.Failed) }
    {
        let mut head = Vec::new(alloc);
        put_header::<W>(&mut head, bits)?;
        let mut file = shelf.create(id)?;
        shelf.append(&mut file, &head)?;
        Ok(Writer {
            alloc,
            id,
            bits,
            file,
            entries: Vec::new(alloc),
            place: 8,
            total: 0,
            last: Words::zero(),
            text: Vec::new(alloc),
            first: Words::zero(),
            count: 0,
            room: HEAVIEST,
        })
    }

    // The fault by which the cell is refused, if it is.
    fn refusal(&self, cell: &Cell<W>) -> Option<WriteFault>
        ensures refusal { (cells : Entries) → Writes W self.now cells → result ≡ refusal cells (entry_of cell.now) }
        ensures kind { IfSome result IsRefusal }
        ensures above { IfNone result (0 < self.now.total → self.now.last < cell.now.key) }
        ensures total { IfNone result (self.now.total < 4294967295) }
        ensures room { IfNone result (unsigned_abs cell.now.amount ≤ self.now.room) }
    {
        if self.total > 0 && !is_past(&cell.key, &self.last) {
            return Some(WriteFault::Order);
        }
        if self.total == u32::MAX {
            return Some(WriteFault::Full);
        }
        if cell.amount.unsigned_abs() > self.room {
            return Some(WriteFault::Heavy);
        }
        None
    }

    // Adds a cell to the block at hand. An error may leave half a cell.
    fn put(&mut self, cell: &Cell<W>) -> Result<(), NoMemory>
        requires within { cell.now.key < 2 ^ self.old.bits }
        requires above { 0 < self.old.total → self.old.last < cell.now.key }
        requires none { self.old.total ≡ 0 → self.old.last ≡ 0 }
        requires room { unsigned_abs cell.now.amount ≤ self.old.room }
        requires total { self.old.total < 4294967295 }
        requires count { self.old.count < 4096 }
        ensures lays { OnOk result ((blocks : List Block) (draft : Entries) → AreFull blocks → Lays W self.old blocks draft → Lays W self.new blocks (draft ++ entry_of cell.now ∷ [])) }
        ensures count { OnOk result (self.new.count ≡ self.old.count + 1) }
        ensures id { self.new.id ≡ self.old.id }
        ensures bits { self.new.bits ≡ self.old.bits }
    {
        let count = self.count;
        let before = chosen(count, &Words::zero(), &self.last);
        put_cell(&mut self.text, &before, cell)?;
        self.first = chosen(count, &cell.key, &self.first);
        self.last = cell.key;
        self.room -= cell.amount.unsigned_abs();
        self.count = count + 1;
        self.total += 1;
        Ok(())
    }

    // Appends the block at hand to the file, and its entry to the index.
    pub(crate) fn close_block(&mut self, shelf: &mut S) -> Result<(), Trouble>
        requires some { 0 < self.old.count }
        requires stands { (blocks : List Block) × (draft : Entries) × Lays W self.old blocks draft }
        ensures lays { OnOk result ((blocks : List Block) (draft : Entries) → Lays W self.old blocks draft → Lays W self.new (blocks ++ (draft, self.old.text) ∷ []) []) }
        ensures id { self.new.id ≡ self.old.id }
        ensures bits { self.new.bits ≡ self.old.bits }
        ensures files { S.files shelf.new ≡ S.files shelf.old }
        ensures same { S.same shelf.old shelf.new }
        ensures cause { HasCause (S.faults shelf.old) (S.faults shelf.new) (IsErrOf result Trouble.Failed) }
    {
        let entry = Entry {
            place: self.place,
            first: self.first,
        };
        shelf.append(&mut self.file, &self.text)?;
        self.entries.push(entry)?;
        self.place += self.text.len() as u64;
        self.text.clear();
        self.count = 0;
        self.room = HEAVIEST;
        Ok(())
    }

    // Closes the block at hand where it has 4096 cells.
    fn settle(&mut self, shelf: &mut S) -> Result<(), Trouble>
        requires stands { (blocks : List Block) × (draft : Entries) × AreFull blocks × (length draft ≤ 4096) × Lays W self.old blocks draft }
        ensures settled { OnOk result ((blocks : List Block) (draft : Entries) → AreFull blocks → length draft ≤ 4096 → Lays W self.old blocks draft → Writes W self.new (cells_in blocks ++ draft)) }
        ensures id { self.new.id ≡ self.old.id }
        ensures bits { self.new.bits ≡ self.old.bits }
        ensures files { S.files shelf.new ≡ S.files shelf.old }
        ensures same { S.same shelf.old shelf.new }
        ensures cause { HasCause (S.faults shelf.old) (S.faults shelf.new) (IsErrOf result Trouble.Failed) }
    {
        if self.count < 4096 {
            return Ok(());
        }
        self.close_block(shelf)?;
        Ok(())
    }

    /// Adds a cell. A cell that is refused leaves the writer as it was; after `Failed` or `NoMemory` it can only be
    /// dropped.
    pub fn add(&mut self, shelf: &mut S, cell: Cell<W>) -> Result<(), WriteFault>
        requires within { cell.key < 2 ^ self.old.bits }
        requires stands { (cells : Entries) × Writes W self.old cells }
        ensures added { OnOk result ((cells : Entries) → Writes W self.old cells → Writes W self.new (cells ++ entry_of cell.entry ∷ [])) }
        ensures refused { (cells : Entries) (fault : WriteFault) → Writes W self.old cells → refusal cells (entry_of cell.entry) ≡ Some fault → result ≡ Err fault }
        ensures accepted { (cells : Entries) → Writes W self.old cells → refusal cells (entry_of cell.entry) ≡ None → IfErr result (λ e. IsRefusal e → ⊥) }
        ensures unchanged { IfErr result (λ e. IsRefusal e → self.new ≡ self.old) }
        ensures id { self.new.id ≡ self.old.id }
        ensures bits { self.new.bits ≡ self.old.bits }
        ensures files { S.files shelf.new ≡ S.files shelf.old }
        ensures same { S.same shelf.old shelf.new }
        ensures cause { HasCause (S.faults shelf.old) (S.faults shelf.new) (IsErrOf result WriteFault.Failed) }
    {
        if let Some(fault) = self.refusal(&cell) {
            return Err(fault);
        }
        let Ok(()) = self.put(&cell) else {
            return Err(WriteFault::NoMemory);
        };
        match self.settle(shelf) {
            Ok(()) => Ok(()),
            Err(Trouble::Failed) => Err(WriteFault::Failed),
            Err(Trouble::NoMemory) => Err(WriteFault::NoMemory),
        }
    }
}

// The first key where nothing is counted yet, or else the second.
fn chosen<const W: usize>(count: u32, none: &Words<W>, some: &Words<W>) -> Words<W>
    ensures none { count ≡ 0 → result ≡ none.now }
    ensures some { 0 < count → result ≡ some.now }
{
    if count == 0 { *none } else { *some }
}
