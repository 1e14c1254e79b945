ghost use Rattle.std.specs.Prelude.{◌≡◌, ◌+◌, ◌*◌, ◌<◌, ◌≤◌, ◌++◌, ◌∷◌, [], ℕ, List, Some, length, option_map, IfOk, OnOk, OnErr, IsErrOf};
ghost use Rattle.aso_disk.specs.Causes.{HasCause};
ghost use Rattle.aso_disk.specs.Shelf.{IsToldAs, with_sealed};
ghost use Rattle.aso_runs.specs.Runs.{Entries};
ghost use Rattle.aso_cellfile.specs.File.{Block, AreFilled, cells_in};
ghost use Rattle.aso_cellfile.specs.Making.{Lays, Writes};
ghost use Rattle.aso_cellfile.specs.Opened.{IsFileOf, IsFiled};

use crate::entry::{put_footer, put_index};
use crate::file::CellFile;
use crate::writer::Writer;
use aso_disk::{Failed, Shelf, Trouble};

impl<S: Shelf, const W: usize> Writer<S, W> {
    // Closes the block at hand where it has cells.
    fn close_last(&mut self, shelf: &mut S) -> Result<(), Trouble>
        requires stands { (cells : Entries) × Writes W self.old cells }
        ensures closed { OnOk result ((cells : Entries) → Writes W self.old cells → (blocks : List Block) × AreFilled blocks × (cells ≡ cells_in blocks) × Lays W self.new blocks []) }
        ensures id { self.new.id ≡ self.old.id }
        ensures bits { self.new.bits ≡ self.old.bits }
        ensures files { S.files shelf.new ≡ S.files shelf.old }
        ensures same { S.same shelf.old shelf.new }
        ensures cause { HasCause (S.faults shelf.old) (S.faults shelf.new) (IsErrOf result Trouble.Failed) }
    {
        if self.count == 0 {
            return Ok(());
        }
        self.close_block(shelf)?;
        Ok(())
    }

    // Appends index and footer, and seals the file.
    fn close_file(self, shelf: &mut S) -> Result<CellFile<S, W>, Trouble>
        requires stands { (blocks : List Block) × AreFilled blocks × Lays W self blocks [] }
        ensures file { IfOk result (λ f. (blocks : List Block) → AreFilled blocks → Lays W self blocks [] → IsFileOf W f (cells_in blocks) × (f.count ≡ length (cells_in blocks))) }
        ensures id { IfOk result (λ f. f.id ≡ self.id) }
        ensures bits { IfOk result (λ f. f.bits ≡ self.bits) }
        ensures sealed { IfOk result (λ f. (bytes : List ℕ) × IsToldAs f.told bytes × (S.files shelf.new ≡ option_map (with_sealed self.id bytes) (S.files shelf.old))) }
        ensures failed { OnErr result (S.files shelf.new ≡ S.files shelf.old) }
        ensures same { S.same shelf.old shelf.new }
        ensures cause { HasCause (S.faults shelf.old) (S.faults shelf.new) (IsErrOf result Trouble.Failed) }
    {
        let Writer {
            alloc,
            id,
            bits,
            file,
            entries,
            place,
            total,
            last: _,
            text: _,
            first: _,
            count: _,
            room: _,
        } = self;
        let mut tail = Vec::new(alloc);
        let Ok(()) = put_index(&mut tail, &entries) else {
            return Err(Trouble::NoMemory);
        };
        let Ok(()) = put_footer(&mut tail, total, place) else {
            return Err(Trouble::NoMemory);
        };
        let sealed = match seal_behind(shelf, file, &tail) {
            Ok(sealed) => sealed,
            Err(trouble) => return Err(trouble),
        };
        let size = shelf.size(&sealed);
        Ok(CellFile {
            alloc,
            id,
            bits,
            count: total,
            size,
            entries,
            place,
            file: sealed,
        })
    }

    /// Ends the file and opens it. It appends the block at hand and the index, and seals the file. After an error its
    /// number has a file in the making.
    pub fn finish(self, shelf: &mut S) -> Result<CellFile<S, W>, Trouble>
        requires stands { (cells : Entries) × Writes W self cells }
        ensures file { IfOk result (λ f. (cells : Entries) → Writes W self cells → IsFileOf W f cells × (f.count ≡ length cells)) }
        ensures id { IfOk result (λ f. f.id ≡ self.id) }
        ensures bits { IfOk result (λ f. f.bits ≡ self.bits) }
        ensures sealed { IfOk result (λ f. (bytes : List ℕ) × IsToldAs f.told bytes × (S.files shelf.new ≡ option_map (with_sealed self.id bytes) (S.files shelf.old))) }
        ensures failed { OnErr result (S.files shelf.new ≡ S.files shelf.old) }
        ensures same { S.same shelf.old shelf.new }
        ensures cause { HasCause (S.faults shelf.old) (S.faults shelf.new) (IsErrOf result Trouble.Failed) }
    {
        let mut writer = self;
        match writer.close_last(shelf) {
            Ok(()) => {}
            Err(trouble) => return Err(trouble),
        }
        match writer.close_file(shelf) {
            Ok(file) => Ok(file),
            Err(trouble) => Err(trouble),
        }
    }
}

// Appends the bytes and seals the file.
fn seal_behind<S: Shelf>(shelf: &mut S, file: S::Open, tail: &[u8]) -> Result<S::Sealed, Trouble>
    ensures content { IfOk result (λ s. S.content s ≡ option_map (λ old. old ++ tail.now) (S.written file)) }
    ensures size { IfOk result (λ s. S.content_size s ≡ S.written_size file + length tail.now) }
    ensures sealed { IfOk result (λ s. (bytes : List ℕ) × IsToldAs (S.content s) bytes × (S.files shelf.new ≡ option_map (with_sealed (S.number file) bytes) (S.files shelf.old))) }
    ensures failed { OnErr result (S.files shelf.new ≡ S.files shelf.old) }
    ensures same { S.same shelf.old shelf.new }
    ensures cause { HasCause (S.faults shelf.old) (S.faults shelf.new) (IsErrOf result Trouble.Failed) }
{
    let mut open = file;
    match shelf.append(&mut open, tail) {
        Ok(()) => {}
        Err(trouble) => return Err(trouble),
    }
    match shelf.seal(open) {
        Ok(sealed) => Ok(sealed),
        Err(Failed) => Err(Trouble::Failed),
    }
}
