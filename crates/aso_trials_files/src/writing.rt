// Cell files on a shelf in memory, each under the number 7: written of cells or of bytes, and read.
ghost use Rattle.std.specs.Prelude.{◌*◌, ◌<◌, ◌≤◌, ◌^◌, IfSome};

use crate::stop::Stop;
use aso_cellfile::{CellFile, Steps, Writer};
use aso_disk::{MemFile, MemShelf, Shelf};
use aso_runs::Cell;
use aso_trials_cases::CaseFault;
use aso_words::Words;
use std::alloc::Global;
use std::sync::ledger::Ledger;

// The key, where so many bits hold it.
fn within<const W: usize>(key: &Words<W>, bits: u16) -> Option<Words<W>>
    requires { bits < 128 }
    ensures { IfSome result (λ k. k < 2 ^ bits) }
{
    match key.to_u128() {
        Some(number) if number < 1u128 << bits => Some(*key),
        _ => None,
    }
}

/// A shelf whose calls of these numbers fail, and on it a file of these cells with keys of so many bits.
pub fn written<const W: usize>(
    alloc: Global,
    fail: Vec<u64>,
    bits: u16,
    cells: &[Cell<W>],
) -> Result<(MemShelf, CellFile<MemShelf, W>), Stop>
    requires some { 1 ≤ W }
    requires few { W ≤ 4 }
{
    if bits as usize > 64 * W || bits >= 128 {
        return Err(Stop::Case(CaseFault::Value));
    }
    let mut shelf = MemShelf::new(alloc, fail);
    let mut writer = match Writer::<MemShelf, W>::new(alloc, &mut shelf, 7, bits) {
        Ok(writer) => writer,
        Err(trouble) => return Err(Stop::New(trouble)),
    };
    for cell in cells {
        let Some(key) = within(&cell.key, bits) else {
            return Err(Stop::Case(CaseFault::Value));
        };
        let amount = cell.amount;
        match writer.add(&mut shelf, Cell { key, amount }) {
            Ok(()) => {}
            Err(fault) => return Err(Stop::Add(fault)),
        }
    }
    match writer.finish(&mut shelf) {
        Ok(file) => Ok((shelf, file)),
        Err(trouble) => Err(Stop::Finish(trouble)),
    }
}

fn found(shelf: &mut MemShelf) -> Result<MemFile, Stop> {
    match shelf.find(7) {
        Ok(Some(file)) => Ok(file),
        Ok(None) => Err(Stop::Case(CaseFault::Value)),
        Err(trouble) => Err(Stop::Find(trouble)),
    }
}

/// The bytes of the file on a shelf.
pub fn bytes_of(alloc: Global, shelf: &mut MemShelf) -> Result<Vec<u8>, Stop> {
    let sealed = found(shelf)?;
    let mut bytes = vec![in alloc; 0u8; shelf.size(&sealed) as usize]?;
    match shelf.read(&sealed, 0, bytes.as_mut_slice()) {
        Ok(()) => Ok(bytes),
        Err(failed) => Err(Stop::Read(failed)),
    }
}

/// The file on a shelf, found and opened for keys of so many bits.
pub fn opened<const W: usize>(
    alloc: Global,
    shelf: &mut MemShelf,
    bits: u16,
) -> Result<CellFile<MemShelf, W>, Stop>
    requires some { 1 ≤ W }
    requires few { W ≤ 4 }
{
    if bits as usize > 64 * W || bits > 128 {
        return Err(Stop::Case(CaseFault::Value));
    }
    let sealed = found(shelf)?;
    match CellFile::open(alloc, shelf, 7, sealed, bits) {
        Ok(file) => Ok(file),
        Err(fault) => Err(Stop::Open(fault)),
    }
}

/// A shelf with a file of these bytes.
pub fn shelf_of(alloc: Global, bytes: &[u8]) -> Result<MemShelf, Stop> {
    let mut shelf = MemShelf::new(alloc, Vec::new(alloc));
    let mut making = match shelf.create(7) {
        Ok(making) => making,
        Err(trouble) => return Err(Stop::New(trouble)),
    };
    match shelf.append(&mut making, bytes) {
        Ok(()) => {}
        Err(trouble) => return Err(Stop::New(trouble)),
    }
    match shelf.seal(making) {
        Ok(_sealed) => Ok(shelf),
        Err(failed) => Err(Stop::Read(failed)),
    }
}

/// The cells of a file's blocks, one block behind the other.
pub fn cells_in<L: Ledger, const W: usize>(
    alloc: Global,
    shelf: &mut MemShelf,
    file: &CellFile<MemShelf, W>,
    steps: &mut Steps<L>,
) -> Result<Vec<Cell<W>>, Stop> {
    let mut all = Vec::new(alloc);
    for n in 0..file.blocks() {
        match file.block(shelf, n, steps) {
            Ok(cells) => all.extend_from_slice(&cells)?,
            Err(fault) => return Err(Stop::Block(fault)),
        }
    }
    Ok(all)
}
