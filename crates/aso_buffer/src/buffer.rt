ghost use Rattle.std.specs.Prelude.{◌≡◌, ℕ, ◌*◌, ◌≤◌, ◌++◌, [], All, IfOk, IfErr, OnOk, OnErr};
ghost use Rattle.aso_num.specs.Amount.{IsAmount};
ghost use Rattle.aso_keys.specs.Axes.{bits_of};
ghost use Rattle.aso_runs.specs.Runs.{Rises, value_at};
ghost use Rattle.aso_outline.specs.declared.draft.Draft.{Draft};
ghost use Rattle.aso_keys.specs.Layouts.{IsLayout};
ghost use Rattle.aso_keys.specs.Views.{IsBase};
ghost use Rattle.aso_load.specs.Leaves.{StandAtLeaves};
ghost use Rattle.aso_buffer.specs.Buffers.{HaveKeys, IsFault, combined_at};

use crate::combining::combine;
use crate::fault::BufferFault;
use crate::kind::Kind;
use crate::past::{first_past, leaves_at};
use crate::records::Records;
use aso_keys::{Layout, View};
use aso_memory::NoMemory;
use aso_num::{Amount, List};
use aso_outline::Outline;
use aso_runs::Run;
use std::alloc::Global;

/// A load buffer.
#[derive(Debug, Drop)]
pub struct Buffer {
    /// How it combines the amounts of one key.
    pub kind: Kind,
    /// What was put into it, in order.
    pub records: Records,
}

impl Buffer {
    /// The empty buffer. It takes no memory.
    pub fn new(alloc: Global, kind: Kind) -> Buffer
        ensures { result ≡ record { kind = kind; records = [] } }
    {
        Buffer {
            kind,
            records: Records::new(alloc),
        }
    }

    /// Puts all of these amounts behind the others in order, each with its data leaves: one entry for each base dimension, in outline
    /// order. Want of memory leaves the buffer as it was.
    pub fn put(&mut self, amounts: &[(List<u32>, Amount)]) -> Result<(), NoMemory>
        ensures put { OnOk result (self.new.records ≡ self.old.records ++ amounts.now) }
        ensures kind { self.new.kind ≡ self.old.kind }
        ensures unchanged { OnErr result (self.new ≡ self.old) }

        // Where all that is put stands at data leaves of one outline, as what its loads give, all records do.
        ensures leaves { (o : Draft) → StandAtLeaves o self.old.records → StandAtLeaves o amounts.now → StandAtLeaves o self.new.records }
    {
        self.records.put(amounts)
    }

    /// Records at data leaves of an outline have keys at the layout of its view 0.
    pub fn keeps_keys(&self, outline: &Outline, view: &View, layout: &Layout)
        requires base { IsBase view.now.choices }
        requires own { IsLayout outline.now view.now.choices layout.now }
        requires leaves { StandAtLeaves outline.now self.now.records }
        ensures { HaveKeys layout.now self.now.records }
    {}

    /// The cells at the layout of an outline's view 0, where the class of a data leaf is its ordinal: at the key of each record the
    /// amounts of that key, combined. `Range` has the least key at which they combine to what is no amount. Costs n log n for n records.
    pub fn cells<const W: usize>(
        &self,
        alloc: Global,
        layout: &Layout,
    ) -> Result<Run<W>, BufferFault>
        requires some { 1 ≤ W }
        requires few { W ≤ 4 }
        requires wide { bits_of layout.now ≤ 64 * W }
        requires keys { HaveKeys layout.now self.now.records }
        ensures cells { IfOk result (λ run. (key : ℕ) → value_at key run ≡ combined_at self.now.kind layout.now self.now.records key) }
        ensures amounts { IfOk result (All (λ e. IsAmount e.1)) }
        ensures rises { IfOk result Rises }
        ensures fault { IfErr result (IsFault self.now.kind layout.now self.now.records) }
    {
        let records = self.records.keyed::<W>(alloc, layout)?;
        let run = combine(self.kind, records)?;
        match first_past(&run) {
            None => Ok(run),
            Some(cell) => Err(BufferFault::Range {
                leaves: leaves_at(alloc, layout, &cell.key)?,
                sum: cell.amount,
            }),
        }
    }
}
