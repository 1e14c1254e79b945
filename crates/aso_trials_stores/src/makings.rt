// The making of a store of a text.
use crate::commands::answer;
use crate::steps::Played;
use aso_disk::MemSlots;
use aso_stage::create;
use aso_trials_cases::{CaseFault, text};
use serde_json::Value;
use std::alloc::Global;

/// The status and the line of the making of a store.
pub fn made(alloc: Global, outline: &Value, slots: MemSlots) -> Result<Played, CaseFault> {
    let text = text(alloc, outline)?;
    let (slots, answered) = create(alloc, slots, &text);
    let answered = answered?;
    Ok(Played {
        told: answer(alloc, answered.status, &answered.text)?,
        slots,
    })
}
