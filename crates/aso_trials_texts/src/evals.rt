// Sheets, and the replies to them.
use crate::utf8::spelled;
use aso_eval::{EvalFault, eval};
use aso_memory::NoMemory;
use aso_trials_cases::CaseFault;
use std::alloc::Global;

fn reply(alloc: Global, text: &[u8]) -> Result<Vec<u8>, NoMemory> {
    match eval(alloc, text) {
        Ok(reply) => Ok(reply),
        Err(EvalFault::Refused(refusal)) => refusal.text(alloc),
        Err(EvalFault::NoMemory(fault)) => Err(fault),
    }
}

/// The reply to a sheet, or what is printed of its refusal.
pub fn told(alloc: Global, text: &[u8]) -> Result<String, CaseFault> {
    let reply = reply(alloc, text)?;
    Ok(String::from_str(alloc, spelled(&reply)?)?)
}
