// Bytes as text.
use aso_trials_cases::CaseFault;

/// The text that some bytes spell.
pub fn spelled(bytes: &[u8]) -> Result<&str, CaseFault> {
    match std::str::from_utf8(bytes) {
        Ok(text) => Ok(text),
        Err(_) => Err(CaseFault::Value),
    }
}
