// What is printed where a catalog doesn't open.
ghost use Rattle.std.specs.Prelude.{◌≡◌, IfOk};
ghost use Rattle.std.specs.String.{string_bytes};
ghost use Rattle.aso_stage.specs.Opening.{IsRefusal, area_line, short_line, twin_line};

use crate::answer::Answer;
use aso_catalog::CatalogFault;
use aso_num::{NoMemory, Status};
use std::alloc::{AllocError, Global};
use std::fmt::Write;

const FAULT: &[u8] = b"ERROR 0 301 disk fault\n";

fn short_line(alloc: Global, size: u64) -> Result<String, AllocError>
    ensures { IfOk result (λ line. string_bytes line ≡ short_line size) }
{
    format!(in alloc; "DAMAGED catalog size {size}\n")
}

fn area_line(alloc: Global, area: u8, at: u32) -> Result<String, AllocError>
    ensures { IfOk result (λ line. string_bytes line ≡ area_line area at) }
{
    let mut line = String::from_str(alloc, "DAMAGED area ")?;
    write!(line, "{area}")?;
    line.push_str(" byte ")?;
    write!(line, "{at}")?;
    line.push('\n')?;
    Ok(line)
}

fn twin_line(alloc: Global, layout: u64) -> Result<String, AllocError>
    ensures { IfOk result (λ line. string_bytes line ≡ twin_line layout) }
{
    format!(in alloc; "DAMAGED twin layout {layout}\n")
}

/// An answer of some bytes.
pub fn answer_of(alloc: Global, status: Status, text: &[u8]) -> Result<Answer, NoMemory>
    ensures { IfOk result (λ a. (a.status ≡ status) × (a.text.items ≡ text.now)) }
{
    Ok(Answer {
        status,
        text: Vec::from_slice(alloc, text)?,
    })
}

/// The answer to an opening that was refused.
pub fn refused(alloc: Global, fault: CatalogFault) -> Result<Answer, NoMemory>
    ensures { IfOk result (λ a. IsRefusal fault a.status a.text.items) }
{
    match fault {
        CatalogFault::Short { size } => {
            let line = short_line(alloc, size)?;
            answer_of(alloc, Status::Damaged, line.as_bytes())
        }
        CatalogFault::BadArea { area, at } => {
            let line = area_line(alloc, area, at)?;
            answer_of(alloc, Status::Damaged, line.as_bytes())
        }
        CatalogFault::Twin { layout } => {
            let line = twin_line(alloc, layout)?;
            answer_of(alloc, Status::Damaged, line.as_bytes())
        }
        CatalogFault::Fault => answer_of(alloc, Status::Disk, FAULT),
        CatalogFault::NoMemory => Err(NoMemory),
    }
}
