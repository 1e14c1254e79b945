// Refusals as they are printed.
ghost use Rattle.std.specs.Prelude.{◌≡◌, ◌++◌, codes, IfOk};
ghost use Rattle.aso_num.specs.declared.value.Val.TheVariants.{Num};
ghost use Rattle.aso_num.specs.Numbers.{value_text};
ghost use Rattle.aso_spec.specs.Grid.{label};
ghost use Rattle.aso_cellnames.specs.Names.{texts};

use crate::refusal::SheetRefusal;
use aso_cellnames::put_label;
use aso_memory::NoMemory;
use aso_num::{Text, Val, print_val};
use std::alloc::Global;

fn borrowed<'a>(alloc: Global, names: &'a [Text]) -> Result<Vec<&'a str>, NoMemory>
    ensures { IfOk result (λ v. texts v.items ≡ names.now) }
{
    let mut all = Vec::new(alloc);
    for name in names {
        all.push(name.as_str())?;
    }
    Ok(all)
}

fn amount_text(alloc: Global, names: &[Text], sum: i128) -> Result<Vec<u8>, NoMemory>
    ensures { IfOk result (λ text. text.items ≡ codes "210 amount range: " ++ label names.now ++ codes ", " ++ value_text (Num sum)) }
{
    let mut text = Vec::from_slice(alloc, b"210 amount range: ")?;
    let names = borrowed(alloc, names)?;
    put_label(&mut text, &names)?;
    text.extend_from_slice(b", ")?;
    let mut number = String::new(alloc);
    print_val(Val::Num(sum), &mut number)?;
    text.extend_from_slice(number.as_bytes())?;
    Ok(text)
}

impl SheetRefusal {
    ghost use Rattle.std.specs.Prelude.{◌≡◌, IfOk};
    ghost use Rattle.aso_eval.specs.Texts.{refusal_text};

    /// What is printed of it: its number and its text.
    pub fn text(&self, alloc: Global) -> Result<Vec<u8>, NoMemory>
        ensures { IfOk result (λ text. text.items ≡ refusal_text self.now) }
    {
        match self {
            SheetRefusal::Text(fault) => fault.text(alloc),
            SheetRefusal::Names(refusal) => refusal.text(alloc),
            SheetRefusal::Amount { names, sum } => amount_text(alloc, names.items(), *sum),
        }
    }
}
