// Outlines as JSON texts, in which ' stands for ".
use aso_outjson::read;
use aso_outline::Outline;
use aso_trials_cases::CaseFault;
use std::alloc::{AllocError, Global};
use std::fmt::Write;

/// The base dimensions of the Basic outline. With Size it has 23 members: Year is 0, with Jan and Feb behind it;
/// Market is 3, its trees are Total at 4 with East, NY, MA and CA behind it, Big at 9 and Sum at 12, each with NY and CA shared;
/// Measures is 15, with Sales, Cost, Margin and Pct; Size is 20, with Large and Small.
const BASIC: &str =
    "{'hierarchies':[{'root':{'name':'Year','children':[{'name':'Jan'},{'name':'Feb'}]},'kind':'stored'}],'name':'Year'},
  {'hierarchies':[
    {'root':{'name':'Total','children':[
      {'name':'East','children':[{'attributes':['Large'],'name':'NY'},{'attributes':['Small'],'name':'MA'}]},
      {'attributes':['Small'],'name':'CA'}]},'kind':'stored'},
    {'root':{'name':'Big','children':[{'shared':true,'name':'NY'},{'shared':true,'name':'CA'}]},'kind':'stored'},
    {'root':{'name':'Sum','children':[{'shared':true,'name':'NY'},{'shared':true,'name':'CA'}]},'kind':'dynamic'}],'name':'Market'},
  {'hierarchies':[{'root':{'label_only':true,'name':'Measures','children':[
    {'name':'Sales'},{'name':'Cost'},{'formula':'[Sales] - [Cost]','name':'Margin'},
    {'formula':'([Sales] - [Cost]) / [Sales] * 100','name':'Pct'}]},'kind':'dynamic'}],'name':'Measures'}";

/// Its attribute dimension.
const SIZE: &str =
    "{'root':{'children':[{'name':'Large'},{'name':'Small'}],'name':'Size'},'base':'Market','name':'Size'}";

/// The JSON text with these dimensions and attribute dimensions.
fn json(alloc: Global, dims: &str, attrs: &str) -> Result<String, AllocError> {
    let text = format!(in alloc;
        "{{'app':'Sample','db':'Basic','dimensions':[{dims}],'attributes':[{attrs}]}}"
    )?;
    text.replace(alloc, "'", "\"")
}

/// The outline of these dimensions and attribute dimensions.
pub fn outline(alloc: Global, dims: &str, attrs: &str) -> Result<Outline, CaseFault> {
    let text = json(alloc, dims, attrs)?;
    match read(alloc, text.as_bytes()) {
        Ok(outline) => Ok(outline),
        Err(_fault) => Err(CaseFault::Value),
    }
}

/// The Basic outline.
pub fn basic(alloc: Global) -> Result<Outline, CaseFault> {
    outline(alloc, BASIC, SIZE)
}

/// So many dimensions, each of so many leaves below its own member, `D0m0`, `D0m1` and so on; the last one has so many.
pub fn wide(alloc: Global, count: u32, leaves: u32, last: u32) -> Result<String, AllocError> {
    let mut text = String::new(alloc);
    for dim in 0..count {
        let comma = if dim == 0 { "" } else { "," };
        write!(
            text,
            "{comma}{{'name':'D{dim}','hierarchies':[{{'kind':'stored','root':{{'name':'D{dim}','children':[{{'name':'D{dim}m0'}}"
        )?;
        let own = if dim.saturating_add(1) == count {
            last
        } else {
            leaves
        };
        for leaf in 1..own {
            write!(text, ",{{'name':'D{dim}m{leaf}'}}")?;
        }
        text.push_str("]}}]}")?;
    }
    Ok(text)
}
