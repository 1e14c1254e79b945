// Members and dimensions: their numbers by what a case calls them, and their names by number.
use crate::setting::Setting;
use aso_outline::{DimRef, Outline};
use aso_trials_cases::{CaseFault, number};
use serde_json::Value;
use std::alloc::AllocError;
use std::fmt::Write;

fn number_of(value: &Value) -> Result<u32, CaseFault> {
    match u32::try_from(number(value)?) {
        Ok(number) => Ok(number),
        Err(_) => Err(CaseFault::Value),
    }
}

fn dimension_named(outline: &Outline, name: &str) -> Result<u32, CaseFault> {
    let member = outline.find(name).unwrap_or(u32::MAX);
    if member >= outline.members() {
        return Err(CaseFault::Value);
    }
    match outline.dim_of(member) {
        DimRef::Base(dim) => Ok(dim),
        DimRef::Attr(_) => Err(CaseFault::Value),
    }
}

/// A base dimension by its name, or any number.
pub fn dimension(outline: &Outline, value: &Value) -> Result<u32, CaseFault> {
    match value {
        Value::String(name) => dimension_named(outline, name.as_str()),
        _ => number_of(value),
    }
}

// The number of a member of a query's own. Such numbers follow those of the outline.
fn own_number(setting: &Setting, name: &str) -> Result<u32, CaseFault> {
    let mut number = setting.outline.members();
    for member in setting.own.members.as_slice() {
        if member.name.as_str() == name {
            return Ok(number);
        }
        number = number.saturating_add(1);
    }
    Err(CaseFault::Value)
}

fn member_named(setting: &Setting, name: &str) -> Result<u32, CaseFault> {
    match setting.outline.find(name) {
        Some(member) => Ok(member),
        None => own_number(setting, name),
    }
}

/// A member by its name, or any number: a shared member has no name of its own.
pub fn member(setting: &Setting, value: &Value) -> Result<u32, CaseFault> {
    match value {
        Value::String(name) => member_named(setting, name.as_str()),
        _ => number_of(value),
    }
}

fn put_own(setting: &Setting, member: u32, out: &mut String) -> Result<(), AllocError> {
    let at = member.saturating_sub(setting.outline.members());
    match setting.own.members.as_slice().get(at as usize) {
        Some(own) => out.push_str(own.name.as_str()),
        None => write!(out, "#{member}"),
    }
}

/// Puts a member's name, with its number behind it where the name is that of another member, which it shares.
pub fn put_member(setting: &Setting, member: u32, out: &mut String) -> Result<(), AllocError> {
    let outline = &setting.outline;
    if member >= outline.members() {
        return put_own(setting, member, out);
    }
    let name = outline.name(member);
    out.push_str(name)?;
    if outline.find(name) != Some(member) {
        write!(out, "#{member}")?;
    }
    Ok(())
}

/// Puts members with a slash between them.
pub fn put_members(setting: &Setting, members: &[u32], out: &mut String) -> Result<(), AllocError> {
    let mut between = "";
    for member in members {
        out.push_str(between)?;
        put_member(setting, *member, out)?;
        between = "/";
    }
    Ok(())
}
