//! What the values of a configuration's tree give.

ghost use Rattle.std.specs.Prelude.{◌≡◌, ◌≤◌, IfOk, IfSome, Option, length, option_map};
ghost use Rattle.toml.specs.Data.{Data, get};
ghost use Rattle.toml.specs.View.{view, items_view};
ghost use Rattle.cdc_config.specs.Limits.{IsWithin};
ghost use Rattle.cdc_config.specs.Tree as tree;
ghost use Rattle.cdc_config.specs.Tree.{GivesPart, each};

use crate::misfit::Misfit;
use cdc_base::{Items, Text};
use std::alloc::Global;
use toml::Value;

/// What a value of the tree may be read as.
pub trait Part: Sized + Drop {
    ghost from: { Data → Option Self };

    fn read(alloc: Global, value: &Value) -> Result<Self, Misfit>
        ensures { GivesPart result (from (view value.now)) };
}

/// The value at a key of a table.
pub fn value_at<'a>(value: &'a Value, key: &str) -> Option<&'a Value>
    ensures { option_map (λ v. view v.now) result ≡ get key.now (view value.now) }
{
    value.get(key)
}

// What each item is read as.
fn each_of<T: Part>(alloc: Global, values: &[Value]) -> Result<Items<T>, Misfit>
    ensures { GivesPart result (each T.from (items_view values.now)) }
{
    let mut parts = Items::new(alloc);
    for value in values {
        parts.push(T::read(alloc, value)?)?;
    }
    Ok(parts)
}

/// An array of so many parts.
pub fn array_of<T: Part>(
    alloc: Global,
    value: &Value,
    least: usize,
    most: usize,
) -> Result<Items<T>, Misfit>
    ensures parts { GivesPart result (tree.array_of least most T.from (view value.now)) }
    ensures size { IfOk result (λ parts. IsWithin least most (length parts)) }
{
    let Some(values) = value.as_array() else {
        return Err(Misfit::Refused);
    };
    let parts = each_of::<T>(alloc, values)?;
    if parts.len() < least || parts.len() > most {
        return Err(Misfit::Refused);
    }
    Ok(parts)
}

/// A text that isn't empty.
impl Part for Text {
    ghost from = { tree.path_text };

    fn read(alloc: Global, value: &Value) -> Result<Text, Misfit> {
        match value.as_str() {
            Some(text) if !text.is_empty() => Ok(Text::of(alloc, text)?),
            _ => Err(Misfit::Refused),
        }
    }
}

/// A text of so many bytes.
pub fn sized_text(alloc: Global, value: &Value, least: usize, most: usize) -> Result<Text, Misfit>
    ensures text { GivesPart result (tree.sized_text least most (view value.now)) }
    ensures size { IfOk result (λ text. IsWithin least most (length text)) }
{
    match value.as_str() {
        Some(text) if text.len() >= least && text.len() <= most => Ok(Text::of(alloc, text)?),
        _ => Err(Misfit::Refused),
    }
}

// A whole number, where it is within two bounds.
fn number_between(number: i64, least: u64, most: u64) -> Option<u64>
    ensures { result ≡ tree.number_between least most number }
{
    if number < 0 {
        return None;
    }
    let number = number as u64;
    if least <= number && number <= most {
        Some(number)
    } else {
        None
    }
}

/// A whole number within two bounds.
pub fn whole_number(value: &Value, least: u64, most: u64) -> Option<u64>
    ensures number { result ≡ tree.whole_number least most (view value.now) }
    ensures size { IfSome result (IsWithin least most) }
{
    number_between(value.as_integer()?, least, most)
}

/// Whether a text is among others.
pub fn is_among(text: &Text, texts: &[Text]) -> bool
    ensures { result ≡ tree.is_among text.now texts.now }
{
    texts.iter().any(|other| text.bytes() == other.bytes())
}

/// Whether no two of the texts are equal.
pub fn are_distinct(texts: &[Text]) -> bool
    ensures { result ≡ tree.are_distinct texts.now }
{
    let mut rest = texts;
    while let [text, more @ ..] = rest {
        if is_among(text, more) {
            return false;
        }
        rest = more;
    }
    true
}
