//! Attributes.

ghost use Rattle.std.specs.Prelude.{◌≡◌, ◌++◌, OnOk, string_bytes};
ghost use Rattle.std.specs.List.{flat_map};
ghost use Rattle.html_page.specs.Parts.{told_octets};

use crate::attribute_name::AttributeName;
use html_text::{Form, push_text};
use std::alloc::AllocError;

/// An attribute of a start tag.
#[derive(Clone, Copy, Debug)]
pub struct Attribute<'a> {
    /// What it says.
    pub name: AttributeName,
    /// How: any text.
    pub value: &'a str,
}

impl<'a> Attribute<'a> {
    /// An attribute of this name and value.
    pub fn new(name: AttributeName, value: &'a str) -> Attribute<'a>
        ensures name { result.name ≡ name }
        ensures value { result.value ≡ value.entry }
    {
        Attribute { name, value }
    }
}

/// The class of an element, for the style sheet.
pub fn class(value: &str) -> Attribute<'_>
    ensures name { result.name ≡ AttributeName.Class }
    ensures value { result.value ≡ value.entry }
{
    Attribute::new(AttributeName::Class, value)
}

/// The name of an element in its page.
pub fn id(value: &str) -> Attribute<'_>
    ensures name { result.name ≡ AttributeName.Id }
    ensures value { result.value ≡ value.entry }
{
    Attribute::new(AttributeName::Id, value)
}

/// Puts an attribute at the end, behind a space.
fn push_attribute(out: &mut String, attribute: &Attribute<'_>) -> Result<(), AllocError>
    ensures { OnOk result
        (string_bytes out.new ≡ string_bytes out.old ++ told_octets attribute.now) }
{
    out.push_str(" ")?;
    out.push_str(attribute.name.name())?;
    out.push_str("=\"")?;
    push_text(out, Form::Html, attribute.value)?;
    out.push_str("\"")?;
    Ok(())
}

/// Puts these attributes at the end, each behind a space.
pub(crate) fn push_attributes(
    out: &mut String,
    attributes: &[Attribute<'_>],
) -> Result<(), AllocError>
    ensures { OnOk result
        (string_bytes out.new ≡ string_bytes out.old ++ flat_map told_octets attributes.now) }
{
    for attribute in attributes {
        push_attribute(out, attribute)?;
    }
    Ok(())
}
