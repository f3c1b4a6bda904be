//! A page as it is written, whose writer is told of each part for which memory was refused.

ghost use Rattle.std.specs.Prelude.{◌≡◌, ◌∷◌, [], ◌++◌, IfOk, OnErr, OnOk, map, string_bytes};
ghost use Rattle.std.specs.Fmt.{decimal};
ghost use Rattle.std.specs.Str.{chars, encode_utf8_all};
ghost use Rattle.std.specs.Str.Lossy.{utf8_lossy};
ghost use Rattle.html_page.specs.Parts.{Begins, End, IsPage, LineEnd, Meta, Sheet, Start, Words, part_octets, plain_chars, told};

use crate::attribute::{Attribute, push_attributes};
use crate::tag::Tag;
use html_text::{Form, push_text};
use std::alloc::{AllocError, Global};

/// What is written of a page. Each of its calls puts one part at the end, whole; where memory for that is refused, nothing is put there.
#[derive(Drop)]
pub(crate) struct Draft {
    alloc: Global,
    text: String,
    opened: Vec<Tag>,
    ghost begins: { ∥ Begins opened.items (string_bytes text) ∥₁ },
}

/// A start tag.
fn start_tag(alloc: Global, tag: Tag, attributes: &[Attribute<'_>]) -> Result<String, AllocError>
    ensures { IfOk result (λ text. string_bytes text
        ≡ part_octets (Start tag (map told attributes.now))) }
{
    let mut text = String::from_str(alloc, "<")?;
    text.push_str(tag.name())?;
    push_attributes(&mut text, attributes)?;
    text.push_str(">")?;
    Ok(text)
}

/// An end tag.
fn end_tag(alloc: Global, tag: Tag) -> Result<String, AllocError>
    ensures { IfOk result (λ text. string_bytes text ≡ part_octets (End tag)) }
{
    let mut text = String::from_str(alloc, "</")?;
    text.push_str(tag.name())?;
    text.push_str(">")?;
    Ok(text)
}

/// An element `meta`.
fn meta_tag(alloc: Global, attributes: &[Attribute<'_>]) -> Result<String, AllocError>
    ensures { IfOk result (λ text. string_bytes text
        ≡ part_octets (Meta (map told attributes.now))) }
{
    let mut text = String::from_str(alloc, "<meta")?;
    push_attributes(&mut text, attributes)?;
    text.push_str(">")?;
    Ok(text)
}

/// The style sheet without each `<`.
fn plain_sheet(alloc: Global, sheet: &str) -> Result<String, AllocError>
    ensures { IfOk result (λ text.
        string_bytes text ≡ encode_utf8_all (plain_chars (chars sheet.now))) }
{
    sheet.chars().filter(|c| *c != '<').collect(alloc)
}

/// An element `style` with this style sheet, of which each `<` is left out.
fn style_element(alloc: Global, sheet: &str) -> Result<String, AllocError>
    ensures { IfOk result (λ text.
        string_bytes text ≡ part_octets (Sheet (chars sheet.now))) }
{
    let plain = plain_sheet(alloc, sheet)?;
    let mut text = String::from_str(alloc, "<style>")?;
    text.push_str(plain.as_str())?;
    text.push_str("</style>")?;
    Ok(text)
}

impl Draft {
    ghost use Rattle.html_page.specs.Written.{draft_opened, draft_written, last_closing, outer};

    /// The words that say that it is HTML.
    ///
    /// AllocError where memory for them is refused.
    pub(crate) fn new(alloc: Global) -> Result<Draft, AllocError>
        ensures { IfOk result (λ page. draft_opened page ≡ []) }
    {
        Ok(Draft {
            alloc,
            text: String::from_str(alloc, "<!DOCTYPE html>")?,
            opened: Vec::new(alloc),
        })
    }

    /// Opens an element: its start tag.
    ///
    /// AllocError where memory for it is refused.
    pub(crate) fn open(&mut self, tag: Tag, attributes: &[Attribute<'_>]) -> Result<(), AllocError>
        ensures opened { OnOk result (draft_opened self.new ≡ draft_opened self.old ++ tag ∷ []) }
        ensures written { OnOk result (draft_written self.new
            ≡ draft_written self.old ++ part_octets (Start tag (map told attributes.now))) }
        ensures unchanged { OnErr result (draft_written self.new ≡ draft_written self.old) }
    {
        let start = start_tag(self.alloc, tag, attributes)?;
        self.opened.push(tag)?;
        let put = self.text.push_str(start.as_str());
        if put.is_err() {
            let _unopened = self.opened.pop();
        }
        put
    }

    /// Closes the element that was opened last and is still open: its end tag. Where none is open, it does nothing.
    ///
    /// AllocError where memory for it is refused.
    pub(crate) fn close(&mut self) -> Result<(), AllocError>
        ensures opened { OnOk result (draft_opened self.new ≡ outer (draft_opened self.old)) }
        ensures written { OnOk result
            (draft_written self.new ≡ draft_written self.old ++ last_closing (draft_opened self.old)) }
        ensures unchanged { OnErr result (draft_written self.new ≡ draft_written self.old) }
    {
        let Some(tag) = self.opened.last().copied() else {
            return Ok(());
        };
        let end = end_tag(self.alloc, tag)?;
        self.text.push_str(end.as_str())?;
        let _closed = self.opened.pop();
        Ok(())
    }

    /// Puts an element `meta` at the end.
    ///
    /// AllocError where memory for it is refused.
    pub(crate) fn meta(&mut self, attributes: &[Attribute<'_>]) -> Result<(), AllocError>
        ensures written { OnOk result (draft_written self.new
            ≡ draft_written self.old ++ part_octets (Meta (map told attributes.now))) }
        ensures unchanged { OnErr result (draft_written self.new ≡ draft_written self.old) }
    {
        let element = meta_tag(self.alloc, attributes)?;
        self.text.push_str(element.as_str())
    }

    /// Puts a style sheet at the end, of which each `<` is left out.
    ///
    /// AllocError where memory for it is refused.
    pub(crate) fn style(&mut self, sheet: &str) -> Result<(), AllocError>
        ensures written { OnOk result (draft_written self.new
            ≡ draft_written self.old ++ part_octets (Sheet (chars sheet.now))) }
        ensures unchanged { OnErr result (draft_written self.new ≡ draft_written self.old) }
    {
        let element = style_element(self.alloc, sheet)?;
        self.text.push_str(element.as_str())
    }

    /// Puts words at the end: any text.
    ///
    /// AllocError where memory for it is refused.
    pub(crate) fn words(&mut self, text: &str) -> Result<(), AllocError>
        ensures written { OnOk result (draft_written self.new
            ≡ draft_written self.old ++ part_octets (Words (chars text.now))) }
        ensures unchanged { OnErr result (draft_written self.new ≡ draft_written self.old) }
    {
        let mut shown = String::new(self.alloc);
        push_text(&mut shown, Form::Html, text)?;
        self.text.push_str(shown.as_str())
    }

    /// Puts octets at the end as words: U+FFFD stands for each sequence that isn't UTF-8.
    ///
    /// AllocError where memory for it is refused.
    pub(crate) fn octets(&mut self, octets: &[u8]) -> Result<(), AllocError>
        ensures written { OnOk result (draft_written self.new
            ≡ draft_written self.old ++ part_octets (Words (chars (utf8_lossy octets.now)))) }
        ensures unchanged { OnErr result (draft_written self.new ≡ draft_written self.old) }
    {
        let text = String::from_utf8_lossy(self.alloc, octets)?;
        self.words(text.as_str())
    }

    /// Puts a number at the end, in decimal digits.
    ///
    /// AllocError where memory for it is refused.
    pub(crate) fn number(&mut self, n: u64) -> Result<(), AllocError>
        ensures written { OnOk result (draft_written self.new
            ≡ draft_written self.old ++ part_octets (Words (chars (decimal n)))) }
        ensures unchanged { OnErr result (draft_written self.new ≡ draft_written self.old) }
    {
        let digits = n.to_string(self.alloc)?;
        self.words(digits.as_str())
    }

    /// Ends the line.
    ///
    /// AllocError where memory for it is refused.
    pub(crate) fn end_line(&mut self) -> Result<(), AllocError>
        ensures written { OnOk result
            (draft_written self.new ≡ draft_written self.old ++ part_octets LineEnd) }
        ensures unchanged { OnErr result (draft_written self.new ≡ draft_written self.old) }
    {
        self.text.push_str("\n")
    }

    /// The whole page: each element that is still open is closed.
    ///
    /// AllocError where memory for it is refused.
    pub(crate) fn into_text(mut self) -> Result<String, AllocError>
        ensures { IfOk result (λ text. ∥ IsPage (string_bytes text) ∥₁) }
    {
        while !self.opened.is_empty() {
            self.close()?;
        }
        let Draft { text, .. } = self;
        Ok(text)
    }
}
