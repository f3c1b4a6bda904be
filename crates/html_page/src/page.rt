//! A page of HTML: tags, texts, and nothing else.
//!
//! A page is written by calls that open and close elements, and not of pieces of text that happen to fit: which elements are open is
//! kept, so that a page without balanced tags, quotes or escapes can't be made.

ghost use Rattle.std.specs.Prelude.{◌≡◌, ◌∷◌, [], ◌++◌, IfErr, IfOk, map, string_bytes};
ghost use Rattle.std.specs.Fmt.{decimal};
ghost use Rattle.std.specs.Str.{chars};
ghost use Rattle.std.specs.Str.Lossy.{utf8_lossy};
ghost use Rattle.html_page.specs.Parts.{End, IsPage, LineEnd, Meta, Sheet, Start, Words, part_octets, told};

use crate::attribute::Attribute;
use crate::draft::Draft;
use crate::tag::Tag;
use std::alloc::{AllocError, Global};

/// A page of HTML so far. Each of its calls puts one part at the end, whole. Where memory for a part is refused, neither it nor any later part is
/// put, and `into_text` says so.
#[derive(Drop)]
pub struct HtmlPage {
    alloc: Global,
    draft: Draft,
    is_whole: bool,
}

impl HtmlPage {
    ghost use Rattle.html_page.specs.Written.{IsLost, IsWhole, Puts, last_closing, opened, outer, written};

    /// The words that say that it is HTML.
    ///
    /// AllocError where memory for them is refused.
    pub fn new(alloc: Global) -> Result<HtmlPage, AllocError>
        ensures opened { IfOk result (λ page. opened page ≡ []) }
        ensures whole { IfOk result (λ page. IsWhole page) }
    {
        Ok(HtmlPage {
            alloc,
            draft: Draft::new(alloc)?,
            is_whole: true,
        })
    }

    /// Opens an element: its start tag.
    pub fn open(&mut self, tag: Tag, attributes: &[Attribute<'_>])
        ensures opened { IsWhole self.new → opened self.new ≡ opened self.old ++ tag ∷ [] }
        ensures put { Puts self.old self.new (part_octets (Start tag (map told attributes.now))) }
    {
        if self.is_whole {
            self.is_whole = self.draft.open(tag, attributes).is_ok();
        }
    }

    /// Closes the element that was opened last and is still open: its end tag. Where none is open, it does nothing.
    pub fn close(&mut self)
        ensures opened { IsWhole self.new → opened self.new ≡ outer (opened self.old) }
        ensures put { Puts self.old self.new (last_closing (opened self.old)) }
    {
        if self.is_whole {
            self.is_whole = self.draft.close().is_ok();
        }
    }

    /// Puts an element `meta` at the end.
    pub fn meta(&mut self, attributes: &[Attribute<'_>])
        ensures put { Puts self.old self.new (part_octets (Meta (map told attributes.now))) }
    {
        if self.is_whole {
            self.is_whole = self.draft.meta(attributes).is_ok();
        }
    }

    /// Puts a style sheet at the end, of which each `<` is left out.
    pub fn style(&mut self, sheet: &str)
        ensures put { Puts self.old self.new (part_octets (Sheet (chars sheet.now))) }
    {
        if self.is_whole {
            self.is_whole = self.draft.style(sheet).is_ok();
        }
    }

    /// Puts words at the end: any text.
    pub fn words(&mut self, text: &str)
        ensures put { Puts self.old self.new (part_octets (Words (chars text.now))) }
    {
        if self.is_whole {
            self.is_whole = self.draft.words(text).is_ok();
        }
    }

    /// Puts an element with these words at the end.
    pub fn element(&mut self, tag: Tag, attributes: &[Attribute<'_>], text: &str) {
        self.open(tag, attributes);
        self.words(text);
        self.close();
    }

    /// Puts octets at the end as words: U+FFFD stands for each sequence that isn't UTF-8.
    pub fn octets(&mut self, octets: &[u8])
        ensures put { Puts self.old self.new (part_octets (Words (chars (utf8_lossy octets.now)))) }
    {
        if self.is_whole {
            self.is_whole = self.draft.octets(octets).is_ok();
        }
    }

    /// Puts a number at the end, in decimal digits.
    pub fn number(&mut self, n: u64)
        ensures put { Puts self.old self.new (part_octets (Words (chars (decimal n)))) }
    {
        if self.is_whole {
            self.is_whole = self.draft.number(n).is_ok();
        }
    }

    /// Ends the line.
    pub fn end_line(&mut self)
        ensures put { Puts self.old self.new (part_octets LineEnd) }
    {
        if self.is_whole {
            self.is_whole = self.draft.end_line().is_ok();
        }
    }

    /// A text that was made to stand on the page. Where memory for it was refused it is empty, and the page has lost a part.
    pub fn text(&mut self, made: Result<String, AllocError>) -> String
        ensures made { IfOk made (λ text. string_bytes result ≡ string_bytes text) }
        ensures kept { IfOk made (λ _. self.new ≡ self.old) }
        ensures lost { IfErr made (λ _. IsLost self.new) }
        ensures written { written self.new ≡ written self.old }
    {
        match made {
            Ok(text) => text,
            Err(AllocError) => {
                self.is_whole = false;
                String::new(self.alloc)
            }
        }
    }

    /// The whole page: each element that is still open is closed.
    ///
    /// AllocError where memory for it is refused, or was for a part of it.
    pub fn into_text(self) -> Result<String, AllocError>
        ensures page { IfOk result (λ text. ∥ IsPage (string_bytes text) ∥₁) }
        ensures whole { IfOk result (λ _. IsWhole self) }
    {
        if !self.is_whole {
            return Err(AllocError);
        }
        self.draft.into_text()
    }
}
