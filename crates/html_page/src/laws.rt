//! What holds of all pages. The function's contract is a law, and its body is empty.

ghost use Rattle.std.specs.Prelude.{List};
ghost use Rattle.html_page.specs.Parts.{Part};
ghost use Rattle.html_page.specs.Tokens.{IsReadAsItsParts};
ghost use Rattle.html_page.specs.declared.tag.Tag.{Tag as Element};

/// Behind parts that fit together HTML's tokenizer is in text, and as deep as elements are open: behind a whole page, at depth 0.
pub fn a_page_is_read_as_its_parts()
    ensures { (parts : List Part) (opened : List Element) → IsReadAsItsParts parts opened }
{}
