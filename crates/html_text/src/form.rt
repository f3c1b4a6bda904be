//! A text at the end of another, with the characters that mean something there escaped.

ghost use Rattle.std.specs.Prelude.{◌≡◌, ◌++◌, OnOk, string_bytes};
ghost use Rattle.std.specs.Str.{chars, encode_utf8_all};
ghost use Rattle.std.specs.Str.Lossy.{utf8_lossy};
ghost use Rattle.html_text.specs.Written.{html_octets, label_octets, picture, written, written_char};

use std::alloc::{AllocError, Global};

/// What a text is written into.
#[derive(Clone, Copy, Debug, PartialEq, Eq)]
pub enum Form {
    /// The text of an element, or the value of a quoted attribute.
    Html,
    /// The value of a label in Prometheus's text format, between its quotes.
    Label,
}

/// What shows a character that is hidden: the picture of a control where it has one.
fn picture(c: char) -> char
    ensures { result ≡ picture c }
{
    match c {
        '\0'..='\x1f' => char::from_u32(0x2400 + u32::from(c)).unwrap_or('\u{FFFD}'),
        '\x7f' => '\u{2421}',
        _ => '\u{FFFD}',
    }
}

fn push_html(out: &mut String, c: char) -> Result<(), AllocError>
    ensures { OnOk result (string_bytes out.new ≡ string_bytes out.old ++ html_octets c) }
{
    match c {
        '<' => out.push_str("&lt;"),
        '>' => out.push_str("&gt;"),
        '&' => out.push_str("&amp;"),
        '"' => out.push_str("&quot;"),
        '\'' => out.push_str("&#39;"),
        '\0'..='\x1f'
        | '\x7f'..='\u{9f}'
        | '\u{200e}'..='\u{200f}'
        | '\u{202a}'..='\u{202e}'
        | '\u{2066}'..='\u{2069}' => out.push(picture(c)),
        _ => out.push(c),
    }
}

fn push_label(out: &mut String, c: char) -> Result<(), AllocError>
    ensures { OnOk result (string_bytes out.new ≡ string_bytes out.old ++ label_octets c) }
{
    match c {
        '"' => out.push_str("\\\""),
        '\\' => out.push_str("\\\\"),
        '\n' => out.push_str("\\n"),
        _ => out.push(c),
    }
}

fn push_char(out: &mut String, form: Form, c: char) -> Result<(), AllocError>
    ensures { OnOk result
        (string_bytes out.new ≡ string_bytes out.old ++ encode_utf8_all (written_char form c)) }
{
    match form {
        Form::Html => push_html(out, c),
        Form::Label => push_label(out, c),
    }
}

/// Puts the text at the end, written in this form. After an `Err` a part of it may stand there.
pub fn push_text(out: &mut String, form: Form, text: &str) -> Result<(), AllocError>
    ensures { OnOk result
        (string_bytes out.new ≡ string_bytes out.old ++ encode_utf8_all (written form (chars text.now))) }
{
    for c in text.chars() {
        push_char(out, form, c)?;
    }
    Ok(())
}

/// Puts the text that the octets are at the end, written in this form: octets that are UTF-8 are the text that they spell, and
/// in others U+FFFD stands for each sequence that isn't.
pub fn push_octets(
    alloc: Global,
    out: &mut String,
    form: Form,
    octets: &[u8],
) -> Result<(), AllocError>
    ensures { OnOk result (string_bytes out.new
        ≡ string_bytes out.old ++ encode_utf8_all (written form (chars (utf8_lossy octets.now)))) }
{
    let text = String::from_utf8_lossy(alloc, octets)?;
    push_text(out, form, text.as_str())
}
