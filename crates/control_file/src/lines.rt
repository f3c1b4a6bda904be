//! The lines of a control file's text.

ghost use Rattle.std.specs.Prelude.{◌≡◌, ◌<◌, ◌≤◌, ◌⊎◌, [], ◌∷◌, true, IfSome, IsTrue, OnOk, MatchOption, MatchResult, length, slice_get, Some, None};
ghost use Rattle.std.specs.List.{list_all, prefix_len};
ghost use Rattle.lpd_values.specs.Name.{is_data_name};
ghost use Rattle.lpd_values.specs.Pieces.{is_kept, begins_piece};
ghost use Rattle.lpd_values.specs.Kept.{is_line_feed, is_print_list};
ghost use Rattle.control_file.specs.Text.{lines_of, print_list, prints_of};
ghost use Rattle.control_file.specs.Fields.{letter_test, operands_in};

use lpd_values::{FileName, FileNames, MAX_PRINTS, Refusal};
use std::alloc::Global;

/// What a line of a control file is about, as its first octet says.
#[derive(Clone, Copy)]
pub(crate) enum Field {
    Host,
    User,
    Print,
}

impl Field {
    pub(crate) fn fits(self, letter: u8) -> bool
        ensures { result ≡ letter_test self letter }
    {
        match self {
            Field::Host => letter == b'H',
            Field::User => letter == b'P',
            Field::Print => b"cdfglnoprtv".contains(&letter),
        }
    }
}

fn feeds_len(text: &[u8]) -> usize
    ensures value { result ≡ prefix_len is_line_feed text.now }
    ensures within { result ≤ length text.now }
{
    text.iter().take_while(|b| **b == b'\n').count()
}

fn line_len(text: &[u8]) -> usize
    ensures value { result ≡ prefix_len (is_kept is_line_feed) text.now }
    ensures within { result ≤ length text.now }
{
    text.iter().take_while(|b| **b != b'\n').count()
}

/// The text without the empty lines at its head.
fn skip_empty(text: &[u8]) -> &[u8]
    ensures lines { lines_of result.now ≡ lines_of text.now }
    ensures at_line { (result.now ≡ []) ⊎ (begins_piece is_line_feed result.now ≡ true) }
    ensures within { length result.now ≤ length text.now }
{
    &text[feeds_len(text)..]
}

/// The letter and the operand of the first line, and what follows it, of a text that begins with a line.
fn split_line(text: &[u8]) -> (u8, &[u8], &[u8])
    requires { begins_piece is_line_feed text.now ≡ true }
    ensures lines { lines_of text.now ≡ (result.0 ∷ result.1.now) ∷ lines_of result.2.now }
    ensures no_feed { list_all (is_kept is_line_feed) result.1.now ≡ true }
    ensures within { length result.2.now < length text.now }
{
    let (line, rest) = text.split_at(line_len(text));
    (line[0], &line[1..], rest)
}

/// The operand of the first line of this field, and what follows it.
pub(crate) fn next_operand(field: Field, text: &[u8]) -> Option<(&[u8], &[u8])>
    ensures no_feed { IfSome result (λ p. list_all (is_kept is_line_feed) p.0.now ≡ true) }
    ensures operands { MatchOption result (operands_in field text.now ≡ [])
        (λ p. (operands_in field text.now ≡ p.0.now ∷ operands_in field p.1.now)
        × (length p.1.now < length text.now)) }
{
    let mut text = skip_empty(text);
    while !text.is_empty() {
        let (letter, operand, rest) = split_line(text);
        if field.fits(letter) {
            return Some((operand, rest));
        }
        text = skip_empty(rest);
    }
    None
}

/// The operand of the first line of this field.
pub(crate) fn first_operand(field: Field, text: &[u8]) -> Option<&[u8]>
    ensures no_feed { IfSome result (λ o. list_all (is_kept is_line_feed) o.now ≡ true) }
    ensures first { MatchOption result (slice_get (operands_in field text.now) 0 ≡ None)
        (λ o. slice_get (operands_in field text.now) 0 ≡ Some o.now) }
{
    let (operand, _) = next_operand(field, text)?;
    Some(operand)
}

/// How many lines print a file.
pub(crate) fn count_prints(text: &[u8]) -> usize
    ensures { result ≡ length (prints_of text.now) }
{
    let mut count = 0;
    let mut rest = text;
    while let Some((_, after)) = next_operand(Field::Print, rest) {
        count += 1;
        rest = after;
    }
    count
}

/// Whether all lines that print a file name a data file.
fn all_data_names(text: &[u8]) -> bool
    ensures { result ≡ list_all is_data_name (prints_of text.now) }
{
    let mut rest = text;
    while let Some((operand, after)) = next_operand(Field::Print, rest) {
        match FileName::read(operand) {
            Ok(name) if !name.is_control() => rest = after,
            _ => return false,
        }
    }
    true
}

/// The first refusal that the lines that print a file meet: `NoPrintLine`, `TooManyPrints`, `BadName`.
#[tactic(auto, using(crate::proofs::PrintLemmas::is_print_list_of))]
pub(crate) fn check_prints(text: &[u8]) -> Result<(), Refusal>
    ensures names { OnOk result (list_all is_data_name (prints_of text.now) ≡ true) }
    ensures kept { OnOk result (IsTrue (is_print_list (prints_of text.now))) }
    ensures list { MatchResult result
        (λ _. print_list (prints_of text.now) ≡ Ok (prints_of text.now))
        (λ e. print_list (prints_of text.now) ≡ Err e) }
{
    match count_prints(text) {
        0 => Err(Refusal::NoPrintLine),
        count if count > MAX_PRINTS => Err(Refusal::TooManyPrints),
        _ if all_data_names(text) => Ok(()),
        _ => Err(Refusal::BadName),
    }
}

/// The names of the lines that print a file, in order.
pub(crate) fn read_prints(alloc: Global, text: &[u8]) -> Result<FileNames, Refusal>
    requires { list_all is_data_name (prints_of text.now) ≡ true }
    ensures { MatchResult result (λ names. names ≡ prints_of text.now)
        (λ e. e ≡ Refusal.Memory) }
{
    let mut names = FileNames::new(alloc);
    let mut rest = text;
    while let Some((operand, after)) = next_operand(Field::Print, rest) {
        let name = FileName::read(operand)?;
        names.push(name)?;
        rest = after;
    }
    Ok(names)
}
