//! File names.

ghost use Rattle.std.specs.Prelude.{◌≡◌, ◌≤◌, ◌-◌, IsTrue, MatchResult, true, false, length};
ghost use Rattle.lpd_values.specs.Kinds.{is_digit};
ghost use Rattle.lpd_values.specs.Name.{is_control_name, is_data_name, is_file_name, is_name, number_of, padded, IsFileName};

use crate::kinds::{all_digits, all_word_octets};
use crate::limits::{MAX_NAME, MIN_NAME};
use crate::refusal::Refusal;
use std::marker::Model;

/// The name of a control file or of a data file (RFC 1179, sections 6.2 and 6.3): `cf` or `df`, a letter, three decimal
/// digits that are the job's number, and up to 120 word octets. It has 6 to 126 octets, which are held inline.
#[derive(Clone, Copy, Debug)]
pub struct FileName {
    octets: [u8; MAX_NAME],
    len: usize,
}

impl Model for FileName {
    ghost use Rattle.std.specs.Prelude.{ℕ, List, ◌≡◌, take, length};
    ghost use Rattle.std.proofs.Common.{ap, ◌∙◌};
    ghost use Rattle.lpd_values.specs.Name.{padded, IsFileName};

    ghost Value = { List ℕ };

    ghost view = { λ n. take n.len n.octets };

    ghost invariant = { λ n. (length (take n.len n.octets) ≡ n.len)
        × (padded (take n.len n.octets) ≡ n.octets)
        × IsFileName (take n.len n.octets) };

    ghost use Rattle.lpd_values.specs.declared.name.FileName.TheInside.{Inside};

    ghost inverse = { λ l. record { octets = padded l; len = length l } };

    ghost inverse_ok = { λ n h. ap {B = Inside}
        (λ (o : List ℕ). record { octets = o; len = length (take n.len n.octets) }) h.1
        ∙ ap {B = Inside} (λ (k : ℕ). record { octets = n.octets; len = k }) h.0 };
}

/// Two names are equal where their octets are.
impl PartialEq for FileName {
    ghost use Rattle.std.specs.Str.{bytes_eq};
    ghost use Rattle.std.specs.Cmp.{partial_equiv_from_equiv};
    ghost use Rattle.std.specs.Cmp.Lexicographic.{nat_list_eq_equiv};

    ghost eq = { bytes_eq };

    ghost laws = { partial_equiv_from_equiv nat_list_eq_equiv };

    fn eq(&self, other: &FileName) -> bool {
        self.octets() == other.octets()
    }
}

impl Eq for FileName {
    ghost use Rattle.std.specs.Cmp.Lexicographic.{nat_list_eq_equiv};

    ghost laws = { nat_list_eq_equiv };
}

/// Whether the octets are a name of this kind, `c` or `d`.
fn is_name(kind: u8, octets: &[u8]) -> bool
    ensures value { result ≡ is_name kind octets.now }
    ensures within { IsTrue result → length octets.now ≤ MAX_NAME }
{
    if octets.len() < MIN_NAME || octets.len() > MAX_NAME {
        return false;
    }
    octets[0] == kind
        && octets[1] == b'f'
        && octets[2].is_ascii_alphabetic()
        && all_digits(&octets[3..6])
        && all_word_octets(&octets[6..])
}

/// The octets with zeros behind them.
fn padded(octets: &[u8]) -> [u8; MAX_NAME]
    requires { length octets.now ≤ MAX_NAME }
    ensures { result ≡ padded octets.now }
{
    let mut all = [0; MAX_NAME];
    all[..octets.len()].copy_from_slice(octets);
    all
}

fn digit_value(octet: u8) -> u16
    requires { is_digit octet ≡ true }
    ensures value { result ≡ octet - 48 }
    ensures within { result ≤ 9 }
{
    u16::from(octet - b'0')
}

impl FileName {
    /// The file name that the octets are, or `BadName` where they are none.
    pub fn read(octets: &[u8]) -> Result<FileName, Refusal>
        ensures { MatchResult result (λ n. (n ≡ octets.now) × IsFileName octets.now)
            (λ e. (e ≡ Refusal.BadName) × (is_file_name octets.now ≡ false)) }
    {
        if !is_name(b'c', octets) && !is_name(b'd', octets) {
            return Err(Refusal::BadName);
        }
        Ok(FileName {
            octets: padded(octets),
            len: octets.len(),
        })
    }

    /// The octets of the name, 6 to 126.
    pub fn octets(&self) -> &[u8]
        ensures value { result.now ≡ self.now }
        ensures name { IsFileName self.now }
    {
        &self.octets[..self.len]
    }

    /// Whether it names a control file; else it names a data file.
    pub fn is_control(&self) -> bool
        ensures value { result ≡ is_control_name self.now }
        ensures name { IsFileName self.now }
    {
        self.octets[0] == b'c'
    }

    /// The job's number, 0 to 999.
    pub fn number(&self) -> u16
        ensures value { result ≡ number_of self.now }
        ensures within { result ≤ 999 }
        ensures name { IsFileName self.now }
    {
        let octets = self.octets();
        100 * digit_value(octets[3]) + 10 * digit_value(octets[4]) + digit_value(octets[5])
    }
}
