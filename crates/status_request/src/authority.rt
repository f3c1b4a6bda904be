//! Which server an authority names, as the field Host has one and a target in absolute form (RFC 3986, section 3.2).

ghost use Rattle.std.specs.Prelude.{◌≡◌, ◌≤◌, ◌↔◌, IsTrue, MatchOption, length};
ghost use Rattle.status_request.specs.Authority.{
  HasNoColon,
  IsAddress,
  IsCutAtColon,
  IsHere,
  IsSameName,
  NamesHere,
  digits_value,
  is_port,
};

use std::net::Ipv4Addr;

/// How many digits a port may have.
const MOST_DIGITS: usize = 5;

/// What stands before the first colon, and behind it. None where there is none.
fn cut(value: &[u8]) -> Option<(&[u8], &[u8])>
    ensures { MatchOption result (HasNoColon value.now)
        (λ parts. IsCutAtColon value.now parts.0.now parts.1.now) }
{
    for (i, octet) in value.iter().enumerate() {
        if *octet == b':' {
            return Some((&value[..i], &value[i + 1..]));
        }
    }
    None
}

/// The value of digits, or None where there is anything else.
fn digits(text: &[u8]) -> Option<u32>
    requires { length text.now ≤ MOST_DIGITS }
    ensures { result ≡ digits_value text.now }
{
    let mut value = 0u32;
    for digit in text {
        if !digit.is_ascii_digit() {
            return None;
        }
        value = value * 10 + u32::from(*digit - b'0');
    }
    Some(value)
}

/// Whether a text is a port: one to five digits that write a number of at most 65,535.
fn is_port(text: &[u8]) -> bool
    ensures { result ≡ is_port text.now }
{
    if text.is_empty() || text.len() > MOST_DIGITS {
        return false;
    }
    match digits(text) {
        Some(port) => port <= 65_535,
        None => false,
    }
}

/// Whether a host is an IPv4 address: four numbers of 0 to 255 with points between. No name service answers one.
fn is_address(host: &[u8]) -> bool
    ensures { IsTrue result ↔ IsAddress host.now }
{
    match Ipv4Addr::parse_ascii(host) {
        Ok(_) => true,
        Err(_) => false,
    }
}

/// Whether both are the same, but for the case of letters.
pub(crate) fn is_same(host: &[u8], name: &[u8]) -> bool
    ensures { IsTrue result ↔ IsSameName host.now name.now }
{
    host.eq_ignore_ascii_case(name)
}

/// Whether a host is the server of this name: an IPv4 address, `localhost` or the name.
fn is_here(host: &[u8], name: &[u8]) -> bool
    ensures { IsTrue result ↔ IsHere name.now host.now }
{
    is_address(host) || is_same(host, b"localhost".as_slice()) || is_same(host, name)
}

/// Whether an authority names the server of this name, with a port or without, and nothing else.
pub(crate) fn names_here(value: &[u8], name: &[u8]) -> bool
    ensures { IsTrue result ↔ NamesHere name.now value.now }
{
    match cut(value) {
        Some((host, port)) => is_here(host, name) && is_port(port),
        None => is_here(value, name),
    }
}
