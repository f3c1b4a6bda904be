//! The target of a request: a path, or in absolute form an authority with a path behind it (RFC 9112, section 3.2).

ghost use Rattle.std.specs.Prelude.{◌≡◌, ◌≤◌, MatchOption, false, length};
ghost use Rattle.std.specs.List.{before_first, position_or_len};
ghost use Rattle.status_request.specs.Asked.{
  IsAuthority,
  IsBehindScheme,
  ends_authority,
  is_absolute,
  is_query_mark,
  path_of,
};

use crate::authority::is_same;

/// What a target in absolute form begins with: the one scheme that is answered.
const SCHEME: &[u8; 7] = b"http://";

/// What stands before the first question mark; all where there is none.
fn before_query(target: &[u8]) -> &[u8]
    ensures { result.now ≡ before_first is_query_mark target.now }
{
    match target.iter().position(|b| *b == b'?') {
        Some(end) => &target[..end],
        None => target,
    }
}

/// Whether a target is in absolute form.
fn is_absolute(target: &[u8]) -> bool
    ensures { result ≡ is_absolute target.now }
{
    if target.len() < SCHEME.len() {
        return false;
    }
    is_same(&target[..7], SCHEME.as_slice())
}

/// What stands behind the scheme of a target in absolute form. None where it is in another.
fn behind_scheme(target: &[u8]) -> Option<&[u8]>
    ensures { MatchOption result (is_absolute target.now ≡ false)
        (λ rest. IsBehindScheme target.now rest.now) }
{
    if is_absolute(target) {
        Some(&target[7..])
    } else {
        None
    }
}

/// How many octets come before the first slash or question mark; all where there is none.
fn authority_end(rest: &[u8]) -> usize
    ensures place { result ≡ position_or_len ends_authority rest.now }
    ensures within { result ≤ length rest.now }
{
    for (i, octet) in rest.iter().enumerate() {
        if *octet == b'/' || *octet == b'?' {
            return i;
        }
    }
    rest.len()
}

/// The authority of a target in absolute form. None where it is in another.
pub(crate) fn authority(target: &[u8]) -> Option<&[u8]>
    ensures { MatchOption result (is_absolute target.now ≡ false)
        (λ authority. IsAuthority target.now authority.now) }
{
    let rest = behind_scheme(target)?;
    Some(&rest[..authority_end(rest)])
}

/// The path of a target, without its query.
#[tactic(auto, unfolding(crate::specs::Asked::path_of))]
pub(crate) fn path(target: &[u8]) -> &[u8]
    ensures { result.now ≡ path_of target.now }
{
    let Some(rest) = behind_scheme(target) else {
        return before_query(target);
    };
    let path = before_query(&rest[authority_end(rest)..]);
    if path.is_empty() {
        b"/".as_slice()
    } else {
        path
    }
}
