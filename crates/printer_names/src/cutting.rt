//! A name that is cut at its last point.

ghost use Rattle.std.specs.Prelude.{◌≡◌, ◌≤◌, ◌++◌, ◌∷◌, [], ℕ, List, MatchOption, length};
ghost use Rattle.printer_names.specs.Cuts.{HasNoPoint, IsLastPointAt, IsCutAtLast};

/// Behind which octet the last point stands; 0 where there is none.
fn last_point(octets: &[u8]) -> usize
    ensures within { result ≤ length octets.now }
    ensures last { IsLastPointAt octets.now result }
{
    let mut start = 0;
    for (i, octet) in octets.iter().enumerate() {
        if *octet == b'.' {
            start = i + 1;
        }
    }
    start
}

/// The octets before a point that ends them.
fn without_point(octets: &[u8]) -> Option<&[u8]>
    ensures { MatchOption result ((front : List ℕ) → octets.now ≡ front ++ 46 ∷ [] → ⊥)
        (λ front. octets.now ≡ front.now ++ 46 ∷ []) }
{
    octets.strip_suffix(b".")
}

/// What stands before the last point, and what stands behind it.
pub(crate) fn cut_at_last(octets: &[u8]) -> Option<(&[u8], &[u8])>
    ensures { MatchOption result (HasNoPoint octets.now)
        (λ parts. IsCutAtLast octets.now parts.0.now parts.1.now) }
{
    let (head, behind) = octets.split_at(last_point(octets));
    let before = without_point(head)?;
    Some((before, behind))
}
