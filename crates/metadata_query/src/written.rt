//! The key and the value that stand in a target's query.

ghost use Rattle.std.specs.Prelude.{◌≡◌, ◌≢◌, ◌++◌, ◌==◌, All, MatchOption, ℕ, List, codes, position};
ghost use Rattle.metadata_query.specs.Written.{HasQuery, IsCutAt, IsHalved, IsPair};

/// A key and its value, as they stand in a query.
#[derive(Clone, Copy)]
pub(crate) struct Pair<'a> {
    pub(crate) key: &'a [u8],
    pub(crate) value: &'a [u8],
}

/// The bytes of a target behind its first question mark.
pub(crate) fn query_of(target: &[u8]) -> Option<&[u8]>
    ensures { MatchOption result ((query : List ℕ) → ¬ (HasQuery target.now query))
        (λ query. HasQuery target.now query.now) }
{
    match cut_at(target, b'?') {
        Some((_, query)) => Some(query),
        None => None,
    }
}

/// The key and the value of a query, in either order.
pub(crate) fn pair_of(query: &[u8]) -> Option<Pair<'_>>
    ensures { MatchOption result ((key value : List ℕ) → ¬ (IsPair query.now key value))
        (λ pair. IsPair query.now pair.key.now pair.value.now) }
{
    let Some((first, second)) = halves_of(query) else {
        return None;
    };
    match ordered(first, second) {
        Some(pair) => Some(pair),
        None => ordered(second, first),
    }
}

/// The two parts of a query that has one `&`.
fn halves_of(query: &[u8]) -> Option<(&[u8], &[u8])>
    ensures { MatchOption result ((first second : List ℕ) → ¬ (IsHalved query.now first second))
        (λ x. IsHalved query.now x.0.now x.1.now) }
{
    match cut_at(query, b'&') {
        Some((first, second)) => match cut_at(second, b'&') {
            Some(_) => None,
            None => Some((first, second)),
        },
        None => None,
    }
}

/// The key and the value of two parts, of which the first is to have the key.
fn ordered<'a>(first: &'a [u8], second: &'a [u8]) -> Option<Pair<'a>>
    ensures { MatchOption result
        ((key value : List ℕ) → first.now ≡ codes "key=" ++ key → ¬ (second.now ≡ codes "value=" ++ value))
        (λ pair. (first.now ≡ codes "key=" ++ pair.key.now) × (second.now ≡ codes "value=" ++ pair.value.now)) }
{
    match (behind(first, b"key="), behind(second, b"value=")) {
        (Some(key), Some(value)) => Some(Pair { key, value }),
        _ => None,
    }
}

/// What stands behind a front, if the bytes begin with it.
fn behind<'a>(bytes: &'a [u8], front: &[u8]) -> Option<&'a [u8]>
    ensures { MatchOption result ((rest : List ℕ) → ¬ (bytes.now ≡ front.now ++ rest))
        (λ rest. bytes.now ≡ front.now ++ rest.now) }
{
    bytes.strip_prefix(front)
}

/// What stands in front of the first of these marks, and what stands behind it.
fn cut_at(bytes: &[u8], mark: u8) -> Option<(&[u8], &[u8])>
    ensures { MatchOption result (All (λ b. b ≢ mark) bytes.now)
        (λ x. IsCutAt mark bytes.now x.0.now x.1.now) }
{
    match place_of(bytes, mark) {
        Some(at) => Some((&bytes[..at], &bytes[at + 1..])),
        None => None,
    }
}

/// Where the first of these marks stands.
fn place_of(bytes: &[u8], mark: u8) -> Option<usize>
    ensures { result ≡ position (λ b. b == mark) bytes.now }
{
    bytes.iter().position(|b| *b == mark)
}
