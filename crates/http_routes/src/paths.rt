//! Paths and their segments.
ghost use Rattle.std.specs.Prelude.{◌≡◌, option_map, slice_get};
ghost use Rattle.http_routes.specs.Paths.{path_of, query_of, segments};

/// The path of a request's target: what stands before the query (RFC 3986, section 3.3).
pub(crate) fn path_of(target: &[u8]) -> &[u8]
    ensures { result.now ≡ path_of target.now }
{
    match target.iter().position(|byte| *byte == b'?') {
        Some(end) => &target[..end],
        None => target,
    }
}

/// The query of a request's target: what stands behind the first question mark (RFC 3986, section 3.4);
/// nothing where there is none.
pub fn query_of(target: &[u8]) -> &[u8]
    ensures { result.now ≡ query_of target.now }
{
    match target.iter().position(|byte| *byte == b'?') {
        Some(mark) => &target[mark + 1..],
        None => &[],
    }
}

/// The segment of a path with this number, from 0 on; None where it has no more than that many.
pub(crate) fn segment(path: &str, number: usize) -> Option<&str>
    ensures { option_map (λ segment. segment.now) result ≡ slice_get (segments path.now) number }
{
    path.split('/').nth(number)
}
