//! How bytes are cut in two.
ghost use Rattle.std.specs.Prelude.{◌≡◌, ◌∷◌, ◌++◌, All, MatchOption, ◌≢◌};

/// The bytes before the first that is `stop`, and those after it, if one is.
pub(crate) fn cut(bytes: &[u8], stop: u8) -> (&[u8], Option<&[u8]>)
    ensures free { All (λ byte. byte ≢ stop) result.0.now }
    ensures whole { MatchOption result.1 (bytes.now ≡ result.0.now) (λ rest. bytes.now ≡ result.0.now ++ stop ∷ rest.now) }
{
    match bytes.iter().position(|byte| *byte == stop) {
        Some(end) => (&bytes[..end], Some(&bytes[end + 1..])),
        None => (bytes, None),
    }
}
