//! Numbers as decimal words spell them: 0 to 65535, one spelling for each number.
#![tactic(auto)]

ghost use Rattle.std.specs.Prelude.{◌≡◌, ℕ, ◌^◌, ◌<◌, decimal, MatchOption, ◌≢◌};

/// The number that the word spells; none where it spells none.
pub fn parse_number(word: &str) -> Option<u16>
    ensures { MatchOption result ((n : ℕ) → n < 2 ^ 16 → word.now ≢ decimal n) (λ n. word.now ≡ decimal n) }
{
    let bytes = word.as_bytes();
    // `parse` also takes a sign and leading zeros, which would give one number many spellings
    if bytes.len() > 1 && bytes[0] < b'1' {
        return None;
    }
    word.parse::<u16>().ok()
}

/// The same of a word that is bytes. That they are text is tested here alone: a reader of text has no need of it.
pub fn read_number(word: &[u8]) -> Option<u16>
    ensures { MatchOption result ((n : ℕ) → n < 2 ^ 16 → word.now ≢ decimal n) (λ n. word.now ≡ decimal n) }
{
    parse_number(std::str::from_utf8(word).ok()?)
}
