// Numbers in decimal, without a sign or leading zeros.
ghost use Rattle.std.specs.Prelude.{◌≡◌, ◌<◌, MatchOption};
ghost use Rattle.std.specs.Fmt.{decimal};
ghost use Rattle.text_parts.specs.Numbers.{IsNoNumber, is_padded};

/// The number that the word spells in decimal, without a sign or leading zeros; `None` if it spells
/// no such number below the limit.
pub fn read_number(word: &[u8], limit: u64) -> Option<u64>
    ensures { MatchOption result (IsNoNumber limit word.now)
        (λ n. (word.now ≡ decimal n) × (n < limit)) }
{
    if is_padded(word) {
        return None;
    }
    let Ok(text) = str::from_utf8(word) else {
        return None;
    };
    let Ok(n) = text.parse::<u64>() else {
        return None;
    };
    if n >= limit {
        return None;
    }
    Some(n)
}

fn is_padded(word: &[u8]) -> bool
    ensures { result ≡ is_padded word.now }
{
    word.len() > 1 && (word[0] == b'+' || word[0] == b'0')
}
