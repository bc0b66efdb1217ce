//! Bytes: cut at one, and the numbers that they write.
ghost use Rattle.std.specs.Prelude.{◌≡◌, ℕ, List, false, ◌+◌, ◌*◌, ◌^◌, ◌<◌, ◌≤◌, ◌∷◌, Some, None, MatchOption};
ghost use Rattle.std.specs.Option.{option_map};
ghost use Rattle.script.specs.Fields.{split, left, first, others, number, is_digit, is_digit_count};

/// The bytes before the first byte `b`, and those after it; all, where there is none.
pub(crate) fn cut(bytes: &[u8], b: u8) -> (&[u8], Option<&[u8]>)
    ensures { split b bytes.now ≡ result.0.now ∷ left b (option_map (λ x. x.now) result.1) }
{
    let end = bytes.iter().position(|x| *x == b).unwrap_or(bytes.len());
    (&bytes[..end], bytes.get(end + 1..))
}

/// The digit at the front, and what follows it.
#[inline(always)]
fn leading_digit(bytes: &[u8]) -> Option<(u32, &[u8])>
    ensures { MatchOption result ((b : ℕ) (bs : List ℕ) → bytes.now ≡ b ∷ bs → is_digit b ≡ false) (λ r. (bytes.now ≡ (48 + r.0) ∷ r.1.now) × (r.0 ≤ 9)) }
{
    match bytes {
        [digit @ b'0'..=b'9', after @ ..] => Some((u32::from(*digit - b'0'), after)),
        _ => None,
    }
}

/// The number with one digit more at its end, where it stays below 2 to the 32nd.
#[inline(always)]
fn with_digit(number: u32, digit: u32) -> Option<u32>
    ensures { MatchOption result (2 ^ 32 ≤ number * 10 + digit) (λ n. (n ≡ number * 10 + digit) × (n < 2 ^ 32)) }
{
    u32::try_from(u64::from(number) * 10 + u64::from(digit)).ok()
}

/// Whether a number may have so many digits.
#[inline(always)]
fn is_digit_count(count: usize) -> bool
    ensures { result ≡ is_digit_count count }
{
    count > 0 && count <= 10
}

/// The number of the first field, and the bytes of the fields after it, where there are any; none where
/// the field is no number.
#[inline(always)]
pub(crate) fn first_number(bytes: &[u8]) -> Option<(u32, Option<&[u8]>)>
    ensures { MatchOption result (number (first (split 32 bytes.now)) ≡ None) (λ r. (number (first (split 32 bytes.now)) ≡ Some r.0) × (others (split 32 bytes.now) ≡ left 32 (option_map (λ x. x.now) r.1))) }
{
    let mut number = 0u32;
    let mut rest = bytes;
    while let Some((digit, after)) = leading_digit(rest) {
        number = with_digit(number, digit)?;
        rest = after;
    }
    let fits = is_digit_count(bytes.len() - rest.len());
    let Some((byte, after)) = rest.split_first() else {
        return fits.then_some((number, None));
    };
    ((*byte == b' ') & fits).then_some((number, Some(after)))
}
