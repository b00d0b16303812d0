// Numbers spelled by decimal digits at the front of a text.
ghost use Rattle.std.specs.Prelude.{◌≡◌, ◌-◌, ◌^◌, min};
ghost use Rattle.std.specs.Option.{MatchOption};
ghost use Rattle.price_line.specs.Digits.{Read, digits_in, number_in};

const MOST: u64 = u32::MAX as u64;

// How many digits stand at the front, and the number that they spell, or `MOST` if that is larger.
// In one pass, since a number may have many digits. The count does not wrap, but a closure knows no more of it than its type.
fn count_and_number(text: &[u8]) -> (usize, u32)
    ensures { result ≡ (digits_in text.now, min (number_in text.now) (2 ^ 32 - 1)) }
{
    text.iter()
        .take_while(|byte| byte.is_ascii_digit())
        .fold((0, 0), |(count, number): (usize, u32), digit| {
            let longer = u64::from(number) * 10 + u64::from(digit.saturating_sub(b'0'));
            (count.wrapping_add(1), longer.min(MOST) as u32)
        })
}

// The number at the front of a text, and what stands after its digits.
pub fn leading_number(text: &[u8]) -> Option<(u32, &[u8])>
    ensures { MatchOption result (digits_in text.now ≡ 0) (λ read. Read text.now read.0 read.1.now) }
{
    let (count, number) = count_and_number(text);
    if count == 0 {
        return None;
    }
    Some((number, &text[count..]))
}
