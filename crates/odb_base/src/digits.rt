ghost use Rattle.std.specs.Prelude.{◌≡◌, ◌+◌, ◌*◌, ◌^◌, ◌≤◌, IfSome, length};
ghost use Rattle.odb_base.specs.Digits.{is_digit, is_negative, with_digits};

/// Whether the word has a minus sign in front.
pub fn is_negative(word: &[u8]) -> bool
    ensures { result ≡ is_negative word.now }
{
    word.first() == Some(&b'-')
}

/// Whether the byte is a digit, from `0` to `9`.
pub fn is_digit(byte: u8) -> bool
    ensures { result ≡ is_digit byte }
{
    byte >= b'0' && byte <= b'9'
}

/// The number with these digits behind its own, or nothing where one of them is no digit.
pub fn with_digits(mut number: u128, mut digits: &[u8]) -> Option<u128>
    requires { (number + 1) * 10 ^ length digits.now ≤ 10 ^ 38 }
    ensures value { result ≡ with_digits number digits.now }
    ensures bound { IfSome result (λ n. n + 1 ≤ (number + 1) * 10 ^ length digits.now) }
{
    'digits: while let [first, rest @ ..] = digits {
        if !is_digit(*first) {
            return None;
        }
        number = number * 10 + (*first - b'0') as u128;
        digits = rest;
    }
    Some(number)
}
