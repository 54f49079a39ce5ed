ghost use Rattle.std.specs.Prelude.{◌≡◌, ◌≤◌, ◌==◌, if◌then◌else◌, Option, Some, None, length};
ghost use Rattle.std.specs.List.{list_all};
ghost use Rattle.grape_port.specs.Decimal.{is_digit, digits_value, number_of};

/// The number that 1 to 20 ASCII digits stand for, if it is at most `u64::MAX`. Leading zeros
/// count as digits.
pub fn read_number(text: &[u8]) -> Option<u64>
    ensures { result ≡ number_of text.now }
{
    let (front, last) = text.split_at(text.len().min(19));
    match last {
        [] if front.is_empty() => None,
        [] => short_number(front),
        [byte] => {
            let tens = short_number(front)?.checked_mul(10)?;
            tens.checked_add(short_number(last)?)
        }
        _ => None,
    }
}

// 19 digits stay below 2 ^ 64.
fn short_number(digits: &[u8]) -> Option<u64>
    requires { length digits.now ≤ 19 }
    ensures { result
        ≡ (if list_all is_digit digits.now then Some (digits_value digits.now) else None) }
{
    let mut value = 0;
    for byte in digits {
        if !byte.is_ascii_digit() {
            return None;
        }
        value = 10 * value + u64::from(*byte - b'0');
    }
    Some(value)
}
