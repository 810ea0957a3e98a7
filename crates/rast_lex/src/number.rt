// Numbers.
ghost use Rattle.std.specs.Prelude.{◌≡◌, true, ◌<◌, ◌^◌, Some, None};
ghost use Rattle.std.specs.Char.{digit_value};
ghost use Rattle.std.specs.List.{list_all};
ghost use Rattle.std.specs.Option.{SomeIff};
ghost use Rattle.rast_ast.specs.Names.{is_digit};
ghost use Rattle.rast_lex.specs.Numbers.{value_of, is_number};

/// The number that decimal digits write, where it is below 2^32.
pub fn value_of(digits: &[u8]) -> Option<u32>
    requires { list_all is_digit digits.now ≡ true }
    ensures { SomeIff result (value_of digits.now < 2 ^ 32) (value_of digits.now) }
{
    let mut value: u64 = 0;
    for c in digits {
        value = value * 10 + digit_of(*c) as u64;
        if value >= 1 << 32 {
            return None;
        }
    }
    Some(value as u32)
}

// The number that a digit writes.
fn digit_of(c: u8) -> u8
    requires { is_digit c ≡ true }
    ensures value { result ≡ digit_value c }
    ensures small { result < 10 }
{
    c - 48
}

/// Whether digits have no leading zero, and a value below 2^32.
pub fn is_number(digits: &[u8]) -> bool
    requires { list_all is_digit digits.now ≡ true }
    ensures { result ≡ is_number digits.now }
{
    match digits {
        [] => false,
        [48] => true,
        [48, ..] => false,
        _ => value_of(digits).is_some(),
    }
}
