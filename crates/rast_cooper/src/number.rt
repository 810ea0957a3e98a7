// Whole numbers up to 2^120 in magnitude.
ghost use Rattle.std.specs.Prelude.{◌≡◌, ◌≤◌, ◌<◌, ◌^◌, ◌*◌, ◌+ℤ◌, ◌*ℤ◌, true, IfSome, IfNone, unsigned_abs};
ghost use Rattle.std.specs.List.{list_all};
ghost use Rattle.rast_cooper.specs.Answer.{FitsSome};
ghost use Rattle.rast_cooper.specs.Eliminate.{sign};
ghost use Rattle.rast_cooper.specs.Arithmetic.{bounded, at_most, sums};
ghost use Rattle.rast_cooper.specs.Moderate.{moderate};

/// The greatest magnitude that a number of the search may have, 2^120.
pub const MOST: u128 = 1329227995784915872903807060280344576;

/// The greatest magnitude of a moderate number, 2^59.
pub const MOST_MODERATE: u128 = 576460752303423488;

/// Whether the number's magnitude is at most 2^59.
pub fn is_moderate(z: i128) -> bool
    ensures { result ≡ moderate z }
{
    z.unsigned_abs() <= MOST_MODERATE
}

/// Whether the magnitude of each of the numbers is at most 2^59.
pub fn all_moderate(numbers: &[i128; 16]) -> bool
    ensures { result ≡ list_all moderate numbers.now }
{
    numbers.iter().all(|number| is_moderate(*number))
}

/// Whether the number's magnitude is at most 2^120.
fn is_bounded(z: i128) -> bool
    ensures { result ≡ bounded z }
{
    z.unsigned_abs() <= MOST
}

/// The product, where it fits an `i128`; `None` only where its magnitude is at least 2^127.
fn product(b: i128, c: i128) -> Option<i128>
    ensures value { IfSome result (λ p. p ≡ b *ℤ c) }
    ensures great { IfNone result (2 ^ 127 ≤ unsigned_abs (b *ℤ c)) }
{
    b.checked_mul(c)
}

/// The sum, where it is bounded.
fn sum(a: i128, p: i128) -> Option<i128>
    requires { bounded a ≡ true }
    ensures { FitsSome bounded (a +ℤ p) result }
{
    match a.checked_add(p) {
        Some(total) => if is_bounded(total) { Some(total) } else { None },
        None => None,
    }
}

/// The product of two naturals, where it is at most 2^120.
pub fn bounded_product(a: u128, b: u128) -> Option<u128>
    ensures { FitsSome at_most (a * b) result }
{
    match a.checked_mul(b) {
        Some(product) => if product <= MOST { Some(product) } else { None },
        None => None,
    }
}

/// 1 above 0, -1 below, and 0.
pub fn sign(z: i128) -> i128
    ensures { result ≡ sign z }
{
    if z < 0 {
        -1
    } else if z == 0 {
        0
    } else {
        1
    }
}

/// `a` plus the product of `b` and `c`, where that is bounded.
pub fn sum_product(a: i128, b: i128, c: i128) -> Option<i128>
    requires { bounded a ≡ true }
    ensures { FitsSome bounded (a +ℤ (b *ℤ c)) result }
{
    if c == 0 {
        return Some(a);
    }
    match product(b, c) {
        Some(p) => sum(a, p),
        None => None,
    }
}

/// `base`, and `factor` times `numbers`, added place by place, where all sums are bounded.
pub fn combined(base: &[i128; 16], factor: i128, numbers: &[i128; 16]) -> Option<[i128; 16]>
    requires { list_all bounded base.now ≡ true }
    ensures { FitsSome (list_all bounded) (sums base.now factor numbers.now) result }
{
    let mut sums = [0i128; 16];
    for i in 0..16 {
        let Some(sum) = sum_product(base[i], factor, numbers[i]) else {
            return None;
        };
        sums[i] = sum;
    }
    Some(sums)
}
