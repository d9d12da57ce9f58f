//! Exact arithmetic: the mathematical result where it is in the range of `цел`, and else the fault `range`. Nothing here takes memory (docs/LANGUAGE.md, "Values").
ghost use Rattle.std.specs.Prelude.{◌≡◌, ◌≢◌, ℤ, pos, ◌+ℤ◌, ◌-ℤ◌, ◌*ℤ◌, neg_ℤ, unsigned_abs};
ghost use Rattle.std.specs.Int.{int_min, int_max};
ghost use Rattle.kumir_values.specs.Arithmetic.{ranged, divided, remaindered, raised, quotient, remainder, IsDivision};

use crate::run_end::RunFault;

const LOWEST: i64 = -2_147_483_648;

const HIGHEST: i64 = 2_147_483_647;

/// The number itself where it is in range.
fn in_range(exact: i64) -> Result<i32, RunFault>
    ensures { result ≡ ranged exact }
{
    if exact < LOWEST || exact > HIGHEST {
        Err(RunFault::Range)
    } else {
        Ok(exact as i32)
    }
}

/// `a + b`, or `Range`.
pub fn add(a: i32, b: i32) -> Result<i32, RunFault>
    ensures { result ≡ ranged (a +ℤ b) }
{
    in_range(i64::from(a) + i64::from(b))
}

/// `a - b`, or `Range`.
pub fn sub(a: i32, b: i32) -> Result<i32, RunFault>
    ensures { result ≡ ranged (a -ℤ b) }
{
    in_range(i64::from(a) - i64::from(b))
}

/// `a * b`, or `Range`.
pub fn mul(a: i32, b: i32) -> Result<i32, RunFault>
    ensures { result ≡ ranged (a *ℤ b) }
{
    in_range(i64::from(a) * i64::from(b))
}

/// `div(a, b)`: the quotient whose remainder is not negative. `Divisor` where `b` is 0, else `Range` where it is out of range.
pub fn div(a: i32, b: i32) -> Result<i32, RunFault>
    ensures answer { result ≡ divided a b }
    ensures law { b ≢ pos 0 → IsDivision a b (quotient a b) (remainder a b) }
    ensures alone { b ≢ pos 0 → (q r : ℤ) → IsDivision a b q r → (q ≡ quotient a b) × (r ≡ remainder a b) }
{
    if b == 0 {
        return Err(RunFault::Divisor);
    }
    in_range(i64::from(a).div_euclid(i64::from(b)))
}

/// `mod(a, b)`: the remainder, from 0 to below the absolute value of `b`. `Divisor` where `b` is 0.
pub fn rem(a: i32, b: i32) -> Result<i32, RunFault>
    ensures answer { result ≡ remaindered a b }
    ensures law { b ≢ pos 0 → IsDivision a b (quotient a b) (remainder a b) }
    ensures alone { b ≢ pos 0 → (q r : ℤ) → IsDivision a b q r → (q ≡ quotient a b) × (r ≡ remainder a b) }
{
    if b == 0 {
        return Err(RunFault::Divisor);
    }
    in_range(i64::from(a).rem_euclid(i64::from(b)))
}

/// `base ** exponent`, 1 for the exponent 0. `Exponent` where the exponent is negative, else `Range` where the power is out of range. It takes at most some sixty multiplications.
pub fn power(base: i32, exponent: i32) -> Result<i32, RunFault>
    ensures { result ≡ raised base exponent }
{
    if exponent < 0 {
        return Err(RunFault::Exponent);
    }
    match base.checked_pow(exponent as u32) {
        Some(exact) => Ok(exact),
        None => Err(RunFault::Range),
    }
}

/// The lesser of the two.
pub fn imin(a: i32, b: i32) -> Result<i32, RunFault>
    ensures { result ≡ ranged (int_min a b) }
{
    Ok(a.min(b))
}

/// The greater of the two.
pub fn imax(a: i32, b: i32) -> Result<i32, RunFault>
    ensures { result ≡ ranged (int_max a b) }
{
    Ok(a.max(b))
}

/// `-a`, or `Range`.
pub fn neg(a: i32) -> Result<i32, RunFault>
    ensures { result ≡ ranged (neg_ℤ a) }
{
    in_range(-i64::from(a))
}

/// The absolute value, or `Range`.
pub fn iabs(a: i32) -> Result<i32, RunFault>
    ensures { result ≡ ranged (pos (unsigned_abs a)) }
{
    in_range(i64::from(a).abs())
}
