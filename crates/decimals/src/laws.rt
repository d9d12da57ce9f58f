//! Laws over the spelling of numbers. These calls do nothing.
ghost use Rattle.std.specs.Prelude.{◌≡◌, ◌<◌, ◌^◌, ℕ, ℤ, List, Some};
ghost use Rattle.std.specs.Int.Signed.{mag};
ghost use Rattle.std.specs.Fmt.{decimal, signed_decimal};
ghost use Rattle.decimals.specs.Numbers.{number_of, whole_of, wide_of};

/// What a number prints as is read as that number.
pub fn printed_is_read()
    ensures number { (n : ℕ) → n < 2 ^ 32 → number_of (decimal n) ≡ Some n }
    ensures whole { (z : ℤ) → mag z < 2 ^ 31 → whole_of (signed_decimal z) ≡ Some z }
    ensures wide { (z : ℤ) → mag z < 2 ^ 63 → wide_of (signed_decimal z) ≡ Some z }
{}

/// What is read as a number is what that number prints as.
pub fn read_is_printed()
    ensures number { (word : List ℕ) (n : ℕ) → number_of word ≡ Some n → (n < 2 ^ 32) × (word ≡ decimal n) }
    ensures whole { (word : List ℕ) (z : ℤ) → whole_of word ≡ Some z → (mag z < 2 ^ 31) × (word ≡ signed_decimal z) }
    ensures wide { (word : List ℕ) (z : ℤ) → wide_of word ≡ Some z → (mag z < 2 ^ 63) × (word ≡ signed_decimal z) }
{}
