//! `rem` and `mod` of integers (4.5.5 of ANSI/MIL-STD-1815A).

ghost use Rattle.std.specs.Prelude.{◌≡◌, ◌+ℤ◌, pos, int_rem, ◌≢◌};
ghost use Rattle.common_lemmas.specs.division.Modulus.{moved, modulus};
ghost use Rattle.common_lemmas.specs.division.ModulusLaw.{ModulusLaw};

/// The remainder, which has the sign of the left operand. The divisor -1 leaves none.
pub fn remainder(left: i64, right: i64) -> i64
    requires { right ≢ pos 0 }
    ensures { result ≡ int_rem left right }
{
    if right == -1 { 0 } else { left % right }
}

// A remainder moved by the right operand where the two have different signs.
fn moved(rest: i64, right: i64) -> i64
    ensures { result ≡ moved rest right }
{
    if rest == 0 {
        rest
    } else if rest < 0 {
        if right < 0 { rest } else { rest + right }
    } else {
        if right < 0 { rest + right } else { rest }
    }
}

/// `mod`, which has the sign of the right operand.
pub fn modulus(left: i64, right: i64) -> i64
    requires { right ≢ pos 0 }
    ensures { result ≡ modulus left right }
{
    moved(remainder(left, right), right)
}

/// The law of `mod` (4.5.5), for every divisor but 0: it is 0 or has the sign of the right operand, it is smaller than that, signs apart, and it differs from the left operand by a multiple of the right one.
pub fn law_of_mod()
    ensures { ModulusLaw }
{}
