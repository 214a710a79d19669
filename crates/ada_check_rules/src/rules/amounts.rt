// Counts that stop at a number beyond every limit.

ghost use Rattle.std.specs.Prelude.{◌≡◌, ◌+◌, ◌*◌};
ghost use Rattle.ada_check_rules.specs.rules.Amounts.{capped};

// No limit is so large.
const MANY: u64 = 2147483648;

// A count up to there.
fn capped(count: u64) -> u64
    ensures { result ≡ capped count }
{
    if count < MANY { count } else { MANY }
}

/// The sum of two counts.
pub fn plus(one: u64, other: u64) -> u64
    ensures { result ≡ capped (one + other) }
{
    if one < MANY && other < MANY {
        capped(one + other)
    } else {
        MANY
    }
}

/// The product of two counts.
#[tactic(auto, using(crate::proofs::rules::Capping::products))]
pub fn product(one: u64, other: u64) -> u64
    ensures { result ≡ capped (one * other) }
{
    if one == 0 || other == 0 {
        0
    } else if one < MANY && other < MANY {
        capped(one * other)
    } else {
        MANY
    }
}
