// Which of two things comes first, where each has a rank.

ghost use Rattle.std.specs.Prelude.{◌≡◌};
ghost use Rattle.ada_static_rules.specs.Ranking.{Rank, is_earlier, earlier};

/// A thing that has a rank (this project's rule).
pub trait Ranked {
    /// The rank of what a contract sees of it.
    ghost rank: { Self → Rank };

    /// Where it starts.
    fn start(&self) -> u32
        ensures { result ≡ (rank self.now).start };

    /// The number of its rule.
    fn rule_number(&self) -> u32
        ensures { result ≡ (rank self.now).rule };

    /// What decides between two of one rule at one start.
    fn last_number(&self) -> u32
        ensures { result ≡ (rank self.now).last };
}

// Whether a thing stands before another one.
fn stands_before<T: Ranked>(one: &T, other: &T) -> bool
    ensures { result ≡ is_earlier (T.rank one.now) (T.rank other.now) }
{
    let (start, other_start) = (one.start(), other.start());
    let (rule, other_rule) = (one.rule_number(), other.rule_number());
    let (last, other_last) = (one.last_number(), other.last_number());
    start < other_start
        || start == other_start && (rule < other_rule || rule == other_rule && last < other_last)
}

/// The first of two things, where there are some; of two that are equal in rank the one that is named first.
pub fn first_in_rank<T: Ranked + Drop>(one: Option<T>, other: Option<T>) -> Option<T>
    ensures { result ≡ earlier T.rank one other }
{
    match one {
        None => other,
        Some(one) => match other {
            None => Some(one),
            Some(other) => Some(if stands_before(&other, &one) {
                other
            } else {
                one
            }),
        },
    }
}
