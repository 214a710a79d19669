// Numbers in decimal.

ghost use Rattle.std.specs.Prelude.{◌≡◌, ◌≤◌, ◌^◌, ◌*◌, ◌+◌, ◌-◌, ℕ, ℤ, pos, neg_ℤ, Option, IfSome, min, option_map, option_and_then, true};
ghost use Rattle.seq_file.specs.text_lines.Numerals.{is_digit, are_digits, is_natural, natural, integer, counted, count, value_behind, below_zero, only_if, is_small_integer, small_integer, is_small_number, small_number};
ghost use Rattle.seq_file.specs.text_lines.Capped.{capped, capped_integer};

// Every larger number stands as this one.
const CAP: u64 = 4294967296;

/// Whether the byte is a digit of ASCII.
pub fn is_digit(b: u8) -> bool
    ensures { result ≡ is_digit b }
{
    b.is_ascii_digit()
}

#[tactic(auto, using(crate::proofs::text_lines::Walks::walks))]
fn are_digits(word: &[u8]) -> bool
    ensures { result ≡ are_digits word.now }
{
    for b in word {
        if !is_digit(*b) {
            return false;
        }
    }
    true
}

fn is_natural(word: &[u8]) -> bool
    ensures { result ≡ is_natural word.now }
{
    match word {
        [] => false,
        [b] => is_digit(*b),
        [b, ..] => *b != b'0' && are_digits(word),
    }
}

// The number that digits write, up to the cap.
#[tactic(auto, using(crate::proofs::text_lines::Capping::capping))]
fn capped_value(word: &[u8]) -> u64
    requires { are_digits word.now ≡ true }
    ensures { result ≡ capped (value_behind 0 word.now) }
{
    let mut value: u64 = 0;
    for b in word {
        value = with_digit(value, *b);
    }
    value
}

#[tactic(auto, unfolding(crate::specs::text_lines::Capped::capped))]
fn with_digit(value: u64, b: u8) -> u64
    requires digit { is_digit b ≡ true }
    requires small { value ≤ 2 ^ 32 }
    ensures { result ≡ capped (value * 10 + (b - 48)) }
{
    (value * 10 + u64::from(b - b'0')).min(CAP)
}

/// The number without a sign that a word writes, up to 2 ^ 32 as the cap of larger ones. `None` where it writes none.
#[tactic(auto, using(crate::proofs::text_lines::Capping::capping), unfolding(crate::specs::text_lines::Numerals::natural))]
pub fn natural(word: &[u8]) -> Option<u64>
    ensures is { result ≡ option_map capped (natural word.now) }
    ensures small { IfSome result (λ n. n ≤ 2 ^ 32) }
{
    if is_natural(word) {
        Some(capped_value(word))
    } else {
        None
    }
}

/// The number that a word writes, with a minus where it is negative, up to 2 ^ 32 as the cap on both sides. `None` where it writes none.
#[tactic(auto, unfolding(crate::specs::text_lines::Numerals::integer))]
pub fn integer(word: &[u8]) -> Option<i64>
    ensures { result ≡ option_map capped_integer (integer word.now) }
{
    match word {
        [] => None,
        [b, rest @ ..] => if *b == b'-' {
            negative(natural(rest))
        } else {
            positive(natural(word))
        },
    }
}

// The number with a minus; there is none for zero.
#[tactic(auto, using(crate::proofs::text_lines::Capping::signs))]
fn negative(n: Option<u64>) -> Option<i64>
    requires { IfSome n (λ n. n ≤ 2 ^ 32) }
    ensures { (o : Option ℕ) → n ≡ option_map capped o → result ≡ option_map capped_integer (option_and_then below_zero o) }
{
    match n {
        Some(n) => if n == 0 { None } else { Some(minus(n)) },
        None => None,
    }
}

#[tactic(auto, using(crate::proofs::text_lines::Capping::signs))]
fn positive(n: Option<u64>) -> Option<i64>
    requires { IfSome n (λ n. n ≤ 2 ^ 32) }
    ensures { (o : Option ℕ) → n ≡ option_map capped o → result ≡ option_map capped_integer (option_map pos o) }
{
    match n {
        Some(n) => Some(plus(n)),
        None => None,
    }
}

fn minus(n: u64) -> i64
    requires { n ≤ 2 ^ 32 }
    ensures { result ≡ neg_ℤ (pos n) }
{
    -(n as i64)
}

fn plus(n: u64) -> i64
    requires { n ≤ 2 ^ 32 }
    ensures { result ≡ pos n }
{
    n as i64
}

/// The number that a word writes which counts something, up to 2 ^ 32 as the cap; a negative one stands as the cap. `None` where it writes none.
#[tactic(auto, using(crate::proofs::text_lines::Capping::counts), unfolding(crate::specs::text_lines::Numerals::count))]
pub fn count(word: &[u8]) -> Option<u64>
    ensures { result ≡ option_map capped (count word.now) }
{
    match integer(word) {
        Some(i) => Some(counted(i)),
        None => None,
    }
}

// The number, or the cap where it is negative.
#[tactic(auto, using(crate::proofs::text_lines::Capping::counts))]
fn counted(i: i64) -> u64
    ensures { (z : ℤ) → i ≡ capped_integer z → result ≡ capped (counted z) }
{
    if i < 0 { CAP } else { i as u64 }
}

/// The integer of 32 bits that a word writes, with a minus where it is negative. `None` where it writes none.
#[tactic(auto, using(crate::proofs::text_lines::Narrowing::narrowing), unfolding(crate::specs::text_lines::Numerals::small_integer))]
pub fn small_integer(word: &[u8]) -> Option<i32>
    ensures { result ≡ small_integer word.now }
{
    match integer(word) {
        Some(i) => narrowed_integer(i),
        None => None,
    }
}

fn narrowed_integer(i: i64) -> Option<i32>
    ensures { result ≡ only_if is_small_integer i }
{
    if -2147483648 <= i && i <= 2147483647 {
        Some(i as i32)
    } else {
        None
    }
}

/// The number of 32 bits without a sign that a word writes. `None` where it writes none.
#[tactic(auto, using(crate::proofs::text_lines::Narrowing::narrowing), unfolding(crate::specs::text_lines::Numerals::small_number))]
pub fn small_number(word: &[u8]) -> Option<u32>
    ensures { result ≡ small_number word.now }
{
    match natural(word) {
        Some(n) => narrowed_number(n),
        None => None,
    }
}

fn narrowed_number(n: u64) -> Option<u32>
    ensures { result ≡ only_if is_small_number n }
{
    if n < 4294967296 { Some(n as u32) } else { None }
}
