//! The reserved words and the delimiters.

ghost use Rattle.std.specs.Prelude.{◌≡◌, ◌∷◌, [], map};
ghost use Rattle.ada_lexer.specs.Bytes.{in_lower_case};
ghost use Rattle.ada_lexer.specs.Words.{same_text, symbol_in, reserved_symbol, two_letters, three_letters, four_letters, five_letters, six_letters, seven_letters, eight_letters, nine_letters, simple_delimiters, compound_delimiters, delimiter_symbol};

use super::symbols::Symbol;

/// The reserved word that `word` is, in any case.
#[tactic(auto, using(crate::proofs::WordLemmas::reserved_by_length))]
pub fn reserved(word: &[u8]) -> Option<Symbol>
    ensures { result ≡ reserved_symbol word.now }
{
    match word.len() {
        2 => two(word),
        3 => three(word),
        4 => four(word),
        5 => five(word),
        6 => six(word),
        7 => seven(word),
        8 => eight(word),
        9 => nine(word),
        _ => None,
    }
}

/// Whether `word` is the word `small`, which is in lower case.
#[tactic(auto, using(crate::proofs::WordLemmas::same_text_steps))]
fn is_word(word: &[u8], small: &[u8]) -> bool
    ensures { result ≡ same_text (map in_lower_case word.now) small.now }
{
    if word.len() != small.len() {
        return false;
    }
    for n in 0..word.len() {
        if lower(word[n]) != small[n] {
            return false;
        }
    }
    true
}

/// A letter in lower case, and any other byte as it is.
fn lower(b: u8) -> u8
    ensures { result ≡ in_lower_case b }
{
    if b'A' <= b && b <= b'Z' { b + 32 } else { b }
}

#[tactic(auto, unfolding(crate::specs::Words::two_letters))]
fn two(word: &[u8]) -> Option<Symbol>
    ensures { result ≡ symbol_in two_letters (map in_lower_case word.now) }
{
    if is_word(word, b"at") {
        Some(Symbol::At)
    } else if is_word(word, b"do") {
        Some(Symbol::Do)
    } else if is_word(word, b"if") {
        Some(Symbol::If)
    } else if is_word(word, b"in") {
        Some(Symbol::In)
    } else if is_word(word, b"is") {
        Some(Symbol::Is)
    } else if is_word(word, b"of") {
        Some(Symbol::Of)
    } else if is_word(word, b"or") {
        Some(Symbol::Or)
    } else {
        None
    }
}

#[tactic(auto, unfolding(crate::specs::Words::three_letters))]
fn three(word: &[u8]) -> Option<Symbol>
    ensures { result ≡ symbol_in three_letters (map in_lower_case word.now) }
{
    if is_word(word, b"abs") {
        Some(Symbol::Abs)
    } else if is_word(word, b"all") {
        Some(Symbol::All)
    } else if is_word(word, b"and") {
        Some(Symbol::And)
    } else if is_word(word, b"end") {
        Some(Symbol::End)
    } else if is_word(word, b"for") {
        Some(Symbol::For)
    } else if is_word(word, b"mod") {
        Some(Symbol::Mod)
    } else if is_word(word, b"new") {
        Some(Symbol::New)
    } else if is_word(word, b"not") {
        Some(Symbol::Not)
    } else if is_word(word, b"out") {
        Some(Symbol::Out)
    } else if is_word(word, b"rem") {
        Some(Symbol::Rem)
    } else if is_word(word, b"use") {
        Some(Symbol::Use)
    } else if is_word(word, b"xor") {
        Some(Symbol::Xor)
    } else {
        None
    }
}

#[tactic(auto, unfolding(crate::specs::Words::four_letters))]
fn four(word: &[u8]) -> Option<Symbol>
    ensures { result ≡ symbol_in four_letters (map in_lower_case word.now) }
{
    if is_word(word, b"body") {
        Some(Symbol::Body)
    } else if is_word(word, b"case") {
        Some(Symbol::Case)
    } else if is_word(word, b"else") {
        Some(Symbol::Else)
    } else if is_word(word, b"exit") {
        Some(Symbol::Exit)
    } else if is_word(word, b"goto") {
        Some(Symbol::Goto)
    } else if is_word(word, b"loop") {
        Some(Symbol::Loop)
    } else if is_word(word, b"null") {
        Some(Symbol::Null)
    } else if is_word(word, b"task") {
        Some(Symbol::Task)
    } else if is_word(word, b"then") {
        Some(Symbol::Then)
    } else if is_word(word, b"type") {
        Some(Symbol::Type)
    } else if is_word(word, b"when") {
        Some(Symbol::When)
    } else if is_word(word, b"with") {
        Some(Symbol::With)
    } else {
        None
    }
}

#[tactic(auto, unfolding(crate::specs::Words::five_letters))]
fn five(word: &[u8]) -> Option<Symbol>
    ensures { result ≡ symbol_in five_letters (map in_lower_case word.now) }
{
    if is_word(word, b"abort") {
        Some(Symbol::Abort)
    } else if is_word(word, b"array") {
        Some(Symbol::Array)
    } else if is_word(word, b"begin") {
        Some(Symbol::Begin)
    } else if is_word(word, b"delay") {
        Some(Symbol::Delay)
    } else if is_word(word, b"delta") {
        Some(Symbol::Delta)
    } else if is_word(word, b"elsif") {
        Some(Symbol::Elsif)
    } else if is_word(word, b"entry") {
        Some(Symbol::Entry)
    } else if is_word(word, b"raise") {
        Some(Symbol::Raise)
    } else if is_word(word, b"range") {
        Some(Symbol::Range)
    } else if is_word(word, b"while") {
        Some(Symbol::While)
    } else {
        None
    }
}

#[tactic(auto, unfolding(crate::specs::Words::six_letters))]
fn six(word: &[u8]) -> Option<Symbol>
    ensures { result ≡ symbol_in six_letters (map in_lower_case word.now) }
{
    if is_word(word, b"accept") {
        Some(Symbol::Accept)
    } else if is_word(word, b"access") {
        Some(Symbol::Access)
    } else if is_word(word, b"digits") {
        Some(Symbol::Digits)
    } else if is_word(word, b"others") {
        Some(Symbol::Others)
    } else if is_word(word, b"pragma") {
        Some(Symbol::Pragma)
    } else if is_word(word, b"record") {
        Some(Symbol::Record)
    } else if is_word(word, b"return") {
        Some(Symbol::Return)
    } else if is_word(word, b"select") {
        Some(Symbol::Select)
    } else {
        None
    }
}

#[tactic(auto, unfolding(crate::specs::Words::seven_letters))]
fn seven(word: &[u8]) -> Option<Symbol>
    ensures { result ≡ symbol_in seven_letters (map in_lower_case word.now) }
{
    if is_word(word, b"declare") {
        Some(Symbol::Declare)
    } else if is_word(word, b"generic") {
        Some(Symbol::Generic)
    } else if is_word(word, b"limited") {
        Some(Symbol::Limited)
    } else if is_word(word, b"package") {
        Some(Symbol::Package)
    } else if is_word(word, b"private") {
        Some(Symbol::Private)
    } else if is_word(word, b"renames") {
        Some(Symbol::Renames)
    } else if is_word(word, b"reverse") {
        Some(Symbol::Reverse)
    } else if is_word(word, b"subtype") {
        Some(Symbol::Subtype)
    } else {
        None
    }
}

#[tactic(auto, unfolding(crate::specs::Words::eight_letters))]
fn eight(word: &[u8]) -> Option<Symbol>
    ensures { result ≡ symbol_in eight_letters (map in_lower_case word.now) }
{
    if is_word(word, b"constant") {
        Some(Symbol::Constant)
    } else if is_word(word, b"function") {
        Some(Symbol::Function)
    } else if is_word(word, b"separate") {
        Some(Symbol::Separate)
    } else {
        None
    }
}

#[tactic(auto, unfolding(crate::specs::Words::nine_letters))]
fn nine(word: &[u8]) -> Option<Symbol>
    ensures { result ≡ symbol_in nine_letters (map in_lower_case word.now) }
{
    if is_word(word, b"exception") {
        Some(Symbol::Exception)
    } else if is_word(word, b"procedure") {
        Some(Symbol::Procedure)
    } else if is_word(word, b"terminate") {
        Some(Symbol::Terminate)
    } else {
        None
    }
}

/// The delimiter that the whole of `mark` is.
#[tactic(auto, unfolding(crate::specs::Words::delimiter_symbol))]
pub fn delimiter(mark: &[u8]) -> Option<Symbol>
    ensures { result ≡ delimiter_symbol mark.now }
{
    match mark {
        [b] => simple_delimiter(*b),
        [b, c] => compound_delimiter(*b, *c),
        _ => None,
    }
}

/// The delimiter that the byte alone is.
#[tactic(auto, unfolding(crate::specs::Words::simple_delimiters))]
pub fn simple_delimiter(b: u8) -> Option<Symbol>
    ensures { result ≡ symbol_in simple_delimiters (b ∷ []) }
{
    match b {
        b';' => Some(Symbol::Semicolon),
        b',' => Some(Symbol::Comma),
        b'(' => Some(Symbol::LeftParen),
        b')' => Some(Symbol::RightParen),
        b':' => Some(Symbol::Colon),
        b'.' => Some(Symbol::Dot),
        b'|' => Some(Symbol::Bar),
        b'&' => Some(Symbol::Ampersand),
        b'\'' => Some(Symbol::Tick),
        b'=' => Some(Symbol::Equal),
        b'<' => Some(Symbol::Less),
        b'>' => Some(Symbol::Greater),
        b'+' => Some(Symbol::Plus),
        b'-' => Some(Symbol::Minus),
        b'*' => Some(Symbol::Star),
        b'/' => Some(Symbol::Slash),
        _ => None,
    }
}

/// The delimiter that the two bytes are together.
#[tactic(auto, unfolding(crate::specs::Words::compound_delimiters))]
pub fn compound_delimiter(b: u8, c: u8) -> Option<Symbol>
    ensures { result ≡ symbol_in compound_delimiters (b ∷ c ∷ []) }
{
    match (b, c) {
        (b':', b'=') => Some(Symbol::Becomes),
        (b'=', b'>') => Some(Symbol::Arrow),
        (b'.', b'.') => Some(Symbol::DotDot),
        (b'/', b'=') => Some(Symbol::NotEqual),
        (b'<', b'=') => Some(Symbol::LessEqual),
        (b'>', b'=') => Some(Symbol::GreaterEqual),
        _ => None,
    }
}
