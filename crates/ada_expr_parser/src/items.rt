//! The tokens of a text as the readers take them: each name by its id, and an end behind the last.

ghost use Rattle.std.specs.Prelude.{◌≡◌, ◌<◌, ◌^◌, ℕ, List, map, All, IfOk, IfSome, IsNone, Some, OnOk, length, slice_get, string_bytes};
ghost use Rattle.std.specs.Char.{to_ascii_uppercase};
ghost use Rattle.std.specs.Str.{IsAscii};
ghost use Rattle.ada_lexer.specs.declared.kinds.TokenKind.TheVariants as kinds;
ghost use Rattle.ada_lexer.specs.Split.{IsTokenOf};
ghost use Rattle.ada_tree.specs.NameList.{interned};
ghost use Rattle.ada_expr_parser.specs.Items.{SaysItem, IsItemOf, AreItems, end_item, name_text, interned_if, with_token, names_after};

use ada_lexer::{Symbol, Token, TokenKind};
use ada_tree::{Memory, NameId, Names, Span};
use std::alloc::Global;

/// What a token says: a reserved word or delimiter, an identifier by its name, or a literal. `End` stands behind the last token.
#[derive(Clone, Copy, Debug, PartialEq, Eq)]
pub enum ItemKind {
    Symbol(Symbol),
    Name(NameId),
    /// An integer literal by its value, at most 2147483647.
    Integer(u32),
    /// A real literal by its value in thousandths, at most 86400000.
    Duration(u32),
    /// A string literal; its content stands in the source alone.
    Text,
    /// The end of the text.
    End,
}

/// What a token says, with its place. The end is an empty piece at the length of the text.
#[derive(Clone, Copy, Debug, PartialEq, Eq)]
pub struct Item {
    pub kind: ItemKind,
    pub span: Span,
}

/// The items of a text, in order, the last of which is the end; and its names.
#[derive(Drop)]
pub struct Items {
    pub names: Names,
    pub list: Vec<Item>,
}

/// The items of the tokens of a text, one for each, and the end behind them. The names are the predefined ones and then
/// each other identifier in upper case, in the order in which they come first. Time goes by the length of the text.
pub fn read_items(alloc: Global, src: &[u8], tokens: &[Token]) -> Result<Items, Memory>
    requires short { length src.now < 2 ^ 32 }
    requires tokens { All (IsTokenOf src.now) tokens.now }
    ensures items { IfOk result (λ found. AreItems src.now found.names tokens.now found.list.items) }
    ensures names { IfOk result (λ found. found.names ≡ names_after src.now tokens.now) }
{
    let mut names = Names::new(alloc)?;
    let mut list = Vec::new(alloc);
    for token in tokens {
        let item = read_item(alloc, src, *token, &mut names)?;
        list.push(item)?;
    }
    list.push(end_of(src))?;
    Ok(Items { names, list })
}

// The end of a text.
fn end_of(src: &[u8]) -> Item
    requires { length src.now < 2 ^ 32 }
    ensures { result ≡ end_item src.now }
{
    let len = src.len() as u32;
    Item {
        kind: ItemKind::End,
        span: Span {
            start: len,
            end: len,
        },
    }
}

// The item of one token; a name that is new gets its id.
fn read_item(alloc: Global, src: &[u8], token: Token, names: &mut Names) -> Result<Item, Memory>
    requires { IsTokenOf src.now token }
    ensures said { IfOk result (λ item. IsItemOf src.now names.new token item) }
    ensures names { OnOk result (names.new ≡ with_token src.now names.old token) }
{
    let kind = match plain_kind(token.kind) {
        Some(kind) => kind,
        None => ItemKind::Name(intern_upper(alloc, src, token, names)?),
    };
    Ok(Item {
        kind,
        span: Span {
            start: token.start,
            end: token.end,
        },
    })
}

// The id of a token's bytes in upper case.
fn intern_upper(
    alloc: Global,
    src: &[u8],
    token: Token,
    names: &mut Names,
) -> Result<NameId, Memory>
    requires token { IsTokenOf src.now token }
    requires name { token.kind ≡ kinds.Name }
    ensures found { IfOk result (λ id. slice_get names.new id.0 ≡ Some (name_text src.now token)) }
    ensures names { OnOk result (names.new ≡ interned names.old (name_text src.now token)) }
{
    let upper = upper_text(alloc, &src[token.start as usize..token.end as usize])?;
    names.intern(upper.as_str())
}

// ASCII in upper case.
fn upper_text(alloc: Global, bytes: &[u8]) -> Result<String, Memory>
    requires { IsAscii bytes.now }
    ensures { IfOk result (λ text. string_bytes text ≡ map to_ascii_uppercase bytes.now) }
{
    let mut text = String::from_utf8_lossy(alloc, bytes)?;
    text.make_ascii_uppercase();
    Ok(text)
}

// What a token says that is no name.
fn plain_kind(kind: TokenKind) -> Option<ItemKind>
    ensures said { IfSome result (λ found. SaysItem kind found) }
    ensures names { IfSome result (λ found. (names : List (List ℕ)) (text : List ℕ) → interned_if kind names text ≡ names) }
    ensures name { IsNone result → kind ≡ kinds.Name }
{
    match kind {
        TokenKind::Symbol(symbol) => Some(ItemKind::Symbol(symbol)),
        TokenKind::Integer(value) => Some(ItemKind::Integer(value)),
        TokenKind::Duration(thousandths) => Some(ItemKind::Duration(thousandths)),
        TokenKind::Text => Some(ItemKind::Text),
        TokenKind::Name => None,
    }
}
