//! The token that a text begins with.
ghost use Rattle.std.specs.Prelude.{◌≡◌, ◌<◌, ◌≤◌, ◌+◌, ℕ, List, length, drop, false, true, slice_index, MatchOption, MatchBool};
ghost use Rattle.stl_syntax.specs.Characters.{is_among, begins_word as begins_name, is_digit as is_digit_byte};
ghost use Rattle.stl_grammar.specs.Grammar.{reserved};
ghost use Rattle.stl_grammar.specs.FormulaRefusals.{BeginsNoToken};
ghost use Rattle.stl_grammar.specs.Spelling.{spelling, has_equal, IsLexeme};

use crate::chars::{begins_word, digits_len, is_digit, word_len};
use crate::number::{begins_decimals, kept_decimals, number, value_after};
use crate::operator::{Connective, Timed};
use crate::token::{Keyword, Lexeme, Token};
use stl_syntax::Rel;

/// The word with this spelling that looks back, or is the end of a bound: the last three of the grammar.
fn past_keyword(word: &[u8]) -> Option<Keyword>
    ensures { MatchOption result (is_among word.now (drop 10 reserved) ≡ false) (λ w. word.now ≡ spelling w) }
{
    match word {
        b"once" => Some(Keyword::Timed(Timed::Once)),
        b"historically" => Some(Keyword::Timed(Timed::Historically)),
        b"inf" => Some(Keyword::Inf),
        _ => None,
    }
}

/// The word with this spelling of one operand and a bound, or the end of a bound: the last five of the grammar.
fn bounded_keyword(word: &[u8]) -> Option<Keyword>
    ensures { MatchOption result (is_among word.now (drop 8 reserved) ≡ false) (λ w. word.now ≡ spelling w) }
{
    match word {
        b"eventually" => Some(Keyword::Timed(Timed::Eventually)),
        b"always" => Some(Keyword::Timed(Timed::Always)),
        _ => past_keyword(word),
    }
}

/// The word with this spelling, where it is none of the first four.
fn later_keyword(word: &[u8]) -> Option<Keyword>
    ensures { MatchOption result (is_among word.now (drop 4 reserved) ≡ false) (λ w. word.now ≡ spelling w) }
{
    match word {
        b"or" => Some(Keyword::Connective(Connective::Or)),
        b"implies" => Some(Keyword::Connective(Connective::Implies)),
        b"until" => Some(Keyword::Timed(Timed::Until)),
        b"since" => Some(Keyword::Timed(Timed::Since)),
        _ => bounded_keyword(word),
    }
}

/// The word of the grammar with this spelling.
fn keyword(word: &[u8]) -> Option<Keyword>
    ensures { MatchOption result (is_among word.now reserved ≡ false) (λ w. word.now ≡ spelling w) }
{
    match word {
        b"true" => Some(Keyword::Constant(true)),
        b"false" => Some(Keyword::Constant(false)),
        b"not" => Some(Keyword::Not),
        b"and" => Some(Keyword::Connective(Connective::And)),
        _ => later_keyword(word),
    }
}

/// The word at place `at` of the text.
fn word_lexeme(text: &[u8], at: usize) -> Lexeme
    requires place { at < length text.now }
    requires first { begins_name (slice_index text.now at) ≡ true }
    ensures { IsLexeme text.now (drop at text.now) result.token result.len }
{
    let len = 1 + word_len(&text[at + 1..]);
    let to = at + len;
    let token = match keyword(&text[at..to]) {
        Some(word) => Token::Keyword(word),
        None => Token::Name { from: at, to },
    };
    Lexeme { token, len }
}

/// The number with which `rest` begins.
fn number_lexeme(rest: &[u8]) -> Lexeme
    requires some { 0 < length rest.now }
    requires first { is_digit_byte (slice_index rest.now 0) ≡ true }
    ensures { (text : List ℕ) → IsLexeme text rest.now result.token result.len }
{
    let whole = digits_len(rest);
    let value = value_after(0, &rest[..whole]);
    let others = &rest[whole..];
    if !begins_decimals(others) {
        return Lexeme {
            token: Token::Number(number(value, 0)),
            len: whole,
        };
    }
    let decimals = &others[1..];
    let len = digits_len(decimals);
    let fraction = &decimals[..len];
    let kept = kept_decimals(fraction);
    Lexeme {
        token: Token::Number(number(value_after(value, &fraction[..kept]), kept)),
        len: whole + 1 + len,
    }
}

/// The token of one byte.
fn lexeme(token: Token) -> Lexeme
    ensures token { result.token ≡ token }
    ensures len { result.len ≡ 1 }
{
    Lexeme { token, len: 1 }
}

/// The relation `strict`, or with `=` after it `weak`.
fn relation(rest: &[u8], strict: Rel, weak: Rel) -> Lexeme
    requires { 0 < length rest.now }
    ensures { MatchBool (has_equal rest.now)
        ((result.token ≡ Token.Relation weak) × (result.len ≡ 2))
        ((result.token ≡ Token.Relation strict) × (result.len ≡ 1)) }
{
    if rest.len() > 1 && rest[1] == b'=' {
        return Lexeme {
            token: Token::Relation(weak),
            len: 2,
        };
    }
    lexeme(Token::Relation(strict))
}

/// The token with which `rest` begins, which is no word and no number.
fn symbol_lexeme(rest: &[u8]) -> Option<Lexeme>
    requires some { 0 < length rest.now }
    requires no_word { begins_name (slice_index rest.now 0) ≡ false }
    requires no_number { is_digit_byte (slice_index rest.now 0) ≡ false }
    ensures { MatchOption result (BeginsNoToken rest.now) (λ l. (text : List ℕ) → IsLexeme text rest.now l.token l.len) }
{
    match rest[0] {
        b'>' => Some(relation(rest, Rel::Above, Rel::AtLeast)),
        b'<' => Some(relation(rest, Rel::Below, Rel::AtMost)),
        b'(' => Some(lexeme(Token::OpenParen)),
        b')' => Some(lexeme(Token::CloseParen)),
        b'[' => Some(lexeme(Token::OpenBracket)),
        b']' => Some(lexeme(Token::CloseBracket)),
        b',' => Some(lexeme(Token::Comma)),
        b'*' => Some(lexeme(Token::Star)),
        b'+' => Some(lexeme(Token::Plus)),
        b'-' => Some(lexeme(Token::Minus)),
        _ => None,
    }
}

/// The token at place `at` of the text.
pub(crate) fn lex(text: &[u8], at: usize) -> Option<Lexeme>
    requires { at < length text.now }
    ensures { MatchOption result (BeginsNoToken (drop at text.now)) (λ l. IsLexeme text.now (drop at text.now) l.token l.len) }
{
    let first = text[at];
    if begins_word(first) {
        return Some(word_lexeme(text, at));
    }
    let rest = &text[at..];
    if is_digit(first) {
        return Some(number_lexeme(rest));
    }
    symbol_lexeme(rest)
}
