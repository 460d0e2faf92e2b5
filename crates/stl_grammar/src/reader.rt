//! One pass over the tokens of a text, with the parser after them.
ghost use Rattle.std.specs.Prelude.{◌≡◌, ◌⊎◌, ◌<◌, ◌≤◌, [], length, slice_index, false, MatchResult};
ghost use Rattle.stl_syntax.specs.Characters.{is_blank as is_blank_byte};
ghost use Rattle.stl_grammar.specs.FormulaRefusals.{TokenFault};
ghost use Rattle.stl_grammar.specs.ReadText.{Advances, Stops, IsRead};

use crate::chars::is_blank;
use crate::fault::FormulaFault;
use crate::lexer::lex;
use crate::parser::Parser;
use crate::refuse::take;
use crate::token::Token;
use std::alloc::Global;

/// A text that was read: its tokens, and the parser after them.
#[derive(Drop)]
pub(crate) struct ReadText {
    pub(crate) parser: Parser,
    pub(crate) tokens: Vec<Token>,
}

/// Takes the token at place `at`, and answers the place after it.
fn advance(
    text: &[u8],
    at: usize,
    parser: &mut Parser,
    tokens: &mut Vec<Token>,
) -> Result<usize, FormulaFault>
    requires short { length text.now ≤ 8192 }
    requires place { at < length text.now }
    requires made { parser.old.made ≤ 256 }
    ensures { MatchResult result
        (λ to. Advances text.now at to parser.old parser.new tokens.old.items tokens.new.items)
        (λ r. (r ≡ FormulaFault.Memory) ⊎ Stops text.now at parser.old r) }
{
    let Some(lexeme) = lex(text, at) else {
        return Err(FormulaFault::BadByte { at: at as u32 });
    };
    let to = at + lexeme.len;
    if let Err(fault) = take(parser, text, lexeme.token, &text[to..], at as u32) {
        return Err(fault);
    }
    match tokens.push(lexeme.token) {
        Ok(()) => Ok(to),
        Err(_) => Err(FormulaFault::Memory),
    }
}

/// Reads the text, which is refused at the first token with a refusal.
pub(crate) fn read(alloc: Global, text: &[u8]) -> Result<ReadText, FormulaFault>
    requires { length text.now ≤ 8192 }
    ensures { MatchResult result
        (λ a. IsRead text.now a.parser a.tokens.items)
        (λ r. (r ≡ FormulaFault.Memory) ⊎ TokenFault [] 0 text.now r) }
{
    let mut parser = Parser::new(alloc);
    let mut tokens = Vec::new(alloc);
    let mut at = 0;
    while at < text.len() {
        if is_blank(text[at]) {
            at += 1;
        } else {
            match advance(text, at, &mut parser, &mut tokens) {
                Ok(to) => at = to,
                Err(fault) => return Err(fault),
            }
        }
    }
    if !parser.is_whole() {
        return Err(FormulaFault::Expected {
            at: text.len() as u32,
            what: parser.expected(),
        });
    }
    Ok(ReadText { parser, tokens })
}
