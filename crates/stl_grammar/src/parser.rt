//! The parser: it takes tokens from the left, and drafts each node as its last token comes.
ghost use Rattle.std.specs.Prelude.{◌≡◌, ◌<◌, ◌≤◌, ◌-◌, ◌∷◌, ◌++◌, [], nat_le, if◌then◌else◌, length, IfOk, IsTrue};
ghost use Rattle.stl_syntax.specs.Names.{is_name};
ghost use Rattle.stl_grammar.specs.Parsing.{signed, between};

use crate::decimal::Decimal;
use crate::draft::{Bound, Draft, Frame, Operator, Sum};
use crate::fault::What;
use crate::frames::Frames;
use crate::operator::{Connective, Timed};
use crate::place::Place;
use crate::shapes::{bound, closing, coefficient, fold, in_bound, next_place, opening};
use crate::token::{Keyword, Token};
use std::alloc::{AllocError, Global};
use std::marker::Model;
use stl_syntax::{Rel, Term};

/// How much may be pending.
const MOST_PENDING: usize = 64;

/// A parser of tokens, which reads them once, from the left.
#[derive(Drop)]
pub(crate) struct Parser {
    alloc: Global,
    place: Place,
    frames: Frames,
    drafts: Vec<Draft>,
    terms: Vec<Term>,
    made: u32,
}

impl Model for Parser {
    ghost use Rattle.stl_grammar.specs.Parsing.{Parse};

    ghost Value = { Parse };

    ghost view = { λ p. record { place = p.place; frames = p.frames; drafts = p.drafts.items; terms = p.terms.items; made = p.made } };
}

/// The term of a name, with its sign and its coefficient.
fn make_term(
    alloc: Global,
    negative: bool,
    coef: u8,
    text: &[u8],
    from: usize,
    to: usize,
) -> Result<Term, AllocError>
    requires coef { coef ≤ 16 }
    requires order { from ≤ to }
    requires within { to ≤ length text.now }
    requires name { IsTrue (is_name (between from to text.now)) }
    ensures { IfOk result (λ t. t ≡ record { coef = signed negative coef; name = between from to text.now }) }
{
    let coef = if negative {
        -i32::from(coef)
    } else {
        i32::from(coef)
    };
    match std::str::from_utf8(&text[from..to]) {
        Ok(name) => Term::make(alloc, coef, name).map_err(|_| AllocError),
        Err(_) => unreachable!(),
    }
}

impl Parser {
    ghost use Rattle.std.specs.Prelude.{List, ℕ, suc, Some, None, MatchBool, true, false, take, drop, nat_lt};
    ghost use Rattle.stl_grammar.specs.Refusing.{depth_of, expected_in, is_whole_in};
    ghost use Rattle.stl_grammar.specs.Parsing.{Parse, folded, folded_drafts, moved, begun, opened as opened_by, completed};
    ghost use Rattle.stl_grammar.specs.Parsing.{with_term, begin_keyword as keyword_begins, begin_operand as operand_begins};
    ghost use Rattle.stl_grammar.specs.Parsing.{begin_bound as bound_begins, end_bound as bound_ends, end_atom as atom_ends};
    ghost use Rattle.stl_grammar.specs.Parsing.{joined as joined_by, closed, after_keyword as keyword_after};
    ghost use Rattle.stl_grammar.specs.Parsing.{after_operand as operand_after, move_to as moves_to};
    ghost use Rattle.stl_grammar.specs.Parsing.{step_constant as constant_step, step_term as term_step, parse_step, Gives};
    ghost use Rattle.stl_grammar.specs.Parsing.{IsKnown, waiting, closing as closing_of};

    /// A parser that has read no token: an operand is to come.
    pub(crate) fn new(alloc: Global) -> Parser
        ensures { result ≡ record { place = Place.Operand; frames = []; drafts = []; terms = []; made = 0 } }
    {
        Parser {
            alloc,
            place: Place::Operand,
            frames: Frames::new(alloc),
            drafts: Vec::new(alloc),
            terms: Vec::new(alloc),
            made: 0,
        }
    }

    /// Where the parser stands: what may come next.
    pub(crate) fn place(&self) -> Place
        ensures { result ≡ self.now.place }
    {
        self.place
    }

    /// How many terms the atom has so far.
    pub(crate) fn terms(&self) -> usize
        ensures { result ≡ length self.now.terms }
    {
        self.terms.len()
    }

    /// How many nodes were begun.
    pub(crate) fn made(&self) -> u32
        ensures { result ≡ self.now.made }
    {
        self.made
    }

    /// Whether more than 64 parentheses, one-operand operators and `implies` are pending.
    pub(crate) fn is_too_deep(&self) -> bool
        ensures { result ≡ nat_lt 64 (depth_of self.now) }
    {
        match in_bound(self.place) {
            Some(false) => self.frames.pending() >= MOST_PENDING,
            _ => self.frames.pending() > MOST_PENDING,
        }
    }

    /// What may come next, as a refusal of another token names it.
    pub(crate) fn expected(&self) -> What
        ensures { result ≡ expected_in self.now }
    {
        match self.place {
            Place::Operand | Place::Bound { .. } => What::Operand,
            Place::Low { .. } | Place::High { .. } => What::Number,
            Place::Comma { .. } => What::Comma,
            Place::Closing { .. } => What::Bracket,
            Place::Term { .. } => What::Term,
            Place::Star { .. } => What::Star,
            Place::Name { .. } => What::Name,
            Place::Sign => What::Relation,
            Place::Constant { .. } | Place::Number { .. } => What::Constant,
            Place::End => {
                if self.frames.has_paren() {
                    What::Paren
                } else {
                    What::End
                }
            }
        }
    }

    /// Whether the tokens so far are a formula.
    pub(crate) fn is_whole(&self) -> bool
        ensures { result ≡ is_whole_in self.now }
    {
        match self.place {
            Place::End => !self.frames.has_paren(),
            _ => false,
        }
    }

    /// Where the last node stands.
    fn last(&self) -> usize
        ensures { result ≡ length self.now.drafts - 1 }
    {
        self.drafts.len().saturating_sub(1)
    }

    /// Counts one more node, begun by the token that was read, and goes to the place behind that token.
    fn begin(&mut self, place: Place)
        requires { self.old.made ≤ 256 }
        ensures { self.new ≡ begun place self.old }
    {
        self.place = place;
        self.made += 1;
    }

    /// Goes to another place, where there is one.
    fn move_to(&mut self, place: Option<Place>) -> bool
        ensures { Gives (moves_to self.old place) result self.new }
    {
        match place {
            Some(place) => {
                self.place = place;
                true
            }
            None => false,
        }
    }

    /// Opens a parenthesis or an operator, and an operand is to follow.
    fn open(&mut self, frame: Frame) -> Result<(), AllocError>
        ensures { IfOk result (λ _. self.new ≡ opened_by frame self.old) }
    {
        self.place = Place::Operand;
        self.frames.push(frame)
    }

    /// Opens an operator after its left operand, if it has one.
    fn wait(&mut self, operator: Operator) -> Result<(), AllocError>
        ensures { IfOk result (λ _. self.new ≡ waiting operator self.old) }
    {
        let left = self.last();
        self.open(Frame::Operator { operator, left })
    }

    /// Ends the operators that bind at least so tightly.
    fn fold(&mut self, least: u8) -> Result<(), AllocError>
        requires { 0 < least }
        ensures { IfOk result (λ _. self.new ≡ folded least self.old) }
    {
        fold(&mut self.frames, &mut self.drafts, least)
    }

    /// Ends an operand of one node, and the one-operand operators before it.
    fn complete(&mut self, node: Draft) -> Result<(), AllocError>
        ensures { IfOk result (λ _. self.new ≡ completed node self.old) }
    {
        self.place = Place::End;
        self.terms = Vec::new(self.alloc);
        self.drafts.push(node)?;
        self.fold(5)
    }

    /// Adds a term to the sum of the atom that is read; a sign or a comparison is to come.
    fn add_term(&mut self, term: Term) -> Result<(), AllocError>
        ensures { IfOk result (λ _. self.new ≡ record self.old { place = Place.Sign; terms = self.old.terms ++ term ∷ [] }) }
    {
        self.place = Place::Sign;
        self.terms.push(term)?;
        Ok(())
    }

    /// Ends a constant that is an operand.
    fn constant(&mut self, value: bool) -> Result<(), AllocError>
        requires { self.old.made ≤ 256 }
        ensures { IfOk result (λ _. self.new ≡ completed (Draft.Const value) (begun Place.End self.old)) }
    {
        self.begin(Place::End);
        self.complete(Draft::Const(value))
    }

    /// Begins an operand with a word of the grammar.
    fn begin_keyword(&mut self, word: Keyword) -> Result<bool, AllocError>
        requires { self.old.made ≤ 256 }
        ensures { IfOk result (λ taken. Gives (keyword_begins self.old word) taken self.new) }
    {
        match word {
            Keyword::Constant(value) => self.constant(value)?,
            Keyword::Not => {
                self.begin(Place::Operand);
                self.wait(Operator::Not)?;
            }
            Keyword::Timed(of) => {
                if of.is_beside() {
                    return Ok(false);
                }
                self.begin(Place::Bound { of });
            }
            _ => return Ok(false),
        }
        Ok(true)
    }

    /// Adds a term whose name the token spells.
    fn add_named(
        &mut self,
        text: &[u8],
        negative: bool,
        coef: u8,
        from: usize,
        to: usize,
    ) -> Result<(), AllocError>
        requires coef { coef ≤ 16 }
        requires order { from ≤ to }
        requires within { to ≤ length text.now }
        requires name { IsTrue (is_name (between from to text.now)) }
        ensures { IfOk result (λ _. self.new ≡ with_term negative coef (between from to text.now) self.old) }
    {
        let term = make_term(self.alloc, negative, coef, text, from, to)?;
        self.add_term(term)
    }

    /// Begins an operand by its first token, and answers whether the token can begin one.
    fn begin_operand(&mut self, text: &[u8], token: Token) -> Result<bool, AllocError>
        requires made { self.old.made ≤ 256 }
        requires known { IsKnown text.now token }
        ensures { IfOk result (λ taken. Gives (operand_begins text.now self.old token) taken self.new) }
    {
        match token {
            Token::Keyword(word) => return self.begin_keyword(word),
            Token::Name { from, to } => {
                self.begin(Place::Sign);
                self.add_named(text, false, 1, from, to)?;
            }
            Token::Number(coef) => self.begin(Place::Star {
                negative: false,
                coef,
            }),
            Token::OpenParen => self.open(Frame::Paren)?,
            Token::Plus => self.begin(Place::Term { negative: false }),
            Token::Minus => self.begin(Place::Term { negative: true }),
            _ => return Ok(false),
        }
        Ok(true)
    }

    /// Begins a bound, or an operand where the bound may be left out.
    fn begin_bound(&mut self, text: &[u8], of: Timed, token: Token) -> Result<bool, AllocError>
        requires made { self.old.made ≤ 256 }
        requires known { IsKnown text.now token }
        ensures { IfOk result (λ taken. Gives (bound_begins text.now of self.old token) taken self.new) }
    {
        if let Some(low_in) = opening(of, token) {
            self.place = Place::Low { of, low_in };
            return Ok(true);
        }
        if !of.looks_back() {
            return Ok(false);
        }
        self.wait(Operator::Timed(of, Bound::Whole))?;
        self.begin_operand(text, token)
    }

    /// Ends the bound of an operator, and answers whether the token is a bracket that can.
    fn end_bound(
        &mut self,
        of: Timed,
        low_in: bool,
        low: Decimal,
        high: Option<Decimal>,
        token: Token,
    ) -> Result<bool, AllocError>
        ensures { IfOk result (λ taken. Gives (bound_ends of low_in low high self.old (closing_of of token)) taken self.new) }
    {
        let Some(high_in) = closing(of, token) else {
            return Ok(false);
        };
        self.wait(Operator::Timed(of, bound(low_in, low, high, high_in)))?;
        Ok(true)
    }

    /// Ends an atom with its constant: the terms that were read become its sum.
    fn end_atom(&mut self, rel: Rel, negative: bool, limit: Decimal) -> Result<(), AllocError>
        ensures { IfOk result (λ _. self.new ≡ atom_ends rel negative self.old limit) }
    {
        let terms = std::mem::replace(&mut self.terms, Vec::new(self.alloc));
        self.complete(Draft::Sum(Sum::new(terms, rel, negative, limit)))
    }

    /// A constant, or a sign before it.
    fn step_constant(&mut self, rel: Rel, negative: bool, token: Token) -> Result<bool, AllocError>
        ensures { IfOk result (λ taken. Gives (constant_step self.old self.old.place rel negative token) taken self.new) }
    {
        if let Token::Number(limit) = token {
            self.end_atom(rel, negative, limit)?;
            return Ok(true);
        }
        Ok(self.move_to(next_place(self.place, token)))
    }

    /// A term without its sign, or what is left of it.
    fn step_term(
        &mut self,
        text: &[u8],
        negative: bool,
        coef: u8,
        token: Token,
    ) -> Result<bool, AllocError>
        requires coef { coef ≤ 16 }
        requires known { IsKnown text.now token }
        ensures { IfOk result (λ taken. Gives (term_step text.now self.old self.old.place negative coef token) taken self.new) }
    {
        if let Token::Name { from, to } = token {
            self.add_named(text, negative, coef, from, to)?;
            return Ok(true);
        }
        Ok(self.move_to(next_place(self.place, token)))
    }

    /// Joins the operand before it to one that is to follow.
    fn join(&mut self, connective: Connective) -> Result<(), AllocError>
        requires { self.old.made ≤ 256 }
        ensures { IfOk result (λ _. self.new ≡ joined_by connective self.old) }
    {
        self.fold(connective.left_rank())?;
        self.begin(Place::Operand);
        self.wait(Operator::Connective(connective))
    }

    /// Ends the innermost parenthesis, and answers whether there was one to end.
    fn close(&mut self) -> Result<bool, AllocError>
        ensures { IfOk result (λ taken. Gives (closed self.old) taken self.new) }
    {
        let Some(Frame::Paren) = self.frames.pop() else {
            return Ok(false);
        };
        self.place = Place::End;
        self.fold(5)?;
        Ok(true)
    }

    /// An operator with a bound after an operand, where it may stand there and no other does.
    fn begin_beside(&mut self, of: Timed) -> bool
        requires { self.old.made ≤ 256 }
        ensures { Gives (keyword_after self.old (Keyword.Timed of)) result self.new }
    {
        if !of.is_beside() {
            return false;
        }
        if self.frames.top_rank() >= 4 {
            return false;
        }
        self.begin(Place::Bound { of });
        true
    }

    /// A word of the grammar after a whole operand.
    fn after_keyword(&mut self, word: Keyword) -> Result<bool, AllocError>
        requires { self.old.made ≤ 256 }
        ensures { IfOk result (λ taken. Gives (keyword_after self.old word) taken self.new) }
    {
        match word {
            Keyword::Connective(connective) => {
                self.join(connective)?;
                Ok(true)
            }
            Keyword::Timed(of) => Ok(self.begin_beside(of)),
            _ => Ok(false),
        }
    }

    /// A token after a whole operand.
    fn after_operand(&mut self, token: Token) -> Result<bool, AllocError>
        requires { self.old.made ≤ 256 }
        ensures { IfOk result (λ taken. Gives (operand_after self.old token) taken self.new) }
    {
        match token {
            Token::Keyword(word) => self.after_keyword(word),
            Token::CloseParen => {
                self.fold(1)?;
                self.close()
            }
            _ => Ok(false),
        }
    }

    /// Takes one token more, and answers whether some formula begins so.
    pub(crate) fn step(&mut self, text: &[u8], token: Token) -> Result<bool, AllocError>
        requires made { self.old.made ≤ 256 }
        requires known { IsKnown text.now token }
        ensures { IfOk result (λ taken. Gives (parse_step text.now self.old token) taken self.new) }
    {
        match self.place {
            Place::Operand => self.begin_operand(text, token),
            Place::Bound { of } => self.begin_bound(text, of, token),
            Place::Closing {
                of,
                low_in,
                low,
                high,
            } => self.end_bound(of, low_in, low, high, token),
            Place::Term { negative } => self.step_term(text, negative, 1, token),
            Place::Name { negative, coef } => {
                self.step_term(text, negative, coefficient(coef), token)
            }
            Place::Constant { rel } => self.step_constant(rel, false, token),
            Place::Number { rel, negative } => self.step_constant(rel, negative, token),
            Place::End => self.after_operand(token),
            place => Ok(self.move_to(next_place(place, token))),
        }
    }

    /// The nodes, once the whole text was read.
    pub(crate) fn finish(self) -> Result<Vec<Draft>, AllocError>
        ensures { IfOk result (λ v. v.items ≡ folded_drafts 1 self.frames self.drafts) }
    {
        let Parser {
            mut frames,
            mut drafts,
            ..
        } = self;
        fold(&mut frames, &mut drafts, 1)?;
        Ok(drafts)
    }
}
