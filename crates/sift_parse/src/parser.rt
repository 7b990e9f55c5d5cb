//! The task that tokens are, or the first token that offends.

ghost use Rattle.std.specs.Prelude.{◌≡◌, ◌<◌, ◌≤◌, OnOk, length, IfOk, OnSome, option_map};
ghost use Rattle.sift_lang.specs.Tree.{term_of, statement_of, block_of};
ghost use Rattle.sift_parse.specs.Grammar.{prim_level};
ghost use Rattle.sift_parse.specs.Reading.{prim_by, closed_by, middle_by, read, tail};
ghost use Rattle.sift_parse.specs.Parsing.{Reading};
ghost use Rattle.sift_parse.specs.ReadingBlocks.{read_block, valued_by, braced_by, else_by, if_by, statement_by, read_task};
ghost use Rattle.sift_parse.specs.Parsed.{Parses};

use crate::token::{Keyword, ReadStop, Sign, Token, Tokens};
use sift_base::Word;
use sift_lang::{Expr, Op, Stmt};
use std::alloc::Global;

// ---- expressions: a level an operator

/// The level of a prim, which binds tighter than each operator.
const PRIM_LEVEL: u8 = 5;

/// The level of comparisons, which takes one operator at most.
const COMPARISON_LEVEL: u8 = 0;

/// An expression.
fn expr(alloc: Global, tokens: &mut Tokens<'_>) -> Result<Expr, ReadStop>
    ensures reads { Reading term_of (λ fuel. read fuel 0) tokens.old.rest.now result tokens.new.rest.now }
    ensures goes_on { OnOk result (length tokens.new.rest.now < length tokens.old.rest.now) }
{
    level(alloc, tokens, 0)
}

/// An expression of the level: operands of the next, joined by the operators of this one.
#[cycle(exprs)]
fn level(alloc: Global, tokens: &mut Tokens<'_>, n: u8) -> Result<Expr, ReadStop>
    requires { n ≤ PRIM_LEVEL }
    ensures reads { Reading term_of (λ fuel. read fuel n) tokens.old.rest.now result tokens.new.rest.now }
    ensures goes_on { OnOk result (length tokens.new.rest.now < length tokens.old.rest.now) }
{
    if n == PRIM_LEVEL {
        return prim(alloc, tokens);
    }
    let first = level(alloc, tokens, n + 1)?;
    chain(alloc, tokens, n, first)
}

/// What the operators of the level that follow make of the operand before them.
#[cycle(exprs)]
fn chain(alloc: Global, tokens: &mut Tokens<'_>, n: u8, first: Expr) -> Result<Expr, ReadStop>
    requires { n < PRIM_LEVEL }
    ensures reads { Reading term_of (λ fuel. tail fuel n (term_of first)) tokens.old.rest.now result tokens.new.rest.now }
    ensures goes_on { OnOk result (length tokens.new.rest.now ≤ length tokens.old.rest.now) }
{
    let mut left = first;
    while let Some(op) = tokens.operator(n) {
        let before = Box::new(alloc, left)?;
        let right = level(alloc, tokens, n + 1)?;
        left = Expr::Binary(op, before, Box::new(alloc, right)?);
        // Comparisons aren't joined: `a < b < c` is no expression.
        if n == COMPARISON_LEVEL {
            return Ok(left);
        }
    }
    Ok(left)
}

/// A prim.
#[cycle(exprs)]
fn prim(alloc: Global, tokens: &mut Tokens<'_>) -> Result<Expr, ReadStop>
    ensures reads { Reading term_of (λ fuel. prim_by (read fuel prim_level) (read fuel 0)) tokens.old.rest.now result tokens.new.rest.now }
    ensures goes_on { OnOk result (length tokens.new.rest.now < length tokens.old.rest.now) }
{
    let [token, rest @ ..] = tokens.rest else {
        return Err(ReadStop::Syntax);
    };
    let front = *tokens;
    tokens.rest = rest;
    match token {
        Token::Number(number) => Ok(Expr::Number(Word::of(*number))),
        Token::Name(local) => Ok(Expr::Local(*local)),
        Token::Operator(Op::Sub) => {
            let part = level(alloc, tokens, PRIM_LEVEL)?;
            Ok(Expr::Minus(Box::new(alloc, part)?))
        }
        Token::Sign(Sign::OpenParen) => closed(alloc, tokens, Sign::CloseParen),
        Token::Keyword(Keyword::Mid) => middle(alloc, tokens),
        Token::Keyword(Keyword::Sense) => Ok(Expr::Sense(tokens.name()?)),
        Token::Keyword(Keyword::Now) => Ok(Expr::Now(tokens.word()?)),
        Token::Keyword(Keyword::Last) => Ok(Expr::Last(tokens.word()?)),
        _ => {
            // The place of an offence is where the tokens stand: before the one that offends.
            *tokens = front;
            Err(ReadStop::Syntax)
        }
    }
}

/// An expression, closed by the sign after it: a comma or a parenthesis.
#[cycle(exprs)]
fn closed(alloc: Global, tokens: &mut Tokens<'_>, sign: Sign) -> Result<Expr, ReadStop>
    ensures reads { Reading term_of (λ fuel. closed_by sign (read fuel 0)) tokens.old.rest.now result tokens.new.rest.now }
    ensures goes_on { OnOk result (length tokens.new.rest.now < length tokens.old.rest.now) }
{
    let inner = level(alloc, tokens, 0)?;
    tokens.sign(sign)?;
    Ok(inner)
}

/// What follows `mid`: three expressions in parentheses.
#[cycle(exprs)]
fn middle(alloc: Global, tokens: &mut Tokens<'_>) -> Result<Expr, ReadStop>
    ensures reads { Reading term_of (λ fuel. middle_by (read fuel 0)) tokens.old.rest.now result tokens.new.rest.now }
    ensures goes_on { OnOk result (length tokens.new.rest.now < length tokens.old.rest.now) }
{
    tokens.sign(Sign::OpenParen)?;
    let first = Box::new(alloc, closed(alloc, tokens, Sign::Comma)?)?;
    let second = Box::new(alloc, closed(alloc, tokens, Sign::Comma)?)?;
    let third = Box::new(alloc, closed(alloc, tokens, Sign::CloseParen)?)?;
    Ok(Expr::Mid(first, second, third))
}

// ---- blocks and statements

/// A block: its statements in turn.
#[cycle(blocks)]
pub(crate) fn block(alloc: Global, tokens: &mut Tokens<'_>) -> Result<Vec<Stmt>, ReadStop>
    ensures reads { Reading (λ v. block_of v.items) (λ fuel. read_block fuel) tokens.old.rest.now result tokens.new.rest.now }
    ensures goes_on { OnOk result (length tokens.new.rest.now ≤ length tokens.old.rest.now) }
{
    let mut statements = Vec::new(alloc);
    while let Some(next) = statement(alloc, tokens)? {
        statements.push(next)?;
    }
    Ok(statements)
}

/// A statement, if one begins here.
#[cycle(blocks)]
fn statement(alloc: Global, tokens: &mut Tokens<'_>) -> Result<Option<Stmt>, ReadStop>
    ensures reads { Reading (option_map statement_of) (λ fuel. statement_by (read fuel 0) (read_block fuel)) tokens.old.rest.now result tokens.new.rest.now }
    ensures goes_on { IfOk result (λ o. OnSome o (length tokens.new.rest.now < length tokens.old.rest.now)) }
{
    let [token, rest @ ..] = tokens.rest else {
        return Ok(None);
    };
    let front = *tokens;
    tokens.rest = rest;
    match token {
        Token::Keyword(Keyword::Let) => {
            tokens.name()?;
            Ok(Some(Stmt::Let(value(alloc, tokens)?)))
        }
        Token::Name(local) => Ok(Some(Stmt::Set(*local, value(alloc, tokens)?))),
        Token::Keyword(Keyword::Out) => {
            let word = tokens.index()?;
            Ok(Some(Stmt::Output(word, value(alloc, tokens)?)))
        }
        Token::Keyword(Keyword::If) => Ok(Some(branches(alloc, tokens)?)),
        Token::Keyword(Keyword::Repeat) => {
            let rounds = tokens.number()?;
            Ok(Some(Stmt::Repeat(rounds, braced(alloc, tokens)?)))
        }
        _ => {
            // No statement begins with it, so it is left to who called for the block: it may be its `}`.
            *tokens = front;
            Ok(None)
        }
    }
}

/// The expression of a statement, from its `=` to its `;`.
fn value(alloc: Global, tokens: &mut Tokens<'_>) -> Result<Expr, ReadStop>
    ensures reads { Reading term_of (λ fuel. valued_by (read fuel 0)) tokens.old.rest.now result tokens.new.rest.now }
    ensures goes_on { OnOk result (length tokens.new.rest.now < length tokens.old.rest.now) }
{
    tokens.sign(Sign::Assign)?;
    let value = expr(alloc, tokens)?;
    tokens.sign(Sign::Semicolon)?;
    Ok(value)
}

/// What follows `if`.
#[cycle(blocks)]
fn branches(alloc: Global, tokens: &mut Tokens<'_>) -> Result<Stmt, ReadStop>
    ensures reads { Reading statement_of (λ fuel. if_by (read fuel 0) (read_block fuel)) tokens.old.rest.now result tokens.new.rest.now }
    ensures goes_on { OnOk result (length tokens.new.rest.now < length tokens.old.rest.now) }
{
    let test = expr(alloc, tokens)?;
    let first = braced(alloc, tokens)?;
    second_branch(alloc, tokens, test, first)
}

/// The `else` of an `if`, where there is one.
#[cycle(blocks)]
fn second_branch(
    alloc: Global,
    tokens: &mut Tokens<'_>,
    test: Expr,
    first: Vec<Stmt>,
) -> Result<Stmt, ReadStop>
    ensures reads { Reading statement_of (λ fuel. else_by (read_block fuel) (term_of test) (block_of first.items)) tokens.old.rest.now result tokens.new.rest.now }
    ensures goes_on { OnOk result (length tokens.new.rest.now ≤ length tokens.old.rest.now) }
{
    if !tokens.otherwise() {
        return Ok(Stmt::If(test, first, None));
    }
    let second = braced(alloc, tokens)?;
    Ok(Stmt::If(test, first, Some(second)))
}

/// A block in braces.
#[cycle(blocks)]
fn braced(alloc: Global, tokens: &mut Tokens<'_>) -> Result<Vec<Stmt>, ReadStop>
    ensures reads { Reading (λ v. block_of v.items) (λ fuel. braced_by (read_block fuel)) tokens.old.rest.now result tokens.new.rest.now }
    ensures goes_on { OnOk result (length tokens.new.rest.now < length tokens.old.rest.now) }
{
    tokens.sign(Sign::OpenBrace)?;
    let inner = block(alloc, tokens)?;
    tokens.sign(Sign::CloseBrace)?;
    Ok(inner)
}

// ---- tasks

/// Why tokens are no task.
#[derive(Clone, Copy)]
pub(crate) enum Offence {
    /// The tokens before this one begin some task, and with it they don't; or the tokens end here and are no task.
    Syntax { at: usize },
    NoMemory,
}

/// The body of the task that the tokens are.
pub(crate) fn parse(alloc: Global, all: &[Token]) -> Result<Vec<Stmt>, Offence>
    ensures { Parses all.now result }
{
    let mut tokens = Tokens { rest: all };
    match whole(alloc, &mut tokens) {
        Ok(body) => Ok(body),
        Err(ReadStop::Syntax) => Err(Offence::Syntax {
            at: all.len() - tokens.rest.len(),
        }),
        Err(ReadStop::NoMemory) => Err(Offence::NoMemory),
    }
}

/// A block after which no token is left.
fn whole(alloc: Global, tokens: &mut Tokens<'_>) -> Result<Vec<Stmt>, ReadStop>
    ensures { Reading (λ v. block_of v.items) read_task tokens.old.rest.now result tokens.new.rest.now }
{
    let body = block(alloc, tokens)?;
    if tokens.rest.is_empty() {
        Ok(body)
    } else {
        Err(ReadStop::Syntax)
    }
}
