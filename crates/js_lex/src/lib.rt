//! The tokens of a script (ECMA-262, "ECMAScript Language: Lexical Grammar"): [`tokens`] answers
//! the tokens of a file's bytes, each with its span, or the one fault that comes first, and
//! [`next_token`] reads them one by one, from the text that [`source_text`] makes of the bytes.
//! All identifiers are one kind of token; the parser reads them by their spans.
//!
//! The blanks are WhiteSpace and LineTerminator of the standard, a byte order mark among them.
//! There are no escapes in identifiers, no template or regular expression literals, no hashbang line
//! and no HTML-like comments.
//!
//! [`one_answer`], [`one_next`], [`spans_in_order`], [`token_text`] and [`span_text`] are laws for
//! the crates above: facts on the definitions, which a call of them brings into a proof.
#![tactic(auto)]

mod front;
mod lex;
mod mark;
mod step;
mod token;

pub use lex::{
    next_token, one_answer, one_next, source_text, span_text, spans_in_order, token_text, tokens,
};
pub use token::{LexFault, Mark, Token, TokenKind};
