//! The tokens of a source with the next one in hand.

ghost use Rattle.std.specs.Prelude.{◌≡◌, ◌∷◌, false, option_map, is_some};
ghost use Rattle.rv_expression_laws.specs.Lexing.{is_last};
ghost use Rattle.rv_expression_laws.specs.SyntaxError.{wrong};
ghost use Rattle.rv_expression_laws.specs.Joined.{joined_bytes, joined_at};
ghost use Rattle.rv_fault.specs.SourceFault.{source_fault_number};
ghost use Rattle.rv_lexer.specs.Token.{token_of, kind_of};
ghost use Rattle.rv_lexer.specs.Left.{GivesToken};

use crate::lexer::Lexer;
use crate::syntax_error::SyntaxError;
use crate::token::{Token, TokenKind};
use rv_expression_laws::Punct;
use rv_fault::SourceCode;

/// A token that goes on with a name, where no gap is between.
fn joins(kind: TokenKind<'_>) -> bool
    ensures { result ≡ is_some (joined_bytes (kind_of kind.entry)) }
{
    matches!(
        kind,
        TokenKind::Name(_)
            | TokenKind::Number(..)
            | TokenKind::Reference(..)
            | TokenKind::BadWord(_)
            | TokenKind::Punct(Punct::Minus)
    )
}

/// The tokens that a source has left: the next one, and the lexers before and after it.
#[derive(Clone, Copy, Drop)]
pub struct Cursor<'a> {
    /// The next token.
    pub next: Token<'a>,
    /// The lexer that gave it, before it did.
    before: Lexer<'a>,
    lexer: Lexer<'a>,
    ghost gives: { GivesToken before next lexer },
}

impl<'a> Cursor<'a> {
    ghost use Rattle.rv_lexer.specs.Left.{tokens_left};
    ghost use Rattle.rv_lexer.specs.Cursor.{remaining, syntax_error_of};

    /// The tokens of a lexer.
    #[tactic(auto, unfolding(crate::specs::Cursor::remaining))]
    pub fn new(lexer: Lexer<'a>) -> Self
        ensures { remaining result ≡ tokens_left lexer.entry }
    {
        let before = lexer;
        let mut lexer = lexer;
        let next = lexer.token();
        Cursor {
            next,
            before,
            lexer,
        }
    }

    /// Takes the next token, which is not the last.
    #[tactic(auto, unfolding(crate::specs::Cursor::remaining))]
    pub fn advance(&mut self)
        requires { is_last (kind_of self.old.next.kind) ≡ false }
        ensures { remaining self.old ≡ token_of self.old.next ∷ remaining self.new }
    {
        self.before = self.lexer;
        self.lexer.put_next(&mut self.next);
    }

    /// The lexer whose next token is the cursor's.
    #[tactic(auto, unfolding(crate::specs::Cursor::remaining))]
    pub fn lexer(&self) -> Lexer<'a>
        ensures { tokens_left result ≡ remaining self.now }
    {
        self.before
    }

    /// The name at the front, in which minus signs may stand after the first byte; the cursor stays where none is.
    pub fn joined(&mut self) -> Option<&'a [u8]>
        ensures { option_map (λ name. (name.now, remaining self.new)) result
            ≡ joined_at (remaining self.old) }
    {
        let TokenKind::Name(_) = self.next.kind else {
            return None;
        };
        let before = self.before;
        let start = self.next.start;
        let mut stop = self.next.stop;
        self.advance();
        while self.next.start == stop && joins(self.next.kind) {
            stop = self.next.stop;
            self.advance();
        }
        Some(before.between(start, stop))
    }

    /// The next token is wrong.
    pub fn wrong(&self, code: SourceCode) -> SyntaxError
        ensures { syntax_error_of result
            ≡ wrong (token_of self.now.next) (source_fault_number code) }
    {
        SyntaxError::at(self.next, code)
    }
}
