//! That a printed text is cut into the tokens that it was printed from.
ghost use Rattle.std.specs.Prelude.{◌≡◌, List};
ghost use Rattle.iq_tokens.specs.declared.tokens.Lexeme.{Lexeme as TheLexeme};
ghost use Rattle.iq_tokens.specs.Tokens.{tokens_of, lexemes};
ghost use Rattle.iq_token_text.specs.Texts.{tokens_text};
ghost use Rattle.iq_token_text.specs.Tokens.{AreLexemes};

/// The text of tokens is cut into these tokens.
pub fn printed_tokens_are_cut()
    ensures { (tokens : List TheLexeme) → AreLexemes tokens → lexemes (tokens_of (tokens_text tokens)) ≡ tokens }
{}
