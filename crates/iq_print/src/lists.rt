//! Lists with a comma between each two members.
ghost use Rattle.std.specs.Prelude.{◌≡◌, List, OnOk};
ghost use Rattle.iq_tokens.specs.declared.tokens.Lexeme.{Lexeme as TheLexeme};
ghost use Rattle.iq_token_text.specs.Texts.{with_tokens};
ghost use Rattle.iq_print.specs.Conditions.{listed};

use iq_token_text::TokenText;
use iq_tokens::Mark;
use std::alloc::AllocError;

/// What is printed as some tokens.
pub(crate) trait Spelled {
    /// Its tokens.
    ghost words: { Self → List TheLexeme };

    /// Adds its tokens.
    fn spell(&self, out: &mut TokenText) -> Result<(), AllocError>
        ensures { OnOk result (out.new ≡ with_tokens out.old (words self.now)) };
}

/// The members of a list, with a comma between each two.
pub(crate) fn push_listed<T: Spelled>(out: &mut TokenText, members: &[T]) -> Result<(), AllocError>
    ensures { OnOk result (out.new ≡ with_tokens out.old (listed T.words members.now)) }
{
    let [first, rest @ ..] = members else {
        return Ok(());
    };
    first.spell(out)?;
    for member in rest {
        out.mark(Mark::Comma)?;
        member.spell(out)?;
    }
    Ok(())
}
