//! That the table of the grammar and the grammar by cases spell the same texts.
ghost use Rattle.std.specs.Prelude.{◌≡◌, List};
ghost use Rattle.iq_ast.specs.declared.statements.Statement.{Statement as TheStatement};
ghost use Rattle.iq_tokens.specs.declared.tokens.Lexeme.{Lexeme as TheLexeme};
ghost use Rattle.iq_grammar.specs.Statements.{AreTokensOf};
ghost use Rattle.iq_spelling.specs.Texts.{IsText};

/// Each text of a statement by cases is read by the table as that statement, and no other text is; and a text is of one statement at
/// most.
pub fn texts_are_the_same()
    ensures read { (s : TheStatement) (text : List TheLexeme) → IsText s text → AreTokensOf text s }
    ensures only { (s : TheStatement) (text : List TheLexeme) → AreTokensOf text s → IsText s text }
    ensures one { (s t : TheStatement) (text : List TheLexeme) → IsText s text → IsText t text → s ≡ t }
{}
