//! Reserved words.
ghost use Rattle.std.specs.Prelude.{◌≡◌, ◌↔◌, map, None, false, IsTrue};
ghost use Rattle.std.specs.List.{list_all};
ghost use Rattle.iq_ast.specs.Words as words;
ghost use Rattle.iq_ast.specs.Words.{is_reserved, IsWord, IsName};
ghost use Rattle.iq_tokens.specs.Tokens as spec;

use crate::tokens::Mark;

/// The words that no name may be, each with its mark.
pub const WORDS: [(&[u8], Mark); 70] = [
    (b"alter", Mark::Alter),
    (b"and", Mark::And),
    (b"apply", Mark::Apply),
    (b"asc", Mark::Asc),
    (b"begin", Mark::Begin),
    (b"between", Mark::Between),
    (b"bigint", Mark::Bigint),
    (b"by", Mark::By),
    (b"catalog", Mark::Other),
    (b"cmp", Mark::Cmp),
    (b"commit", Mark::Commit),
    (b"coordinator", Mark::Coordinator),
    (b"count", Mark::Count),
    (b"create", Mark::Create),
    (b"delete", Mark::Delete),
    (b"desc", Mark::Desc),
    (b"drop", Mark::Drop),
    (b"excluded", Mark::Excluded),
    (b"explain", Mark::Explain),
    (b"from", Mark::From),
    (b"group", Mark::Group),
    (b"hg", Mark::Hg),
    (b"hng", Mark::Hng),
    (b"in", Mark::In),
    (b"included", Mark::Included),
    (b"index", Mark::Index),
    (b"inner", Mark::Other),
    (b"insert", Mark::Insert),
    (b"int", Mark::Int),
    (b"integer", Mark::Int),
    (b"into", Mark::Into),
    (b"is", Mark::Is),
    (b"join", Mark::Other),
    (b"lf", Mark::Lf),
    (b"load", Mark::Load),
    (b"lose", Mark::Lose),
    (b"max", Mark::Max),
    (b"min", Mark::Min),
    (b"multiplex", Mark::Multiplex),
    (b"node", Mark::Node),
    (b"not", Mark::Not),
    (b"null", Mark::Null),
    (b"on", Mark::On),
    (b"or", Mark::Or),
    (b"order", Mark::Order),
    (b"reader", Mark::Reader),
    (b"release", Mark::Release),
    (b"report", Mark::Report),
    (b"restart", Mark::Restart),
    (b"rollback", Mark::Rollback),
    (b"rows", Mark::Rows),
    (b"savepoint", Mark::Savepoint),
    (b"select", Mark::Select),
    (b"server", Mark::Server),
    (b"session", Mark::Session),
    (b"set", Mark::Set),
    (b"space", Mark::Space),
    (b"status", Mark::Status),
    (b"sum", Mark::Sum),
    (b"sync", Mark::Sync),
    (b"table", Mark::Table),
    (b"take", Mark::Take),
    (b"to", Mark::To),
    (b"transaction", Mark::Transaction),
    (b"update", Mark::Update),
    (b"values", Mark::Values),
    (b"varchar", Mark::Varchar),
    (b"versions", Mark::Versions),
    (b"where", Mark::Where),
    (b"writer", Mark::Writer),
];

fn lookup(mut table: &[(&[u8], Mark)], word: &[u8]) -> Option<Mark>
    ensures { result ≡ spec.lookup (map (λ k. (k.0.now, k.1)) table.entry.now) word.now }
{
    'entries: while let [entry, rest @ ..] = table {
        if entry.0 == word {
            return Some(entry.1);
        }
        table = rest;
    }
    None
}

/// The mark of a reserved word in lower case.
#[tactic(auto, unfolding(crate::specs::Tokens::reserved))]
pub fn reserved(word: &[u8]) -> Option<Mark>
    ensures value { result ≡ spec.reserved word.now }
    ensures none { (result ≡ None) ↔ (is_reserved word.now ≡ false) }
{
    lookup(&WORDS, word)
}

/// The longest name, in bytes.
pub const MOST_NAME: usize = 30;

fn begins_word(byte: u8) -> bool
    ensures { result ≡ words.begins_word byte }
{
    byte.is_ascii_lowercase() || byte == b'_'
}

fn is_in_word(byte: u8) -> bool
    ensures { result ≡ words.is_in_word byte }
{
    begins_word(byte) || byte.is_ascii_digit()
}

fn are_in_word(bytes: &[u8]) -> bool
    ensures { result ≡ list_all words.is_in_word bytes.now }
{
    bytes.iter().all(|byte| is_in_word(*byte))
}

fn is_word(bytes: &[u8]) -> bool
    ensures { IsTrue result ↔ IsWord bytes.now }
{
    match bytes {
        [] => false,
        [first, rest @ ..] => begins_word(*first) && are_in_word(rest),
    }
}

/// Whether the bytes are a name: a word in lower case of at most 30 bytes that isn't reserved.
pub fn is_name(bytes: &[u8]) -> bool
    ensures { IsTrue result ↔ IsName bytes.now }
{
    is_word(bytes) && bytes.len() <= MOST_NAME && reserved(bytes).is_none()
}
