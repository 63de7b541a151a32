//! The words that begin lists.
ghost use Rattle.std.specs.Prelude.{◌≡◌};
ghost use Rattle.tau_forms.specs.Keywords.{sort_in, failure_in, keyword_in, operation_in};

use tau_sexpr::Word;
use tau_tree::Prim;

/// What a list at the top is, by the word that begins it.
#[derive(Clone, Copy, Debug, PartialEq, Eq)]
pub(crate) enum Sort {
    Nodes,
    Behaviour,
    Start,
    Post,
    At,
    Version,
    Other,
}

/// What a script entry does, by the word that begins its inner list.
#[derive(Clone, Copy, Debug, PartialEq, Eq)]
pub(crate) enum FailureWord {
    Fail,
    Lose,
    Repeat,
    Other,
}

/// What a list is as an expression, by the word that begins it.
#[derive(Clone, Copy, Debug, PartialEq, Eq)]
pub(crate) enum Keyword {
    Name,
    List,
    Let,
    If,
    Seq,
    Fold,
    Apply(Prim),
    Get,
    Set,
    Send,
    New,
    Stabilize,
    Checkpoint,
    Rollback,
    Dependent,
    Other,
}

pub(crate) fn sort_of(word: &Word) -> Sort
    ensures { result ≡ sort_in word.now }
{
    let bytes = word.bytes();
    if bytes == b"nodes".as_slice() {
        return Sort::Nodes;
    }
    if bytes == b"behaviour".as_slice() {
        return Sort::Behaviour;
    }
    if bytes == b"start".as_slice() {
        return Sort::Start;
    }
    if bytes == b"post".as_slice() {
        return Sort::Post;
    }
    if bytes == b"at".as_slice() {
        return Sort::At;
    }
    if bytes == b"version".as_slice() {
        return Sort::Version;
    }
    Sort::Other
}

pub(crate) fn failure_of(word: &Word) -> FailureWord
    ensures { result ≡ failure_in word.now }
{
    if word.bytes() == b"fail".as_slice() {
        return FailureWord::Fail;
    }
    if word.bytes() == b"lose".as_slice() {
        return FailureWord::Lose;
    }
    if word.bytes() == b"repeat".as_slice() {
        return FailureWord::Repeat;
    }
    FailureWord::Other
}

pub(crate) fn keyword_of(word: &Word) -> Keyword
    ensures { result ≡ keyword_in word.now }
{
    let bytes = word.bytes();
    if bytes == b"name".as_slice() {
        return Keyword::Name;
    }
    if bytes == b"list".as_slice() {
        return Keyword::List;
    }
    if bytes == b"let".as_slice() {
        return Keyword::Let;
    }
    if bytes == b"if".as_slice() {
        return Keyword::If;
    }
    if bytes == b"seq".as_slice() {
        return Keyword::Seq;
    }
    if bytes == b"fold".as_slice() {
        return Keyword::Fold;
    }
    if bytes == b"new".as_slice() {
        return Keyword::New;
    }
    if bytes == b"get".as_slice() {
        return Keyword::Get;
    }
    if bytes == b"set".as_slice() {
        return Keyword::Set;
    }
    if bytes == b"send".as_slice() {
        return Keyword::Send;
    }
    if bytes == b"stabilize".as_slice() {
        return Keyword::Stabilize;
    }
    if bytes == b"checkpoint".as_slice() {
        return Keyword::Checkpoint;
    }
    if bytes == b"rollback".as_slice() {
        return Keyword::Rollback;
    }
    if bytes == b"dependent".as_slice() {
        return Keyword::Dependent;
    }
    match operation_of(bytes) {
        Some(prim) => Keyword::Apply(prim),
        None => Keyword::Other,
    }
}

fn operation_of(bytes: &[u8]) -> Option<Prim>
    ensures { result ≡ operation_in bytes.now }
{
    if bytes == b"+".as_slice() {
        return Some(Prim::Add);
    }
    if bytes == b"-".as_slice() {
        return Some(Prim::Sub);
    }
    if bytes == b"*".as_slice() {
        return Some(Prim::Mul);
    }
    if bytes == b"/".as_slice() {
        return Some(Prim::Div);
    }
    if bytes == b"%".as_slice() {
        return Some(Prim::Rem);
    }
    if bytes == b"<".as_slice() {
        return Some(Prim::Less);
    }
    if bytes == b"=".as_slice() {
        return Some(Prim::Same);
    }
    if bytes == b"not".as_slice() {
        return Some(Prim::Not);
    }
    if bytes == b"len".as_slice() {
        return Some(Prim::Len);
    }
    if bytes == b"at".as_slice() {
        return Some(Prim::Item);
    }
    if bytes == b"push".as_slice() {
        return Some(Prim::Push);
    }
    if bytes == b"cat".as_slice() {
        return Some(Prim::Cat);
    }
    None
}
