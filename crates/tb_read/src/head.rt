//! The first word of a line.

ghost use Rattle.std.specs.Prelude.{◌≡◌, Some, if◌then◌else◌};
ghost use Rattle.tb_read.specs.Word.{same_word};
ghost use Rattle.tb_read.specs.Grammar.{head_of};

use crate::word::same_word;

/// The first word of a line, which says what the line is.
#[derive(Clone, Copy, Debug, PartialEq, Eq)]
pub enum Head {
    Cells,
    Cell,
    Body,
    End,
    Let,
    Load,
    Store,
    Print,
    Task,
    Taskwait,
    Taskgroup,
    If,
    Else,
    While,
}

/// The head where the word is its name, and else the other.
fn pick(word: &[u8], name: &[u8], head: Head, other: Option<Head>) -> Option<Head>
    ensures { result ≡ (if same_word word.now name.now then Some head else other) }
{
    if same_word(word, name) {
        Some(head)
    } else {
        other
    }
}

/// The head that the word is. Its first byte leaves three names at most.
pub fn head_of(word: &[u8]) -> Option<Head>
    ensures { result ≡ head_of word.now }
{
    match word {
        [b'c', ..] => pick(
            word,
            b"cells",
            Head::Cells,
            pick(word, b"cell", Head::Cell, None),
        ),
        [b'b', ..] => pick(word, b"body", Head::Body, None),
        [b'e', ..] => pick(
            word,
            b"end",
            Head::End,
            pick(word, b"else", Head::Else, None),
        ),
        [b'l', ..] => pick(
            word,
            b"let",
            Head::Let,
            pick(word, b"load", Head::Load, None),
        ),
        [b's', ..] => pick(word, b"store", Head::Store, None),
        [b'p', ..] => pick(word, b"print", Head::Print, None),
        [b't', ..] => pick(
            word,
            b"task",
            Head::Task,
            pick(
                word,
                b"taskwait",
                Head::Taskwait,
                pick(word, b"taskgroup", Head::Taskgroup, None),
            ),
        ),
        [b'i', ..] => pick(word, b"if", Head::If, None),
        [b'w', ..] => pick(word, b"while", Head::While, None),
        _ => None,
    }
}
