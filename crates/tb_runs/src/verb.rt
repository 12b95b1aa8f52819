//! The word that says what a task did.

ghost use Rattle.std.specs.Prelude.{◌≡◌};
ghost use Rattle.tb_runs.specs.Actions.{verb_of, rare_verb_of};

use tb_read::same_word;

/// The first word of what an event says that its task did.
#[derive(Clone, Copy, Debug, PartialEq, Eq)]
pub enum Verb {
    Start,
    Let,
    Load,
    Store,
    Print,
    Spawn,
    Wait,
    Open,
    Close,
    Test,
    End,
    Fault,
}

/// The verb that the word is; those of most events are asked for first.
pub fn verb_of(word: &[u8]) -> Option<Verb>
    ensures { result ≡ verb_of word.now }
{
    if same_word(word, b"load") {
        Some(Verb::Load)
    } else if same_word(word, b"store") {
        Some(Verb::Store)
    } else if same_word(word, b"test") {
        Some(Verb::Test)
    } else if same_word(word, b"let") {
        Some(Verb::Let)
    } else if same_word(word, b"start") {
        Some(Verb::Start)
    } else if same_word(word, b"end") {
        Some(Verb::End)
    } else {
        rare_verb(word)
    }
}

fn rare_verb(word: &[u8]) -> Option<Verb>
    ensures { result ≡ rare_verb_of word.now }
{
    if same_word(word, b"spawn") {
        Some(Verb::Spawn)
    } else if same_word(word, b"wait") {
        Some(Verb::Wait)
    } else if same_word(word, b"open") {
        Some(Verb::Open)
    } else if same_word(word, b"close") {
        Some(Verb::Close)
    } else if same_word(word, b"print") {
        Some(Verb::Print)
    } else if same_word(word, b"fault") {
        Some(Verb::Fault)
    } else {
        None
    }
}
