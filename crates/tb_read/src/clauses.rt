//! The words of a `task` line after its name, and those of a `taskwait`.

ghost use Rattle.std.specs.Prelude.{◌≡◌, ◌≤◌, false, map, length};
ghost use Rattle.std.specs.List.{list_any};
ghost use Rattle.tb_read.specs.Clauses.{begins_clause, argument_count, arguments, clause_words, begins_test, allows_all, three_places, test_places, is_misplaced_in_rest, is_misplaced_in_clauses, is_broken, item_count, is_misplaced_argument, is_misplaced_behind_name};
ghost use Rattle.tb_read.specs.Grammar.{is_misplaced};
ghost use Rattle.tb_read.specs.Misfits.{Finds};

use crate::misfits::Misfits;
use crate::place::Place;
use crate::word::{same_word, word_at};

fn begins_clause(word: &[u8]) -> bool
    ensures { result ≡ begins_clause word.now }
{
    same_word(word, b"depend") || same_word(word, b"if")
}

/// How many of the words after a `task` line's name are arguments.
pub fn argument_count(words: &[&[u8]]) -> usize
    ensures count { result ≡ argument_count (map (λ word. word.now) words.now) }
    ensures within { result ≤ length words.now }
{
    let mut count = 0;
    let mut left = words;
    while let [word, rest @ ..] = left {
        if begins_clause(word) {
            return count;
        }
        count += 1;
        left = rest;
    }
    count
}

/// The arguments among the words after a `task` line's name.
pub fn arguments<'w, 'a>(words: &'w [&'a [u8]]) -> &'w [&'a [u8]]
    ensures { map (λ word. word.now) result.now ≡ arguments (map (λ word. word.now) words.now) }
{
    &words[..argument_count(words)]
}

/// The clauses among the words after a `task` line's name.
pub fn clause_words<'w, 'a>(words: &'w [&'a [u8]]) -> &'w [&'a [u8]]
    ensures { map (λ word. word.now) result.now ≡ clause_words (map (λ word. word.now) words.now) }
{
    &words[argument_count(words)..]
}

/// Whether the word begins the `if` clause of a `task` line.
pub fn begins_test(on_wait: bool, word: &[u8]) -> bool
    ensures { result ≡ begins_test on_wait word.now }
{
    !on_wait && same_word(word, b"if")
}

fn allows_all(kind: &[u8]) -> bool
    ensures { result ≡ allows_all kind.now }
{
    same_word(kind, b"out") || same_word(kind, b"inout")
}

fn test_places() -> &'static [Place]
    ensures { result.now ≡ test_places }
{
    &[Place::Operand, Place::Comparison, Place::Operand]
}

/// Adds the faults of the words of a three at their indexes; words may be missing at its end.
fn add_three(found: &mut Misfits, on_wait: bool, kind: &[u8], three: &[&[u8]])
    ensures { Finds found.old found.new (λ fault. is_misplaced fault (three_places on_wait kind.now) (map (λ word. word.now) three.now)) }
{
    let places = [
        Place::Depend,
        Place::Dependence { on_wait },
        Place::Address {
            allows_all: allows_all(kind),
        },
    ];
    found.add_all(&places, three);
}

/// Adds the faults of the words after the last whole three at their indexes: those of a test, or of
/// a three that lacks some.
fn add_rest(found: &mut Misfits, on_wait: bool, words: &[&[u8]])
    ensures { Finds found.old found.new (λ fault. is_misplaced_in_rest fault on_wait (map (λ word. word.now) words.now)) }
{
    match words {
        [] => {}
        [word, rest @ ..] => {
            if begins_test(on_wait, word) {
                found.add_all(test_places(), rest);
            } else {
                add_three(found, on_wait, word_at(rest, 0), words);
            }
        }
    }
}

/// Adds the faults of the words of the clauses at their indexes.
pub fn add_clauses(found: &mut Misfits, on_wait: bool, words: &[&[u8]])
    ensures { Finds found.old found.new (λ fault. is_misplaced_in_clauses fault on_wait (map (λ word. word.now) words.now)) }
{
    let mut left = words;
    while let [word, kind, address, rest @ ..] = left {
        if begins_test(on_wait, word) {
            found.add_all(test_places(), &left[1..]);
            return;
        }
        add_three(found, on_wait, kind, &[*word, *kind, *address]);
        left = rest;
    }
    add_rest(found, on_wait, left);
}

/// Whether the last three isn't whole, or an `if` clause isn't the last four words.
pub fn is_broken(on_wait: bool, words: &[&[u8]]) -> bool
    ensures { result ≡ is_broken on_wait (map (λ word. word.now) words.now) }
{
    let mut left = words;
    while let [word, _, _, rest @ ..] = left {
        if begins_test(on_wait, word) {
            return rest.len() != 1;
        }
        left = rest;
    }
    !left.is_empty()
}

/// The count of depend items.
pub fn item_count(on_wait: bool, words: &[&[u8]]) -> usize
    ensures { result ≡ item_count on_wait (map (λ word. word.now) words.now) }
{
    let mut count = 0;
    let mut left = words;
    while let [word, _, _, rest @ ..] = left {
        if begins_test(on_wait, word) {
            return count;
        }
        count += 1;
        left = rest;
    }
    count
}

fn add_arguments(found: &mut Misfits, words: &[&[u8]])
    ensures { Finds found.old found.new (λ fault. list_any (is_misplaced_argument fault) (map (λ word. word.now) words.now)) }
{
    let mut left = words;
    while let [word, rest @ ..] = left {
        found.add(Place::Operand, word);
        left = rest;
    }
}

/// Adds the faults of the words after a `task` line's name at their indexes.
pub fn add_behind_name(found: &mut Misfits, words: &[&[u8]])
    ensures { Finds found.old found.new (λ fault. is_misplaced_behind_name fault (map (λ word. word.now) words.now)) }
{
    add_arguments(found, arguments(words));
    add_clauses(found, false, clause_words(words));
}
