//! A text that is still to be written.

ghost use Rattle.std.specs.Prelude.{◌≡◌, ◌+◌, ◌++◌, ◌-◌, ◌<◌, ◌^◌, [], IfOk, OnErr, OnOk, decimal, encode_utf8, string_bytes};
ghost use Rattle.std.specs.Fmt.{signed_decimal};
ghost use Rattle.std.specs.Io.KnownBytes.{Appends};
ghost use Rattle.tb_model.specs.Spelling.{name_text, step_id_text};
ghost use Rattle.tb_draft.specs.Written.{Told, WroteFront};

use crate::passage::Passage;
use crate::spelling::put_passages;
use crate::waiting::{ROOM, put};
use arrayvec::ArrayVec;
use std::alloc::{AllocError, Global};
use std::marker::Model;
use std::mem::replace;
use tb_lines::{Failed, Sink, write_whole};
use tb_model::{TaskName, append_number, append_signed};

/// The most long names that wait: as text they have at least as many bytes.
const NAMES: usize = 256;

/// A text that is still to be written. A name of more than 128 levels is in it as what names share,
/// and is spelled as it is written: so a text of many deep names takes memory for each of their
/// lines, and not for each of their levels.
#[derive(Drop)]
pub struct Draft {
    alloc: Global,
    passages: Vec<Passage>,
    text: String,
}

impl Model for Draft {
    ghost use Rattle.std.specs.Prelude.{List, ℕ, ◌++◌, string_bytes};
    ghost use Rattle.tb_draft.specs.Passages.{passages_text};

    ghost Value = { List ℕ };

    ghost view = { λ d. passages_text d.passages.items ++ string_bytes d.text };
}

impl Draft {
    /// An empty text. Takes no memory.
    pub fn new(alloc: Global) -> Draft
        ensures { result ≡ [] }
    {
        Draft::of(alloc, String::new(alloc))
    }

    /// A draft of this text. Takes no memory.
    pub fn of(alloc: Global, text: String) -> Draft
        ensures { result ≡ string_bytes text }
    {
        Draft {
            alloc,
            passages: Vec::new(alloc),
            text,
        }
    }

    /// Appends a text.
    #[inline(always)]
    pub fn push_str(&mut self, text: &str) -> Result<(), AllocError>
        ensures ok { OnOk result (self.new ≡ self.old ++ text.now) }
        ensures err { OnErr result (self.new ≡ self.old) }
    {
        self.text.push_str(text)
    }

    /// Appends a character.
    pub fn push(&mut self, character: char) -> Result<(), AllocError>
        ensures ok { OnOk result (self.new ≡ self.old ++ encode_utf8 character) }
        ensures err { OnErr result (self.new ≡ self.old) }
    {
        self.text.push(character)
    }

    /// Appends a number in decimal.
    pub fn push_number(&mut self, n: u32) -> Result<(), AllocError>
        ensures ok { OnOk result (self.new ≡ self.old ++ decimal n) }
        ensures err { OnErr result (self.new ≡ self.old) }
    {
        append_number(&mut self.text, n)
    }

    /// Appends a number in decimal, with a minus where it is below zero.
    pub fn push_signed(&mut self, n: i64) -> Result<(), AllocError>
        ensures ok { OnOk result (self.new ≡ self.old ++ signed_decimal n) }
        ensures err { OnErr result (self.new ≡ self.old) }
    {
        append_signed(&mut self.text, n)
    }

    /// Appends a name.
    #[inline(always)]
    pub fn push_name(&mut self, name: &TaskName) -> Result<(), AllocError>
        ensures ok { OnOk result (self.new ≡ self.old ++ name_text name.now) }
        ensures err { OnErr result (self.new ≡ self.old) }
    {
        if name.is_deep() {
            self.push_deep(name)
        } else {
            name.print(&mut self.text)
        }
    }

    fn push_deep(&mut self, name: &TaskName) -> Result<(), AllocError>
        ensures ok { OnOk result (self.new ≡ self.old ++ name_text name.now) }
        ensures err { OnErr result (self.new ≡ self.old) }
    {
        self.passages.reserve(1)?;
        let name = name.clone()?;
        let text = replace(&mut self.text, String::new(self.alloc));
        self.passages.push_reserved(Passage { text, name });
        Ok(())
    }

    /// Appends the name of the kth step of a task, as `0.1#3`. Where memory runs out a part of it
    /// may stay.
    #[inline(always)]
    pub fn push_step(&mut self, task: &TaskName, k: u32) -> Result<(), AllocError>
        ensures { OnOk result (self.new ≡ self.old ++ step_id_text (record { task = task.now; k = k })) }
    {
        self.push_name(task)?;
        self.push('#')?;
        self.push_number(k)
    }

    /// Puts a text in front of all.
    pub fn prepend(&mut self, text: &str) -> Result<(), AllocError>
        ensures ok { OnOk result (self.new ≡ text.now ++ self.old) }
        ensures err { OnErr result (self.new ≡ self.old) }
    {
        if self.passages.is_empty() {
            self.text.insert_str(0, text)
        } else {
            self.passages[0].text.insert_str(0, text)
        }
    }

    /// Puts another draft in front of all. Where memory runs out nothing is known of what is there.
    pub fn prepend_draft(&mut self, front: Draft) -> Result<(), AllocError>
        ensures { OnOk result (self.new ≡ front ++ self.old) }
    {
        self.prepend(front.text.as_str())?;
        let mut passages = front.passages;
        passages.append(&mut self.passages)?;
        self.passages = passages;
        Ok(())
    }

    /// Writes the text, in one call where the sink takes it at once and it has no long name, or up to 65,536 bytes. At `Err` a
    /// beginning of it was written. Takes no memory.
    pub fn write<K: Sink>(&self, sink: &mut K) -> Result<(), Failed>
        requires { K.failures sink.old < 2 ^ 64 - 1 }
        ensures ok { OnOk result (Appends (K.taken sink.old) (K.taken sink.new) self.now
            × (K.failures sink.new ≡ K.failures sink.old)) }
        ensures err { OnErr result (WroteFront (K.taken sink.old) (K.taken sink.new) self.now
            × (K.failures sink.new ≡ K.failures sink.old + 1)) }
    {
        if self.passages.is_empty() {
            return write_whole(sink, self.text.as_bytes());
        }
        let mut waiting = ArrayVec::new();
        put_passages(sink, &mut waiting, &self.passages)?;
        put(sink, &mut waiting, self.text.as_bytes())?;
        write_whole(sink, waiting.as_slice())?;
        Ok(())
    }

    /// Writes the text where much of it waits, and empties it then; its capacity stays.
    #[inline(always)]
    pub fn pass_on<K: Sink>(&mut self, sink: &mut K) -> Result<(), Failed>
        requires { K.failures sink.old < 2 ^ 64 - 1 }
        ensures ok { OnOk result (Told (K.taken sink.old) (K.taken sink.new) self.new (λ all. all ≡ self.old)
            × (K.failures sink.new ≡ K.failures sink.old)) }
        ensures err { OnErr result (WroteFront (K.taken sink.old) (K.taken sink.new) self.old
            × (K.failures sink.new ≡ K.failures sink.old + 1)) }
    {
        if self.text.len() < ROOM && self.passages.len() < NAMES {
            return Ok(());
        }
        self.write(sink)?;
        self.passages.clear();
        self.text.clear();
        Ok(())
    }

    /// All of the text, with each name spelled.
    pub fn into_string(self) -> Result<String, AllocError>
        ensures { IfOk result (λ text. string_bytes text ≡ self) }
    {
        let Draft {
            alloc,
            passages,
            text: last,
        } = self;
        let mut text = String::new(alloc);
        'passages: for passage in &passages {
            text.push_str(passage.text.as_str())?;
            passage.name.print(&mut text)?;
        }
        text.push_str(last.as_str())?;
        Ok(text)
    }
}
