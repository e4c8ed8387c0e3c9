// Text, numbers and whatever else has a text, one behind the other on a writer.
#![tactic(auto)]

ghost use Rattle.std.specs.Prelude.{◌≡◌, IfSome, IsOk, ◌∷◌};
ghost use Rattle.std.specs.Result.{result_and};
ghost use Rattle.output.specs.Output.{answer_of};
ghost use Rattle.output.specs.Refusal.{number_in};
ghost use Rattle.image.specs.Held.{held_in};
ghost use Rattle.page.specs.Added.{Adds};

use image::Held;
use output::Refusal;
use std::fmt::Display;
use std::io;
use std::io::Write;

// Where all of it goes, and the first write that failed. Steps go on behind one, since nothing that they do depends on what was printed.
#[derive(Drop)]
pub struct Page<W> {
    out: W,
    written: io::Result<()>,
}

impl<W: Write + Drop> Page<W> {
    pub fn new(out: W) -> Self
        ensures out { result.out ≡ out }
        ensures written { IsOk result.written }
    {
        Page {
            out,
            written: Ok(()),
        }
    }

    pub fn text(&mut self, text: &[u8])
        ensures { Adds W.contents self.old self.new text.now }
    {
        let written = self.out.write_all(text);
        self.note(written);
    }

    pub fn print<D: Display + Drop>(&mut self, value: D)
        ensures { IfSome (D.output value) (Adds W.contents self.old self.new) }
    {
        let written = write!(self.out, "{value}");
        self.note(written);
    }

    // The same behind a space.
    pub fn next<D: Display + Drop>(&mut self, value: D)
        ensures { IfSome (D.output value) (λ text. Adds W.contents self.old self.new (32 ∷ text)) }
    {
        self.text(b" ");
        self.print(value);
    }

    // Whether all of it was written.
    pub fn finish(self) -> io::Result<()>
        ensures { result ≡ self.written }
    {
        self.written
    }

    // Of two failures the first is kept.
    fn note(&mut self, written: io::Result<()>)
        ensures out { self.new.out ≡ self.old.out }
        ensures first { self.new.written ≡ result_and self.old.written written }
    {
        if self.written.is_ok() {
            self.written = written;
        }
    }
}

// The documents' number of an answer: 0 where it is no refusal.
pub fn number<T>(answer: &Result<T, Refusal>) -> u8
    ensures { result ≡ number_in answer.now }
{
    match answer {
        Ok(_) => 0,
        Err(refusal) => u8::from(*refusal),
    }
}

// The length that an answer reports behind its number: how many bytes were written, and none of a refusal.
pub fn length(answer: &Result<usize, Refusal>) -> usize
    ensures { result ≡ (answer_of answer.now).len }
{
    answer.unwrap_or(0)
}

// What an answer about held parts reports behind its number: how many parts are held, and the lowest that is missing. As the documents have it, a 0 stands
// where none is missing, and two stand behind a refusal.
pub fn held(answer: &Result<Held, Refusal>) -> (u8, u8)
    ensures parts { result.0 ≡ (held_in answer.now).parts }
    ensures missing { result.1 ≡ (held_in answer.now).missing }
{
    match answer {
        Ok(held) => (held.parts, held.missing.unwrap_or(0)),
        Err(_) => (0, 0),
    }
}
