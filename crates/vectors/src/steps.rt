// The steps in turn. Each prints itself and, behind an equals sign, what comes out; in a line with text, the text and what comes out.
ghost use Rattle.std.specs.Prelude.{◌≤◌};
ghost use Rattle.std.specs.Option.{ForSome};
ghost use Rattle.vectors.specs.declared.steps.TheConstants.{LONGER};

use crate::script::Step;
use crate::{answers, cells, images, line, script};
use image::IMAGE_LENGTH;
use listener::Listener;
use page::Page;
use rules::Switch;
use std::io;
use std::io::Stdout;

// One byte more than an image has.
const LONGER: usize = IMAGE_LENGTH + 1;

// What comes before the next stop of a line: a step, which is shown; a text; or a step of a line that has had text, which is not.
#[derive(Clone, Copy, PartialEq, Eq)]
pub enum Next {
    Step,
    Text,
    Unshown,
}

// Between two stops of a line: what comes next, how much of the image buffer it is lent (no heap: the buffer is fixed), which is nothing once more was asked
// than there is, whether that has changed places with the second one (two buffers, so a flag says it all), how the key switch stands, and the listener's
// record.
#[derive(Clone, Copy)]
pub struct Turn {
    next: Next,
    long: Option<usize>,
    turned: bool,
    switch: Switch,
    listener: Listener,
    ghost within: { ForSome long (λ n. n ≤ LONGER) },
}

impl Turn {
    // As a line starts.
    fn new() -> Turn {
        Turn {
            next: Next::Step,
            long: Some(IMAGE_LENGTH),
            turned: false,
            switch: Switch::Unsealed,
            listener: listener::idle(),
        }
    }
}

// Where it prints, the two buffers in the places that they have as a line starts, and the line's turn.
#[derive(Drop)]
pub struct Bench {
    page: Page<Stdout>,
    image: [u8; LONGER],
    second: [u8; LONGER],
    turn: Turn,
}

impl Bench {
    pub(crate) fn new(out: Stdout) -> Bench {
        Bench {
            page: Page::new(out),
            image: [0; LONGER],
            second: [0; LONGER],
            turn: Turn::new(),
        }
    }

    // Whether all of it was printed.
    pub(crate) fn finish(self) -> io::Result<()> {
        self.page.finish()
    }

    // Every line has its end. No iterator gives the pieces: where one stops depends on whether the last began a text.
    pub(crate) fn lines(&mut self, cases: &[u8]) {
        let mut left = cases;
        while let Some(piece) = script::first_piece(left, self.turn.next == Next::Text) {
            self.piece(piece.bytes, piece.stop);
            left = piece.left;
        }
    }

    // The text or the step before a stop, and the stop.
    fn piece(&mut self, s: &[u8], stop: u8) {
        if stop == b'|' {
            self.bar(s);
            return;
        }
        self.echo(s);
        self.run(&Step::read(s));
        if stop == b';' {
            self.echo(b";");
        } else {
            self.page.text(b"\n");
            self.turn = Turn::new();
        }
    }

    // A text begins at a bar, or ends at it and is shown.
    fn bar(&mut self, s: &[u8]) {
        if self.turn.next == Next::Text {
            self.page.text(s);
            self.turn.next = Next::Unshown;
        } else {
            self.turn.next = Next::Text;
        }
    }

    // A line with text shows that in place of its steps.
    fn echo(&mut self, s: &[u8]) {
        if self.turn.next == Next::Step {
            self.page.text(s);
        }
    }

    // A step, which does nothing where a length before it in its line was more than there is. The letters are the script's own form, and mean something here,
    // in `show` and in `show_of` alone: an enum would have them once more.
    fn run(&mut self, step: &Step) {
        let Some(long) = self.turn.long else {
            return;
        };
        let (image, _) = placed(&self.turn, &mut self.image, &mut self.second);
        let number = step.place();
        let bytes = step.bytes();
        let (a, _) = step.first_two();
        match step.letter {
            Some(b'e') => self.turn.turned = !self.turn.turned,
            Some(b'f') => {
                // What it has done the next step shows.
                let _ = izk::fresh(&mut image[..long], a);
            }
            Some(b'j') => answers::join(bytes, number, image),
            Some(b'k') => {
                self.turn.switch = match a {
                    1 => Switch::Sealed,
                    _ => Switch::Unsealed,
                }
            }
            Some(b'l') => self.turn.long = (number <= LONGER).then_some(number),
            Some(b'p') => images::put(image, number, bytes),
            Some(b'r') => self.turn.listener = line::recorded(number, bytes),
            Some(b'w') => image.fill(a),
            _ => {
                self.echo(b" = ");
                self.show(step, long);
            }
        }
    }

    // A step that prints, and not of the image alone.
    fn show(&mut self, step: &Step, long: usize)
        requires { long ≤ LONGER }
    {
        let (image, second) = placed(&self.turn, &mut self.image, &mut self.second);
        let (a, _) = step.first_two();
        match step.letter {
            Some(b'o') => line::off(&mut self.page, &mut self.turn.listener, step.bytes()),
            Some(b'v') => {
                if let Some(target) = second.get_mut(..step.place()) {
                    images::moved(&mut self.page, &image[..long], a, target);
                }
            }
            _ => show_of(&mut self.page, step, self.turn.switch, &mut image[..long]),
        }
    }
}

// The image buffer, then the second one: they have changed places by a flag, so that no byte is copied for it.
fn placed<'a>(
    turn: &Turn,
    image: &'a mut [u8; LONGER],
    second: &'a mut [u8; LONGER],
) -> (&'a mut [u8; LONGER], &'a mut [u8; LONGER]) {
    if turn.turned {
        (second, image)
    } else {
        (image, second)
    }
}

// What comes out of the image, or of a frame that is served on it.
fn show_of(page: &mut Page<Stdout>, step: &Step, switch: Switch, image: &mut [u8]) {
    let number = step.place();
    let bytes = step.bytes();
    let (a, b) = step.first_two();
    match step.letter {
        None => answers::contents(page, bytes, switch, image),
        Some(b'a') => answers::answer(page, number, |out| izk::take_apart(bytes, out)),
        Some(b'b') => answers::answer(page, number, |out| izk::build(bytes, out)),
        Some(b'c') => cells::cell(page, number, a, b),
        Some(b'd') => answers::line(page, bytes, switch, image),
        Some(b'g') => images::get(page, image, number, a),
        Some(b'h') => images::held(page, image, step.number),
        Some(b'i') => images::list(page, image, number, false),
        Some(b'm') => images::mark(page, image, a, b),
        Some(b'n') => page.print(page::number(&izk::fresh(image, a))),
        Some(b'q') => images::quantity(page, image, step.number, bytes),
        Some(b't') => {
            if let Some(item) = image.get(..number) {
                images::total(page, item);
            }
        }
        Some(b'u') => images::usable(page, image, a),
        Some(b'y') => images::file(page, image),
        Some(_) => answers::answer(page, number, |out| izk::serve(bytes, switch, image, out)),
    }
}
