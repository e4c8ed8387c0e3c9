// What the probe holds between a script's records, and how it carries them out.
use crate::buffer::{Buffer, Pair, digest};
use crate::script;
use crate::script::{Record, three};
use image::Version;
use listener::Listener;
use output::Refusal;
use page::Page;
use rules::Switch;
use std::io;
use std::io::Stdout;

#[derive(Drop)]
pub struct Probe {
    page: Page<Stdout>,
    pair: Pair,
    out: Buffer<400>,
    listener: Listener,
}

impl Probe {
    pub(crate) fn new(out: Stdout) -> Self {
        Probe {
            page: Page::new(out),
            pair: Pair::new(),
            out: Buffer::new(269),
            listener: listener::idle(),
        }
    }

    // A letter that begins no record, or an end that cuts one short, is the end of the run. No iterator gives the records: one's length is known only once
    // its head is read.
    pub(crate) fn run(&mut self, script: &[u8]) {
        let mut left = script;
        while let Some(record) = script::first_record(left) {
            self.carry_out(&record);
            left = record.left;
        }
        if !left.is_empty() {
            self.print(b'?', &[]);
        }
    }

    // Whether all of it was written.
    pub(crate) fn finish(self) -> io::Result<()> {
        self.page.finish()
    }

    // A record, by its letter: the letters are the script's own form. `first_record` reads them for a record's length, what follows here for what it does;
    // they are printed too, so an enum would have them once more. Those that print a line stand in `call`.
    fn carry_out(&mut self, record: &Record<'_>) {
        match record.letter {
            b'L' => {
                let [a, b, c] = record.array::<3>(0);
                self.pair.image().lend_first(three(a, b, c));
            }
            b'P' => {
                let [a, b, c, byte] = record.array::<4>(0);
                self.pair.image().set(three(a, b, c), byte);
            }
            b'W' => {
                let [byte] = record.array::<1>(0);
                self.pair.image().fill(byte);
            }
            b'X' => self.pair.exchange(),
            b'O' => {
                let [a, b, byte] = record.array::<3>(0);
                self.out.fill(byte);
                self.out.lend_first(three(0, a, b));
            }
            b'Q' | b'R' | b'Y' => self.set_listener(record),
            _ => self.call(record),
        }
    }

    // A byte of the listener's room, its flag and its count, or the whole room.
    fn set_listener(&mut self, record: &Record<'_>) {
        match record.letter {
            b'Q' => {
                let [a, b, byte] = record.array::<3>(0);
                let at = three(0, a, b);
                if at < self.listener.room.len() {
                    self.listener.room[at] = byte;
                }
            }
            b'R' => {
                let [gathering] = record.array::<1>(0);
                self.listener.gathering = gathering != 0;
                self.listener.count = usize::from_be_bytes(record.array(1));
            }
            _ => {
                let [byte] = record.array::<1>(0);
                self.listener.room.fill(byte);
            }
        }
    }

    // A record that prints. The last of them builds a frame.
    fn call(&mut self, record: &Record<'_>) {
        let letter = record.letter;
        let bytes = record.bytes;
        match letter {
            b'A' => {
                let table = u32::from_be_bytes(record.array(0));
                let level = u32::from_be_bytes(record.array(4));
                self.quantity(table, level);
            }
            b'C' => self.check(bytes),
            b'D' => self.move_to(letter, Version::V1),
            b'F' => {
                let [address] = record.array::<1>(0);
                self.fresh(address);
            }
            b'H' => self.held(u32::from_be_bytes(record.array(0))),
            b'K' => self.serve(letter, Switch::Sealed, bytes),
            b'N' | b'V' => self.hear(letter, bytes),
            b'S' => self.serve(letter, Switch::Unsealed, bytes),
            b'T' => {
                let contents = izk::take_apart(bytes, self.out.lent_mut());
                self.written(letter, contents);
            }
            b'U' => self.move_to(letter, Version::V2),
            _ => {
                let frame = izk::build(bytes, self.out.lent_mut());
                self.written(letter, frame);
            }
        }
    }

    // The image, into the second buffer.
    fn move_to(&mut self, letter: u8, version: Version) {
        let (image, second) = self.pair.both();
        let moved = versions::move_to(version, image.lent(), second.lent_mut());
        let image = image.digest();
        let second = second.digest();
        self.answer(letter, &moved, &[image, second]);
    }

    fn quantity(&mut self, table: u32, level: u32) {
        let answer = tables::quantity_at(self.pair.image().lent(), table, level);
        let volume = tables::reported_volume(&answer);
        self.answer(b'A', &answer, &[usize::from(volume)]);
    }

    fn check(&mut self, file: &[u8]) {
        self.answer(b'C', &survey::check_file(file), &[]);
    }

    fn fresh(&mut self, address: u8) {
        let image = self.pair.image();
        let made = izk::fresh(image.lent_mut(), address);
        let image = image.digest();
        self.answer(b'F', &made, &[image]);
    }

    fn held(&mut self, table: u32) {
        let answer = izk::held_parts(self.pair.image().lent(), table);
        let (parts, missing) = page::held(&answer);
        self.answer(b'H', &answer, &[usize::from(parts), usize::from(missing)]);
    }

    fn serve(&mut self, letter: u8, switch: Switch, frame: &[u8]) {
        let image = self.pair.image();
        let served = izk::serve(frame, switch, image.lent_mut(), self.out.lent_mut());
        let image = image.digest();
        let out = self.out.digest();
        self.answer(letter, &served, &[page::length(&served), image, out]);
    }

    // A frame that is built or taken apart.
    fn written(&mut self, letter: u8, written: Result<usize, Refusal>) {
        let out = self.out.digest();
        self.answer(letter, &written, &[page::length(&written), out]);
    }

    // The bytes are listened to, one after the other. Of the record's room all counts at the end, so that a byte stored where none should be is seen.
    fn hear(&mut self, letter: u8, bytes: &[u8]) {
        for (i, byte) in bytes.iter().enumerate() {
            if listener::listen(&mut self.listener, *byte) {
                self.frame(letter, i + 1);
            }
        }
        let count = self.listener.count;
        let gathering = usize::from(self.listener.gathering);
        let room = digest(&self.listener.room);
        self.print(letter, &[count, gathering, room]);
    }

    // A frame that is there. `V` has it served.
    fn frame(&mut self, letter: u8, taken: usize) {
        let listener = self.listener;
        let frame = gathered(&listener);
        self.print(b'G', &[taken, frame.len(), digest(frame)]);
        if letter == b'V' {
            self.serve(b'S', Switch::Unsealed, frame);
        }
    }

    // A line of the letter, the answer's number, and the numbers behind that. A refusal has none of its own: there the documents report zeros.
    fn answer<T>(&mut self, letter: u8, answer: &Result<T, Refusal>, numbers: &[usize]) {
        self.page.text(&[letter]);
        self.page.next(page::number(answer));
        self.end_line(numbers);
    }

    // A line of the letter and numbers.
    fn print(&mut self, letter: u8, numbers: &[usize]) {
        self.page.text(&[letter]);
        self.end_line(numbers);
    }

    fn end_line(&mut self, numbers: &[usize]) {
        for n in numbers {
            self.page.next(*n);
        }
        self.page.text(b"\n");
    }
}

// The first bytes of the room, which are never more than it has.
fn gathered(listener: &Listener) -> &[u8] {
    listener
        .room
        .get(..listener.count)
        .unwrap_or(&listener.room)
}
