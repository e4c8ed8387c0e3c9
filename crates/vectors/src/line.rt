// What a listener takes off a line of bytes, and the record that it has.
use crate::{answers, images};
use listener::Listener;
use page::Page;
use std::io::Stdout;

// The first of the bytes tells whether the record gathers, those behind it are its room's first. Where they are more than a room has, all are dropped.
pub(crate) fn recorded(count: usize, bytes: &[u8]) -> Listener {
    let mut listener = listener::idle();
    listener.count = count;
    if let Some((flag, room)) = bytes.split_first() {
        listener.gathering = *flag == 1;
        images::put(&mut listener.room, 0, room);
    }
    listener
}

// How many bytes were taken, and the frame that the last of them ended.
fn print_frame(page: &mut Page<Stdout>, taken: usize, listener: &Listener) {
    page.print(taken);
    page.text(b":");
    let (frame, _) = listener
        .room
        .split_at(listener.count.min(listener.room.len()));
    answers::print_bytes(page, frame);
    page.text(b", ");
}

// The count, the flag, and each byte of the room that is not 0.
fn print_record(page: &mut Page<Stdout>, listener: &Listener) {
    page.print(listener.count);
    page.next(u8::from(listener.gathering));
    images::list(page, &listener.room, 0, true);
}

// Each frame as it comes, then the record as the last byte leaves it, for the next step.
pub(crate) fn off(page: &mut Page<Stdout>, listener: &mut Listener, bytes: &[u8]) {
    for (i, byte) in bytes.iter().enumerate() {
        if listener::listen(listener, *byte) {
            print_frame(page, i + 1, listener);
        }
    }
    print_record(page, listener);
}
