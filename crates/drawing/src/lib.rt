// Pictures as SVG, written element by element to a descriptor. A class names how an element looks; the style at the picture's head says what that is.
#![tactic(auto)]

use fields::octet_at;
use saying::{write_long, write_text};
use text::words::{find, part};

// A text in which each `#` stands for the next number.
pub fn write_form(descriptor: i32, form: &[u8], numbers: &[u64]) {
    let mut at = 0;
    for number in numbers {
        at = write_piece(descriptor, form, at);
        write_long(descriptor, *number);
    }
    write_piece(descriptor, form, at);
}

// What stands from a place up to the next `#`; answers the place behind it.
fn write_piece(descriptor: i32, form: &[u8], at: usize) -> usize {
    let rest = part(form, at, form.len().wrapping_sub(at));
    let count = find(rest, b'#');
    write_text(descriptor, part(rest, 0, count));
    at.wrapping_add(count).wrapping_add(1)
}

// An attribute; `name` comes with the space before it and the `="` behind it.
pub fn attribute(descriptor: i32, name: &[u8], value: u64) {
    write_text(descriptor, name);
    write_long(descriptor, value);
    write_text(descriptor, b"\"");
}

// The end of an element that holds nothing.
pub fn finish(descriptor: i32) {
    write_text(descriptor, b"/>\n");
}

// An element's start and its class.
fn begin(descriptor: i32, element: &[u8], class: &[u8]) {
    write_text(descriptor, element);
    write_text(descriptor, class);
}

// A rectangle that further attributes and `finish` may follow.
pub fn begin_rectangle(descriptor: i32, class: &[u8], x: u64, y: u64, width: u64, height: u64) {
    begin(descriptor, b"<rect class=\"", class);
    write_form(
        descriptor,
        b"\" x=\"#\" y=\"#\" width=\"#\" height=\"#\"",
        &[x, y, width, height],
    );
}

pub fn rectangle(descriptor: i32, class: &[u8], x: u64, y: u64, width: u64, height: u64) {
    begin_rectangle(descriptor, class, x, y, width, height);
    finish(descriptor);
}

pub fn line(descriptor: i32, class: &[u8], x: u64, y: u64, to_x: u64, to_y: u64) {
    begin(descriptor, b"<line class=\"", class);
    write_form(
        descriptor,
        b"\" x1=\"#\" y1=\"#\" x2=\"#\" y2=\"#\"/>\n",
        &[x, y, to_x, to_y],
    );
}

// A shape that starts at a place; `steps` are the rest of its path.
pub fn shape(descriptor: i32, class: &[u8], x: u64, y: u64, steps: &[u8]) {
    repeated_shape(descriptor, class, x, y, steps, 1);
}

// The same with its steps so many times.
pub fn repeated_shape(descriptor: i32, class: &[u8], x: u64, y: u64, steps: &[u8], times: u8) {
    begin(descriptor, b"<path class=\"", class);
    write_form(descriptor, b"\" d=\"M# #", &[x, y]);
    write_times(descriptor, steps, times);
    write_text(descriptor, b"\"/>\n");
}

fn write_times(descriptor: i32, text: &[u8], times: u8) {
    for _ in 0..times {
        write_text(descriptor, text);
    }
}

// Words whose line starts, or has its middle, at a place; `end_text` follows them.
pub fn begin_text(descriptor: i32, class: &[u8], x: u64, y: u64) {
    begin(descriptor, b"<text class=\"", class);
    write_form(descriptor, b"\" x=\"#\" y=\"#\">", &[x, y]);
}

// The same from below to above.
pub fn begin_upright_text(descriptor: i32, class: &[u8], x: u64, y: u64) {
    begin(descriptor, b"<text class=\"", class);
    write_form(
        descriptor,
        b"\" transform=\"translate(# #) rotate(-90)\">",
        &[x, y],
    );
}

pub fn end_text(descriptor: i32) {
    write_text(descriptor, b"</text>\n");
}

pub fn label(descriptor: i32, class: &[u8], x: u64, y: u64, words: &[u8]) {
    begin_text(descriptor, class, x, y);
    write_text(descriptor, words);
    end_text(descriptor);
}

pub fn number(descriptor: i32, class: &[u8], x: u64, y: u64, value: u64) {
    begin_text(descriptor, class, x, y);
    write_long(descriptor, value);
    end_text(descriptor);
}

// ---- words from outside

// A text that may hold any bytes, such as a file's name. What XML does not take, or no reader could tell, becomes a question mark.
pub fn write_escaped(descriptor: i32, words: &[u8]) {
    for at in 0..words.len() {
        write_character(descriptor, words, at);
    }
}

fn write_character(descriptor: i32, words: &[u8], at: usize) {
    let byte = octet_at(words, at);
    match byte {
        38 => write_text(descriptor, b"&amp;"),
        60 => write_text(descriptor, b"&lt;"),
        62 => write_text(descriptor, b"&gt;"),
        32..=126 => write_text(descriptor, part(words, at, 1)),
        _ => write_wide(descriptor, words, at),
    }
}

// Letters such as those of German and French are two bytes of UTF-8; longer characters are not passed on.
fn write_wide(descriptor: i32, words: &[u8], at: usize) {
    let byte = octet_at(words, at);
    let before = octet_at(words, at.wrapping_sub(1));
    let behind = octet_at(words, at.wrapping_add(1));
    if is_first(byte) & is_second(behind) {
        write_text(descriptor, part(words, at, 1));
        return;
    }
    if is_first(before) & is_second(byte) {
        write_text(descriptor, part(words, at, 1));
        return;
    }
    write_text(descriptor, b"?");
}

fn is_first(byte: u8) -> bool {
    (195 <= byte) & (byte <= 223)
}

fn is_second(byte: u8) -> bool {
    (128 <= byte) & (byte <= 191)
}
