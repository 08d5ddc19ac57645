// Texts made of repeated words, in fixed memory: nothing here is allocated.
use std::io::{Cursor, Write};

// A text as long as a version may be; what does not fit is left out.
pub type Text = Cursor<[u8; 16384]>;

// Puts a word so many times.
pub fn put_times(text: &mut Text, word: &str, count: usize) {
    for _ in 0..count {
        let _ = text.write_all(word.as_bytes());
    }
}

// A word so many times.
pub fn times(word: &str, count: usize) -> Text {
    let mut text = Cursor::new([0; 16384]);
    put_times(&mut text, word, count);
    text
}

// A version whose one frontier holds so many times a word, and as many times what closes it.
pub fn version_of(word: &str, count: usize, close: &str) -> Text {
    let mut text = Cursor::new([0; 16384]);
    let _ = text.write_all(b"<s><f>");
    put_times(&mut text, word, count);
    put_times(&mut text, close, count);
    let _ = text.write_all(b"</f></s>");
    text
}
