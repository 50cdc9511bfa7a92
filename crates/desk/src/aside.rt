// What is said beside the answers, on standard error.
use std::fmt::InlineText;
use std::io::Error;

// Room for the words of an error.
const WORDS: usize = 256;

// Says these bytes. Where they can't be written nobody can be told, and the program goes on.
pub fn tell(to: &impl Print, text: &[u8]) {
    let _ = to.write_all(text);
}

// A line on what failed, with the system's words for it.
pub fn tell_failure(to: &impl Print, what: &[u8], why: Error) {
    let text = InlineText::<WORDS>::of(why);
    tell(to, what);
    tell(to, b": ");
    tell(to, words_of(text.as_str()).as_bytes());
    tell(to, b"\n");
}

// Without the number that stands behind the system's words.
fn words_of(text: &str) -> &str {
    match text.split_once(" (os error ") {
        Some((words, _)) => words,
        None => text,
    }
}
