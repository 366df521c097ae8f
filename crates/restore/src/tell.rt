// What a person reads, put together of texts and numbers. `notes` is where it is written: standard error, in a program. What cannot be written there is left out.
use std::env::FillError;
use std::io;

pub fn tell(notes: &impl Print, text: &[u8]) {
    let _ = notes.write_all(text);
}

pub fn tell_number(notes: &impl Print, n: u64) {
    let _ = notes.print(n);
}

// The start of a line on a file.
pub fn tell_file(notes: &impl Print, path: &[u8]) {
    tell(notes, b"desk: ");
    tell(notes, path);
    tell(notes, b": ");
}

// A line that says why the system refused something about a file.
pub fn tell_failure(notes: &impl Print, path: &[u8], error: &io::Error) {
    tell_file(notes, path);
    let _ = notes.println(error);
}

// A line that says why an argument, which names a file, was not had.
pub fn tell_unnamed(notes: &impl Print, what: &[u8], error: FillError) {
    tell_file(notes, what);
    match error {
        FillError::NotPresent => tell(notes, b"Invalid argument\n"),
        FillError::TooLong => tell(notes, b"File name too long\n"),
    }
}
