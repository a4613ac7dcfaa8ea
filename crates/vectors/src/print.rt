// Prints an answer's line, part by part.
use crate::table_cases::summary_numbers;
use std::io::Stdout;
use table::Summary;

pub(crate) fn word(to: Stdout, w: &[u8]) -> bool {
    to.write_all(w).is_ok()
}

// A space and a number's decimal digits, for each number.
pub(crate) fn numbers(to: Stdout, v: &[u64]) {
    for n in v {
        let _ = print!(to; " {n}");
    }
}

// The summary's twelve numbers.
pub(crate) fn summary(to: Stdout, t: Summary) {
    numbers(to, &summary_numbers(t));
}

// The line's last numbers, and its end; whether this could be written.
pub(crate) fn end(to: Stdout, v: &[u64]) -> bool {
    numbers(to, v);
    word(to, b"\n")
}

// A line of a word and numbers.
pub(crate) fn line(to: Stdout, w: &[u8], v: &[u64]) -> bool {
    word(to, w);
    end(to, v)
}

// Says that the input is broken, and ends the run.
pub(crate) fn stop(to: Stdout) -> bool {
    line(to, b"stopped", &[]);
    false
}
