// The global object, a capture and an annotation, each read off the text from its opening brace on.
#![tactic(auto)]

pub mod annotation;
pub mod capture;
pub mod global;
mod value;
mod walk;

use table::{AnnotationEntry, CaptureEntry, Globals};

// The lowest number that the global object gives cause for, 0 for none; what it says; where its closing brace stands.
#[derive(Clone, Copy)]
pub struct GlobalFound {
    pub low: u64,
    pub globals: Globals,
    pub close: usize,
}

// The same of a capture.
#[derive(Clone, Copy)]
pub struct CaptureFound {
    pub low: u64,
    pub entry: CaptureEntry,
    pub close: usize,
}

// The same of an annotation.
#[derive(Clone, Copy)]
pub struct AnnotationFound {
    pub low: u64,
    pub entry: AnnotationEntry,
    pub close: usize,
}
