//! Standard error, on which what is printed is shown as a terminal needs it, where it is one.
use crate::shown_name::{NameDisplay, text_on_terminal};
use std::alloc::Global;
use std::fmt::Display;
use std::io;

/// Standard error, and how the bytes of names are shown there. Our own lines have no control byte
/// but those of names, and the line end behind them.
#[derive(Drop)]
pub struct ErrorOutput<'a, P: Eprint + Drop> {
    to: &'a P,
    alloc: Global,
    names: NameDisplay,
}

impl<'a, P: Eprint + Drop> ErrorOutput<'a, P> {
    /// What prints to this one.
    pub fn new(to: &'a P, alloc: Global, names: NameDisplay) -> ErrorOutput<'a, P> {
        ErrorOutput { to, alloc, names }
    }

    /// Prints a text that has lines of its own. Their ends stay as they are.
    pub fn eprint_lines(&self, text: &str) -> io::Result<()> {
        match self.names {
            NameDisplay::AsTheyAre => eprint!(self.to; "{text}"),
            NameDisplay::Escaped => self.eprint_split(text),
        }
    }

    fn eprint_split(&self, text: &str) -> io::Result<()> {
        let mut is_first = true;
        for line in text.split('\n') {
            if !is_first {
                eprintln!(self.to; "")?;
            }
            eprint!(self; "{line}")?;
            is_first = false;
        }
        Ok(())
    }
}

// Where there is no memory for the text as a terminal needs it, it is printed as it is.
impl<P: Eprint + Drop> Eprint for ErrorOutput<'_, P> {
    fn eprint<D: Display + Drop>(&self, value: D) -> io::Result<()> {
        match self.names {
            NameDisplay::AsTheyAre => self.to.eprint(value),
            NameDisplay::Escaped => match text_on_terminal(self.alloc, &value) {
                Ok(text) => self.to.eprint(text),
                Err(_) => self.to.eprint(value),
            },
        }
    }

    fn eprintln<D: Display + Drop>(&self, value: D) -> io::Result<()> {
        match self.names {
            NameDisplay::AsTheyAre => self.to.eprintln(value),
            NameDisplay::Escaped => match text_on_terminal(self.alloc, &value) {
                Ok(text) => self.to.eprintln(text),
                Err(_) => self.to.eprintln(value),
            },
        }
    }
}
