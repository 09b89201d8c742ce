//! Texts that were given, as they are shown.
use std::fmt::{self, Display, Formatter};

/// A text whose control characters are written by their numbers, so that it stays on its line and moves no cursor.
#[derive(Clone, Copy)]
pub struct Printable<'a> {
    pub text: &'a str,
}

impl Display for Printable<'_> {
    fn fmt<W: fmt::Write>(&self, f: &mut Formatter<W>) -> fmt::Result {
        for character in self.text.chars() {
            match character {
                '\n' => write!(f, "\\n")?,
                '\r' => write!(f, "\\r")?,
                '\t' => write!(f, "\\t")?,
                '\0'..='\u{1f}' | '\u{7f}'..='\u{9f}' => {
                    write!(f, "\\u{{{:x}}}", u32::from(character))?
                }
                _ => write!(f, "{character}")?,
            }
        }
        Ok(())
    }
}
