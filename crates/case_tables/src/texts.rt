//! Files of data.
use std::rt::Files;
use std::{fs, io};

/// The texts of files, each behind its name.
#[derive(Drop)]
pub struct Texts {
    texts: Vec<(&'static str, String)>,
}

impl Texts {
    /// Reads the files of these names.
    pub fn read<R: Files + AllocGlobal>(rt: &R, names: &[&'static str]) -> io::Result<Texts> {
        let mut texts = Vec::new(rt.alloc());
        for &name in names {
            texts.push((name, fs::read_to_string(rt, name)?))?;
        }
        Ok(Texts { texts })
    }

    /// The text of a file, or none where there is no such file.
    pub fn named(&self, name: &str) -> &str {
        for file in &self.texts {
            if file.0 == name {
                return &file.1;
            }
        }
        ""
    }
}
