// What the lines work on: a shelf, the files as they were made, and the texts that have a name.
use chart_dev::MemShelf;
use std::alloc::{AllocError, Global};
use std::collections::BTreeMap;
use testing_runs::Wrong;

/// A shelf in memory, the bytes of each file as lines made it, and the texts that were given a name.
#[derive(Drop)]
pub struct Bench {
    pub alloc: Global,
    pub shelf: MemShelf,
    pub made: BTreeMap<String, Vec<u8>>,
    pub texts: BTreeMap<String, String>,
}

/// Why a line isn't kept.
pub fn wrong(alloc: Global, why: &str) -> Wrong {
    match String::from_str(alloc, why) {
        Ok(why) => Wrong::Answer(why),
        Err(_) => Wrong::NoMemory,
    }
}

impl Bench {
    /// An empty shelf and no text.
    pub fn new(alloc: Global) -> Self {
        Bench {
            alloc,
            shelf: MemShelf::new(alloc, 100),
            made: BTreeMap::new(alloc),
            texts: BTreeMap::new(alloc),
        }
    }

    /// Goes on with an empty shelf, which takes so many bytes a call. None are taken as one.
    pub fn clear(&mut self, bytes_a_call: usize) {
        self.shelf = MemShelf::new(self.alloc, bytes_a_call.max(1));
        self.made = BTreeMap::new(self.alloc);
    }

    /// Gives a text a name.
    pub fn name_text(&mut self, name: &str, text: &str) -> Result<(), AllocError> {
        let name = String::from_str(self.alloc, name)?;
        let text = String::from_str(self.alloc, text)?;
        self.texts.insert(name, text)?;
        Ok(())
    }

    /// Makes the bytes of a file these, on the shelf too.
    pub fn put(&mut self, name: &str, bytes: Vec<u8>) -> Result<(), AllocError> {
        self.shelf.put_file(name, &bytes)?;
        let name = String::from_str(self.alloc, name)?;
        self.made.insert(name, bytes)?;
        Ok(())
    }

    /// The bytes of a file as lines made it, none where there is no such file.
    pub fn bytes_made(&self, name: &str) -> Result<Vec<u8>, AllocError> {
        match self.made.get(name) {
            Some(bytes) => Vec::from_slice(self.alloc, bytes.as_slice()),
            None => Ok(Vec::new(self.alloc)),
        }
    }

    // Puts a text that has a name, and what follows it, behind a line's front.
    fn put_text(&self, piece: &str, line: &mut String) -> Result<(), Wrong> {
        let Some((name, rest)) = piece.split_once('}') else {
            return Err(wrong(self.alloc, "a brace isn't closed"));
        };
        let Some(text) = self.texts.get(name) else {
            return Err(wrong(self.alloc, "no text of this name"));
        };
        line.push_str(text.as_str())?;
        line.push_str(rest)?;
        Ok(())
    }

    /// A line with the texts in place of their names in braces.
    pub fn expanded(&self, line: &str) -> Result<String, Wrong> {
        let mut all = String::new(self.alloc);
        for (i, piece) in line.split('{').enumerate() {
            if i == 0 {
                all.push_str(piece)?;
            } else {
                self.put_text(piece, &mut all)?;
            }
        }
        Ok(all)
    }
}
