//! What stays from one row to the next.
use row_fixtures::{Row, RowFault, body_of, files_with};
use std::alloc::Global;
use tame_names::MemFiles;

/// Files, and a text that grows line by line.
#[derive(Drop)]
pub struct Stage {
    pub files: MemFiles,
    pub text: String,
}

fn done(alloc: Global) -> Result<String, RowFault> {
    Ok(String::from_str(alloc, "-")?)
}

impl Stage {
    /// No file, and no text.
    pub fn new(alloc: Global) -> Result<Stage, RowFault> {
        Ok(Stage {
            files: files_with(alloc, None, Vec::new(alloc))?,
            text: String::new(alloc),
        })
    }

    /// `files FAILING PATH BODY`: new files, of which one stands.
    pub fn lay_files(&mut self, alloc: Global, mut words: Row<'_>) -> Result<String, RowFault> {
        let failing = words.numbers(alloc)?;
        let path = words.word();
        let bytes = body_of(alloc, words.word())?;
        self.files = files_with(alloc, Some((path, bytes.as_slice())), failing)?;
        done(alloc)
    }

    /// `text`: a new text, without lines.
    pub fn lay_text(&mut self, alloc: Global) -> Result<String, RowFault> {
        self.text = String::new(alloc);
        done(alloc)
    }

    /// `| LINE`: adds a line to the text.
    pub fn add_line(&mut self, alloc: Global, words: Row<'_>) -> Result<String, RowFault> {
        self.text.push_str(words.rest())?;
        self.text.push_str("\n")?;
        done(alloc)
    }
}
