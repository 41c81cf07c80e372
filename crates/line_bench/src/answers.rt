//! What is kept of lines, by the quick reader and by the record.
use std::alloc::{AllocError, Global};
use tame_names::NoMemory;
use tame_records::{IndexVersion, LineFault, VersionFlag, quick_version_flag, read_version_flag};

/// What the readers say of a line.
#[derive(Drop)]
pub struct Answer {
    /// Version and flag, by `read_version_flag`.
    head: Option<VersionFlag>,
    /// Whether the line has the form that is read in one pass.
    is_quick: bool,
    /// Whether the record of the line says the same.
    is_same: bool,
}

/// Version and flag of a line by its record.
fn record_version_flag(alloc: Global, line: &[u8]) -> Result<Option<VersionFlag>, NoMemory> {
    match IndexVersion::read_line(alloc, line) {
        Ok(version) => Ok(Some(version.into_version_flag())),
        Err(LineFault::Json) => Ok(None),
        Err(LineFault::NoMemory) => Err(NoMemory),
    }
}

/// What the readers say of a line.
pub fn read_answer(alloc: Global, line: &[u8]) -> Result<Answer, NoMemory> {
    let head = read_version_flag(alloc, line)?;
    let is_same = head == record_version_flag(alloc, line)?;
    Ok(Answer {
        head,
        is_quick: quick_version_flag(line).is_some(),
        is_same,
    })
}

fn is_graphic(text: &str) -> bool {
    for byte in text.as_bytes() {
        if *byte <= 0x20 || *byte >= 0x7f {
            return false;
        }
    }
    true
}

impl Answer {
    /// The answer as a line: the version, or how many bytes it has where ASCII doesn't show them
    /// all, and the flag, or that there is no record; and which reader said so.
    pub fn shown(&self, alloc: Global) -> Result<String, AllocError> {
        let mut out = match &self.head {
            None => String::from_str(alloc, "no record")?,
            Some(head) => shown_version_flag(alloc, head)?,
        };
        if self.is_quick {
            out.push_str(", in one pass")?;
        }
        if !self.is_same {
            out.push_str(", unlike its record")?;
        }
        Ok(out)
    }
}

fn shown_version_flag(alloc: Global, head: &VersionFlag) -> Result<String, AllocError> {
    let version = head.version.as_str();
    let flag = if head.yanked { "yanked" } else { "not yanked" };
    if is_graphic(version) {
        format!(in alloc; "{version} {flag}")
    } else {
        format!(in alloc; "{} bytes {flag}", version.len())
    }
}
