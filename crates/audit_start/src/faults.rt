//! Why the program can't start: the status and the line of each fault.
ghost use Rattle.std.specs.Prelude.{◌≡◌, ◌≤◌};
ghost use Rattle.audit_remedies.specs.Outputs.{IsLinePut};
ghost use Rattle.audit_start.specs.Faults as spec;

use tame_names::{NoMemory, Sink, put_counted};

/// A variable that names a folder.
#[derive(Clone, Copy, Debug, PartialEq, Eq)]
pub enum FolderVariable {
    /// `CARGO_AUDIT_MIRROR`, of the folder of the mirror.
    Mirror,
    /// `CARGO_AUDIT_INDEX`, of the folder of the cache.
    Cache,
}

impl FolderVariable {
    /// Its name.
    pub fn name(self) -> &'static str
        ensures { result.now ≡ spec.variable_name self }
    {
        match self {
            FolderVariable::Mirror => "CARGO_AUDIT_MIRROR",
            FolderVariable::Cache => "CARGO_AUDIT_INDEX",
        }
    }

    /// The folder if it is unset or empty.
    pub fn unnamed(self) -> &'static str
        ensures { result.now ≡ spec.unnamed_folder self }
    {
        match self {
            FolderVariable::Mirror => "index-mirror",
            FolderVariable::Cache => "index-cache",
        }
    }
}

/// Why the program can't start.
#[derive(Clone, Copy, Debug, PartialEq, Eq)]
pub enum StartFault {
    /// An argument isn't UTF-8.
    Argument,
    /// The value of this variable isn't UTF-8.
    NotUtf8(FolderVariable),
    /// This variable couldn't be read.
    Unread(FolderVariable),
    /// Out of memory.
    NoMemory,
}

impl From<NoMemory> for StartFault {
    ghost use Rattle.audit_start.specs.declared.faults.StartFault.TheVariants.{NoMemory as no_memory};

    ghost from_gives = { λ _ e. e ≡ no_memory };

    fn from(_: NoMemory) -> StartFault {
        StartFault::NoMemory
    }
}

impl StartFault {
    /// The status of the program: 3 if it is out of memory, else 2.
    pub fn status(self) -> u8
        ensures { result ≡ spec.start_status self }
    {
        match self {
            StartFault::Argument | StartFault::NotUtf8(_) | StartFault::Unread(_) => 2,
            StartFault::NoMemory => 3,
        }
    }

    /// The line that says it, with its newline.
    pub fn line(self) -> &'static str
        ensures { result.now ≡ spec.start_line self }
    {
        match self {
            StartFault::Argument => "error: a word isn't UTF-8\n",
            StartFault::NotUtf8(FolderVariable::Mirror) => {
                "error: environment variable 'CARGO_AUDIT_MIRROR' has a non-utf8 value\n"
            }
            StartFault::NotUtf8(FolderVariable::Cache) => {
                "error: environment variable 'CARGO_AUDIT_INDEX' has a non-utf8 value\n"
            }
            StartFault::Unread(FolderVariable::Mirror) => {
                "error: environment variable 'CARGO_AUDIT_MIRROR' couldn't be read\n"
            }
            StartFault::Unread(FolderVariable::Cache) => {
                "error: environment variable 'CARGO_AUDIT_INDEX' couldn't be read\n"
            }
            StartFault::NoMemory => "error: out of memory\n",
        }
    }
}

/// Prints a line, whatever the output answers.
pub fn put_line<E: Sink>(err: &mut E, line: &[u8])
    ensures line { E.tells → IsLinePut (E.holds err.old) line.now (E.holds err.new)
        (E.faults err.old) (E.faults err.new) }
    ensures later { E.faults err.old ≤ E.faults err.new }
{
    let _ = put_counted(err, line);
}

/// Ends a program that can't start: prints the line of the fault, and gives the status.
pub fn refuse<E: Sink>(fault: StartFault, err: &mut E) -> u8
    ensures status { result ≡ spec.start_status fault }
    ensures line { E.tells → IsLinePut (E.holds err.old) (spec.start_line fault)
        (E.holds err.new) (E.faults err.old) (E.faults err.new) }
    ensures later { E.faults err.old ≤ E.faults err.new }
{
    put_line(err, fault.line().as_bytes());
    fault.status()
}
