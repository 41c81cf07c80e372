//! The audits of lockfiles that the arguments ask for, and what is done with them.
ghost use Rattle.std.specs.Prelude.{◌≡◌, ◌≢◌, map, Ok, Err, IfOk, IfErr, option_map, string_bytes};
ghost use Rattle.audit_words.specs.declared.commands.WordsFault.TheVariants as WordsFault;
ghost use Rattle.audit_program.specs.Jobs.{asking_of};
ghost use Rattle.audit_program.specs.Jobs as spec;
ghost use Rattle.audit_remedies.specs.Remedies.{baseline_path};
ghost use Rattle.audit_program.specs.Tasks.{task_place};

use audit_remedies::Remedy;
use audit_settings::AuditCommand;
use audit_words::{BinCommand, Command, FixCommand, WordsFault, read_words};
use std::alloc::Global;

/// An audit of a lockfile.
#[derive(Debug, Drop)]
pub struct Task {
    /// The options of `audit`.
    pub command: AuditCommand,
    /// What is done with the audit.
    pub remedy: Remedy,
}

impl Task {
    /// The lockfile's path by the arguments.
    pub fn place(&self) -> &str
        ensures { result.now ≡ task_place self.now }
    {
        match &self.command.file {
            Some(path) => path.as_str(),
            None => "Cargo.lock",
        }
    }

    /// The path of the baseline that is read.
    pub fn baseline(&self) -> Option<&str>
        ensures { option_map (λ path. path.now) result ≡ baseline_path self.now.remedy }
    {
        match &self.remedy {
            Remedy::Baseline(path) => Some(path.as_str()),
            _ => None,
        }
    }
}

/// The audit that `fix` makes. A lockfile that is named after it replaces that of `audit`.
fn fix_task(audit: AuditCommand, more: FixCommand) -> Task
    ensures { result ≡ spec.fix_task audit more }
{
    let FixCommand { file, dry_run } = more;
    let mut command = audit;
    if file.is_some() {
        command.file = file;
    }
    Task {
        command,
        remedy: Remedy::Fix { dry_run },
    }
}

/// What a command asks for, by what a run needs for it.
#[derive(Debug, Drop)]
pub enum Job {
    /// The help text.
    Help,
    /// The version.
    Version,
    /// Two audits of so many made packages.
    Generate(u64),
    /// Audits of binaries.
    Binaries(AuditCommand, BinCommand),
    /// An audit of a lockfile.
    Lockfile(Task),
}

/// What a command asks for.
fn job_of(command: Command) -> Job
    ensures { result ≡ spec.job_of command }
{
    let (command, remedy) = match command {
        Command::Help => return Job::Help,
        Command::Version => return Job::Version,
        Command::Generate(count) => return Job::Generate(count),
        Command::Bin(audit, more) => return Job::Binaries(audit, more),
        Command::Fix(audit, more) => return Job::Lockfile(fix_task(audit, more)),
        Command::Audit(audit) => (audit, Remedy::Report),
        Command::Plan(audit) => (audit, Remedy::Plan),
        Command::Baseline(audit, path) => (audit, Remedy::Baseline(path)),
        Command::WriteBaseline(audit, path) => (audit, Remedy::WriteBaseline(path)),
        Command::Vendor(audit, more) => (audit, Remedy::Vendor(more)),
    };
    Job::Lockfile(Task { command, remedy })
}

/// What the arguments ask for.
pub fn read_job(alloc: Global, words: &[String]) -> Result<Job, WordsFault>
    ensures ok { IfOk result (λ job. asking_of (map string_bytes words.now) ≡ Ok job) }
    ensures refused { IfErr result (λ e. e ≢ WordsFault.NoMemory
        → asking_of (map string_bytes words.now) ≡ Err e) }
{
    Ok(job_of(read_words(alloc, words)?))
}
