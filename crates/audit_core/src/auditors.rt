//! The auditor: advisories and settings read once, for many audits.
ghost use Rattle.std.specs.Prelude.{◌≡◌, ◌≢◌, IfOk, IfErr, Ok, Err};
ghost use Rattle.audit_advisory.specs.Exits.{fails};
ghost use Rattle.audit_advisory.specs.Points.{point_of};
ghost use Rattle.audit_core.specs.Auditors.{advisories_from, auditor_of, refuses_advisory, text_auditor};
ghost use Rattle.audit_core.specs.Auditors as spec;

use crate::auditing::AuditError;
use crate::checking::{Checks, checks_of};
use audit_advisory::{Advisory, AdvisoryFault, Database, DenyOption, Report, Settings, fails};
use audit_settings::AuditConfig;
use semver::Version;
use std::alloc::Global;
use tame_names::{Items, NoMemory, Text};

/// What audits lockfiles: advisories, what is asked of them, how yanked versions are checked, and
/// what is denied.
#[derive(Drop)]
pub struct Auditor {
    pub(crate) database: Database,
    pub(crate) settings: Settings,
    pub(crate) checks: Checks,
    pub(crate) deny: Items<DenyOption>,
}

/// The advisories that texts are, or the first text that isn't one.
fn read_advisories(alloc: Global, texts: &[Text]) -> Result<Items<Advisory>, AuditError>
    ensures ok { IfOk result (λ advisories. advisories_from 0 texts.now ≡ Ok advisories) }
    ensures refused { IfErr result (λ e. e ≢ AuditError.NoMemory
        → advisories_from 0 texts.now ≡ Err e) }
    ensures only { IfErr result (λ e. e ≢ AuditError.NoMemory → refuses_advisory e) }
{
    let mut advisories = Items::new(alloc);
    for (n, text) in texts.iter().enumerate() {
        match Advisory::read(alloc, text.as_str()) {
            Ok(advisory) => advisories.add(advisory)?,
            Err(AdvisoryFault::NoMemory) => return Err(AuditError::NoMemory),
            Err(fault) => return Err(AuditError::Advisory { n, fault }),
        }
    }
    Ok(advisories)
}

/// A version without a pre-release.
fn release(major: u64, minor: u64, patch: u64) -> Version
    ensures { point_of result ≡ spec.release major minor patch }
{
    Version::new(major, minor, patch)
}

fn deny_copied(alloc: Global, options: &[DenyOption]) -> Result<Items<DenyOption>, NoMemory>
    ensures { IfOk result (λ copies. copies ≡ options.now) }
{
    let mut copies = Items::new(alloc);
    copies.extend(options)?;
    Ok(copies)
}

impl Auditor {
    /// An auditor of the advisories that these texts are. `Advisory` names the first text that
    /// isn't one, counted from 0, and says why.
    pub fn new(
        alloc: Global,
        config: &AuditConfig,
        advisories: &Items<Text>,
    ) -> Result<Auditor, AuditError>
        ensures ok { IfOk result (λ auditor. text_auditor config.now advisories.now ≡ Ok auditor) }
        ensures refused { IfErr result (λ e. e ≢ AuditError.NoMemory
            → text_auditor config.now advisories.now ≡ Err e) }
        ensures only { IfErr result (λ e. e ≢ AuditError.NoMemory → refuses_advisory e) }
    {
        let read = read_advisories(alloc, advisories.as_slice())?;
        Ok(Auditor::of(alloc, config, read)?)
    }

    /// An auditor of these advisories.
    pub fn of(
        alloc: Global,
        config: &AuditConfig,
        advisories: Items<Advisory>,
    ) -> Result<Auditor, NoMemory>
        ensures { IfOk result (λ auditor. auditor ≡ auditor_of config.now advisories) }
    {
        Ok(Auditor {
            database: Database::new(alloc, advisories)?,
            settings: config.report_settings(alloc)?,
            checks: checks_of(config),
            deny: deny_copied(alloc, config.output.deny.as_slice())?,
        })
    }

    /// The advisories.
    pub fn database(&self) -> &Database
        ensures { result.now ≡ self.now.database }
    {
        &self.database
    }

    /// How yanked versions are checked.
    pub fn checks(&self) -> Checks
        ensures { result ≡ self.now.checks }
    {
        self.checks
    }

    /// What is denied as well as vulnerabilities.
    pub fn deny(&self) -> &[DenyOption]
        ensures { result.now ≡ self.now.deny }
    {
        self.deny.as_slice()
    }

    /// The places of the advisories on the auditor itself: those on `cargo-audit` 0.22.2, and then
    /// those on `rustsec` 0.33.0, the library that it ports.
    pub fn self_advisories(&self, alloc: Global) -> Result<Items<usize>, NoMemory>
        ensures { IfOk result (λ places. places ≡ spec.self_advisories self.now.database) }
    {
        let program = release(0, 22, 2);
        let library = release(0, 33, 0);
        let mut places = self.database.query(alloc, "cargo-audit", &program)?;
        let more = self.database.query(alloc, "rustsec", &library)?;
        places.extend(more.as_slice())?;
        Ok(places)
    }

    /// Whether an audit with this report fails: by the report, or by advisories on the auditor
    /// itself if `warnings` are denied.
    pub fn should_exit_with_failure(&self, alloc: Global, report: &Report) -> Result<bool, NoMemory>
        ensures { IfOk result (λ failed. failed
            ≡ fails report.now self.now.deny (spec.self_advisories self.now.database)) }
    {
        let own = self.self_advisories(alloc)?;
        Ok(fails(report, self.deny.as_slice(), own.as_slice()))
    }
}
