//! Laws on the findings of audits and on gates.
ghost use Rattle.std.specs.Prelude.{◌≡◌, ◌+◌, ◌↔◌, List, IsTrue, [], length};
ghost use Rattle.audit_advisory.specs.declared.advisories.Advisory.{Advisory};
ghost use Rattle.audit_core.specs.Auditors.{IsReportOf};
ghost use Rattle.audit_core.specs.declared.auditing.Audited.{Audited};
ghost use Rattle.baseline_gate.specs.Gates.{gate_status, unlisted};
ghost use Rattle.baseline_gate.specs.Laws.{AreOfReport, HasNew};
ghost use Rattle.baseline_gate.specs.Reports.{audit_findings};
ghost use Rattle.known_findings.specs.Baselines.{listed, written};
ghost use Rattle.known_findings.specs.Findings.{is_among};
ghost use Rattle.known_findings.specs.declared.findings.Finding.{Finding};

/// An audit by these advisories has one finding for each vulnerability of its report, in their
/// order, and then one for each warning.
pub fn each_entry_is_one_finding()
    ensures each { (advisories : List Advisory) (audited : Audited) → IsReportOf advisories audited
        → AreOfReport advisories audited.lockfile audited.report
        (audit_findings advisories audited) }
    ensures counted { (advisories : List Advisory) (audited : Audited)
        → IsReportOf advisories audited → length (audit_findings advisories audited)
        ≡ length audited.report.vulnerabilities + length audited.report.warnings }
{}

/// A gate fails if and only if one of the findings is new, and only then it prints something; else
/// its status is 0. Listed findings that are gone change nothing. With their own baseline,
/// findings never fail.
pub fn gates_fail_on_new_findings_alone()
    ensures fails { (baseline findings : List Finding)
        → (gate_status (unlisted baseline findings) ≡ 1) ↔ HasNew baseline findings }
    ensures passes { (baseline findings : List Finding)
        → (gate_status (unlisted baseline findings) ≡ 0)
        ↔ ((f : Finding) → IsTrue (is_among f findings) → IsTrue (is_among f baseline)) }
    ensures prints { (found : List Finding) → (gate_status found ≡ 0) ↔ (written found ≡ []) }
    ensures own { (findings : List Finding)
        → gate_status (unlisted (listed findings) findings) ≡ 0 }
{}
