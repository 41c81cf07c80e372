//! What holds of every log.
ghost use Rattle.std.specs.Prelude.{ℕ, List};
ghost use Rattle.audit_advisory.specs.declared.advisories.Advisory.{Advisory};
ghost use Rattle.audit_advisory.specs.declared.reports.Report.{Report};
ghost use Rattle.audit_lock.specs.declared.resolving.Package.{Package};
ghost use Rattle.audit_sarif.specs.Rules.{HasRulesOfResults};
ghost use Rattle.audit_sarif.specs.Sarif.{sarif_log};

/// The SARIF log that is printed for a report has one rule for each id that a result names, in
/// the order of first use, and no others (SARIF 2.1.0, section 3.19.23).
pub fn printed_rules_are_those_of_results()
    ensures { (uri : List ℕ) (advisories : List Advisory) (packages : List Package)
        (report : Report) → HasRulesOfResults (sarif_log uri advisories packages report).run }
{}
