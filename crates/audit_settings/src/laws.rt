//! What holds for settings, by their definitions.
ghost use Rattle.std.specs.Prelude.{◌≡◌, ℕ, List, [], ◌∷◌, ◌++◌, ◌||◌, false, None, Some, Ok};
ghost use Rattle.std.specs.List.{list_any};
ghost use Rattle.toml.specs.Data.{no_members};
ghost use Rattle.audit_advisory.specs.Exits.{denies_self};
ghost use Rattle.audit_advisory.specs.Outputs.{all_deny_options};
ghost use Rattle.audit_advisory.specs.declared.metadata.Informational.{Informational};
ghost use Rattle.audit_advisory.specs.declared.outputs.DenyOption.{DenyOption};
ghost use Rattle.audit_advisory.specs.declared.outputs.DenyOption.TheVariants.{Warnings};
ghost use Rattle.audit_settings.specs.Commands.{no_option};
ghost use Rattle.audit_settings.specs.Defaults.{default_settings};
ghost use Rattle.audit_settings.specs.Denied.{adds_kind};
ghost use Rattle.audit_settings.specs.Overriding.{denied, overridden};
ghost use Rattle.audit_settings.specs.Reported.{has_kind, warned_of};
ghost use Rattle.audit_settings.specs.Settings.{settings_in};
ghost use Rattle.audit_settings.specs.Unknown.{IsFirst, first_in_order};
ghost use Rattle.audit_settings.specs.declared.configs.AuditConfig.{AuditConfig};

/// A document without keys gives the default settings.
pub fn defaults_are_read_from_nothing()
    ensures { settings_in no_members ≡ Ok default_settings }
{}

/// A command without options leaves the settings as they are.
pub fn commands_of_no_option()
    ensures { (s : AuditConfig) → overridden no_option s ≡ s }
{}

/// If there are unknown keys, one of them is reported, and none of them is before it in byte order.
pub fn first_key_is_first()
    ensures first { (texts : List (List ℕ)) (key : List ℕ)
        → first_in_order texts ≡ Some key → IsFirst key texts }
    ensures none { (texts : List (List ℕ)) → first_in_order texts ≡ None → texts ≡ [] }
{}

/// What is given after `--deny` comes after what the settings deny, in its order; the last
/// `warnings` replaces all before it by all four options.
pub fn denied_options_are_appended()
    ensures appended { (given settled : List DenyOption) → denies_self given ≡ false
        → denied given settled ≡ settled ++ given }
    ensures replaced { (front back settled : List DenyOption) → denies_self back ≡ false
        → denied (front ++ Warnings ∷ back) settled ≡ all_deny_options ++ back }
{}

/// Advisories of a kind are warned about if and only if the settings state the kind or some option
/// adds it, whatever the order of the options; what is stated comes first, in its order.
pub fn denied_kinds_are_warned_of()
    ensures kinds { (options : List DenyOption) (stated : List Informational) (k : Informational)
        → has_kind k (warned_of options stated)
        ≡ (has_kind k stated || list_any (adds_kind k) options) }
    ensures stated { (options : List DenyOption) (stated : List Informational)
        → (more : List Informational) × (warned_of options stated ≡ stated ++ more) }
{}
