//! Laws of entries, over their definitions.
ghost use Rattle.std.specs.Prelude.{◌≡◌, ◌≢◌, ◌↔◌, ◌∷◌, ◌++◌, ◌&&◌, ℕ, codes, Bool, List, IsErr, IsTrue, Option, Ok, Err, Some, None, flat_map, map, true, false};
ghost use Rattle.std.specs.List.{AllByRecursion, list_any};
ghost use Rattle.std.specs.Result.{result_ok};
ghost use Rattle.std.specs.Str.{IsUtf8, is_utf8, str_to_ascii_lowercase};
ghost use Rattle.semver.specs.Parse.{Parts, version_parts};
ghost use Rattle.tame_names.specs.Names.{is_name, prefix};
ghost use Rattle.tame_names.specs.declared.errors.CacheError.TheVariants.{OtherIndex};
ghost use Rattle.tame_names.specs.Pieces.{pieces};
ghost use Rattle.tame_records.specs.Lines.{lines};
ghost use Rattle.tame_records.specs.Written.{line};
ghost use Rattle.tame_records.specs.declared.versions.IndexVersion.{IndexVersion};
ghost use Rattle.tame_entry.specs.Bare.{is_bare};
ghost use Rattle.tame_entry.specs.Config.{download_url, with_slash, filled, is_brace, slash};
ghost use Rattle.tame_entry.specs.Entry.{Pair, ReadEntry, entry, has_no_zero, head, lines_in, pair_bytes, pairs, read_entry};
ghost use Rattle.tame_entry.specs.IndexEntries.{version_text};
ghost use Rattle.tame_entry.specs.Joined.{AreParts, IsEntryOf};
ghost use Rattle.tame_entry.specs.Krates.{items_of_file, krate_of_file, krate_of_lines};
ghost use Rattle.tame_entry.specs.Lines.{plain};
ghost use Rattle.tame_entry.specs.Markers.{EndsNoMarker};
ghost use Rattle.tame_entry.specs.Raw.{raw_version};
ghost use Rattle.tame_entry.specs.Revision.{EntryRevision, IsFormed, IsRevision, entry_text, revision_of, unnamed_revision};
ghost use Rattle.tame_entry.specs.RevisionNames.{IsUnsplit, revision_named};
ghost use Rattle.tame_entry.specs.Scan.{line_flag, scanned};
ghost use Rattle.tame_entry.specs.VersionStatuses.{IsOfLast, last_flag};
ghost use Rattle.tame_records.specs.declared.versions.VersionFlag.{VersionFlag};
ghost use Rattle.tame_entry.specs.Scannable.{IsScannable, IsTextOf, is_clear_behind};

/// The entry of a plain body, under a revision without a zero byte, is readable for its index, if
/// its url has no zero byte, with that revision and the lines of the body.
pub fn entries_read_back()
    ensures read { (index : List ℕ) (r : EntryRevision) (body : List ℕ)
        → IsTrue (has_no_zero index) → IsRevision r
        → IsTrue (has_no_zero (entry_text r)) → IsTrue (plain body)
        → read_entry index (entry index r (pairs body)) ≡ Ok (record {
          revision = r;
          versions = flat_map pair_bytes (pairs body);
        }) }
    ensures lines { (body : List ℕ) → IsTrue (plain body)
        → lines_in (flat_map pair_bytes (pairs body)) ≡ lines body }
{}

/// Nothing is believed that isn't of the index and of this version. The entry of another index is
/// refused. So is a file in which another text comes first, as a revision's does in an entry of the
/// version before, even if its first byte was changed; and so is each file with another first
/// byte.
pub fn other_entries_are_refused()
    ensures index { (index url : List ℕ) (r : EntryRevision) (ps : List Pair)
        → IsTrue (has_no_zero url) → url ≢ index
        → read_entry index (entry url r ps) ≡ Err OtherIndex }
    ensures text { (index text rest : List ℕ) → IsTrue (has_no_zero text) → text ≢ index
        → read_entry index (head ++ (text ++ 0 ∷ rest)) ≡ Err OtherIndex }
    ensures version { (index : List ℕ) (first : ℕ) (rest : List ℕ) → first ≢ 4
        → IsErr (read_entry index (first ∷ rest)) }
{}

/// What is read from the entry of a plain body is what is read from the body: its versions, or
/// why it has none, and its lines, each under the version in it.
pub fn entries_read_as_bodies()
    ensures versions { (index : List ℕ) (r : EntryRevision) (body : List ℕ)
        → IsTrue (has_no_zero index) → IsRevision r
        → IsTrue (has_no_zero (entry_text r)) → IsTrue (plain body)
        → krate_of_file (read_entry index (entry index r (pairs body)))
        ≡ krate_of_lines (lines body) }
    ensures items { (index : List ℕ) (r : EntryRevision) (body : List ℕ)
        → IsTrue (has_no_zero index) → IsRevision r
        → IsTrue (has_no_zero (entry_text r)) → IsTrue (plain body)
        → items_of_file (read_entry index (entry index r (pairs body)))
        ≡ Ok (map (λ line. (Some (raw_version line), line)) (lines body)) }
    ensures raw { (line : List ℕ) → version_text (Some (raw_version line)) line
        ≡ version_text None line }
{}

/// A file is readable as an entry of an index exactly if it is the parts of an entry, joined.
pub fn readable_entries_are_joined()
    ensures entry { (index file : List ℕ) (e : ReadEntry)
        → (read_entry index file ≡ Ok e) ↔ IsEntryOf index file e }
    ensures parts { (bytes : List ℕ) (parts : List (List ℕ)) → (pieces 0 bytes ≡ parts)
        ↔ AreParts parts bytes }
{}

/// The text of a revision is split at its first `: `, and each revision is read only from its own
/// text.
pub fn revisions_are_read_by_name()
    ensures named { (name : List ℕ) (value : List ℕ) → IsUnsplit name
        → revision_of (name ++ codes ": " ++ value) ≡ revision_named name value }
    ensures unnamed { (text : List ℕ) → IsUnsplit text
        → revision_of text ≡ unnamed_revision text }
    ensures texts { (text : List ℕ) (r : EntryRevision) → (revision_of text ≡ Some r)
        ↔ ((text ≡ entry_text r) × IsFormed r) }
{}

/// Each marker of a template is replaced where it is, and all else stays as it is. A text without
/// a `{` is a folder, except the one of crates.io, which names files of another form.
pub fn markers_are_replaced_in_place()
    ensures template { (name version dl : List ℕ) → list_any is_brace dl ≡ true
        → download_url name version dl ≡ filled name version dl }
    ensures folder { (name version dl : List ℕ) → list_any is_brace dl ≡ false
        → dl ≢ codes "https://crates.io/api/v1/crates"
        → download_url name version dl
        ≡ with_slash dl ++ name ++ codes "/" ++ version ++ codes "/download" }
    ensures text { (name version text : List ℕ) → list_any is_brace text ≡ false
        → filled name version text ≡ text }
    ensures crate_name { (name version before behind : List ℕ) → list_any is_brace before ≡ false
        → filled name version (before ++ codes "{crate}" ++ behind)
        ≡ before ++ name ++ filled name version behind }
    ensures version { (name version before behind : List ℕ) → list_any is_brace before ≡ false
        → filled name version (before ++ codes "{version}" ++ behind)
        ≡ before ++ version ++ filled name version behind }
    ensures folders { (name version before behind : List ℕ) → list_any is_brace before ≡ false
        → filled name version (before ++ codes "{prefix}" ++ behind)
        ≡ before ++ prefix slash name ++ filled name version behind }
    ensures lower { (name version before behind : List ℕ) → list_any is_brace before ≡ false
        → filled name version (before ++ codes "{lowerprefix}" ++ behind)
        ≡ before ++ str_to_ascii_lowercase (prefix slash name) ++ filled name version behind }
    ensures other { (name version before behind : List ℕ) → list_any is_brace before ≡ false
        → EndsNoMarker behind
        → filled name version (before ++ codes "{" ++ behind)
        ≡ before ++ codes "{" ++ filled name version behind }
{}

/// The scan of a written line finds the version that wrote it if neither its text nor the crate's
/// name holds anything at which the scan would stop: for example, if the name is valid and the
/// version is one of Semantic Versioning 2.0.0. The flag that it finds is yanked exactly if the
/// version is and no text after the flag has a `}`.
pub fn written_lines_are_scanned()
    ensures names { (v : IndexVersion) (p : Parts) → IsUtf8 v.name → IsTrue (is_name v.name)
        → version_parts v.version ≡ Ok p → raw_version (line v) ≡ v.version }
    ensures version { (v : IndexVersion) → IsTrue (is_bare v.name) → IsTrue (is_bare v.version)
        → IsTrue (is_utf8 v.version) → raw_version (line v) ≡ v.version }
    ensures flag { (v : IndexVersion) → line_flag (line v) ≡ Ok (v.yanked && is_clear_behind v) }
    ensures scan { (v : IndexVersion) (p : Parts) (text : Option (List ℕ)) → IsScannable v p
        → IsTextOf v text → scanned (result_ok (version_parts (version_text text (line v))))
        (line_flag (line v)) ≡ Ok (p, v.yanked) }
{}

/// Records say about a version what the last one with it says: those after it have other versions.
/// They say nothing about it exactly if none has it.
pub fn last_record_decides()
    ensures last { (flags : List VersionFlag) (version : List ℕ) (flag : Bool)
        → (last_flag flags version ≡ Some flag) ↔ IsOfLast flags version flag }
    ensures none { (flags : List VersionFlag) (version : List ℕ)
        → (last_flag flags version ≡ None)
        ↔ AllByRecursion (λ h. h.version ≢ version) flags }
{}
